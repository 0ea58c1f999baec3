//! Starts and their epochs.

ghost use Rattle.std.specs.Prelude.{◌≡◌, ◌↔◌, ◌+◌, ◌^◌, ◌<◌, ◌≤◌, ◌||◌, ◌++◌, ◌∷◌};
ghost use Rattle.std.specs.Prelude.{[], ℕ, List, IfOk, OnOk, OnErr, IsTrue, false, Option};
ghost use Rattle.std.specs.Option.{option_map};
ghost use Rattle.cdni_base.specs.Key.{KeyParts};
ghost use Rattle.epochs.specs.EpochsList.{IsStale, is_stale, nothing, after, begins, forgets};
ghost use Rattle.trigger_command.specs.Selection.{hits};

use crate::chains::{Chains, PlaceList};
use cdni_base::Key;
use listing::Text;
use std::alloc::{AllocError, Global};
use std::marker::Model;
use trigger_command::{SELECTION_MAX, Selection};

/// The start of an invalidate or a purge: its epoch, and what it takes back.
#[derive(Drop)]
pub struct Start {
    pub epoch: u64,
    pub selection: Selection,
}

/// The starts of invalidates and purges, of which the oldest can be forgotten. The first start has epoch 1, and
/// each later one an epoch more. It is seen as what is known, and for how many starts there are places.
#[derive(Drop)]
pub struct Epochs {
    chains: Chains,
    spare: Vec<PlaceList>,
    newest: u64,
    settled: u64,
    unchained: u64,
}

impl Model for Epochs {
    ghost use Rattle.std.specs.Prelude.{◌≤◌};
    ghost use Rattle.std.specs.Vec.{vec_len};
    ghost use Rattle.epochs.specs.Chains.{HasRoom, IsWhole};
    ghost use Rattle.epochs.specs.EpochsList.{AreRising, EpochsView};

    ghost Value = { EpochsView };

    ghost view = { λ e. record {
      known = record { newest = e.newest; settled = e.settled; starts = e.chains.starts.items };
      spare = vec_len e.spare;
    } };

    ghost invariant = { λ e. HasRoom e.chains (vec_len e.spare)
        × AreRising e.settled e.newest e.chains.starts.items
        × IsWhole e.chains e.newest e.unchained
        × (e.unchained ≤ e.newest) };
}

impl Epochs {
    /// No starts.
    ///
    /// # Errors
    /// Want of memory.
    pub fn new(alloc: Global) -> Result<Epochs, AllocError>
        ensures { IfOk result (λ epochs. epochs ≡ record { known = nothing; spare = 0 }) }
    {
        Ok(Epochs {
            chains: Chains::new(alloc)?,
            spare: Vec::with_capacity(alloc, 0)?,
            newest: 0,
            settled: 0,
            unchained: 0,
        })
    }

    /// The epoch of the last start, and 0 where there was none. No start comes after it.
    pub fn newest(&self) -> u64
        ensures newest { result ≡ self.now.known.newest }
        ensures none { (key : KeyParts) (ccid : Option (List ℕ))
            → is_stale self.now.known.starts result key ccid ≡ false }
    {
        self.newest
    }

    /// Starts to take back what is selected, and tells the epoch of the start.
    ///
    /// # Errors
    /// Want of memory, and then nothing has changed.
    pub fn start(&mut self, alloc: Global, selection: Selection) -> Result<u64, AllocError>
        requires { self.old.known.newest ≤ 2 ^ 62 }
        ensures epoch { IfOk result (λ epoch. epoch ≡ self.old.known.newest + 1) }
        ensures known { OnOk result (self.new.known ≡ after self.old.known (begins selection)) }
        ensures hits { OnOk result ((begun : ℕ) (key : KeyParts) (ccid : Option (List ℕ))
            → begun ≤ self.old.known.newest → is_stale self.new.known.starts begun key ccid
            ≡ (is_stale self.old.known.starts begun key ccid || hits selection key ccid)) }
        ensures spare { self.new.spare ≡ self.old.spare }
        ensures err { OnErr result (self.new ≡ self.old) }
    {
        let list = Vec::with_capacity(alloc, selection.content_urls.len())?;
        self.chains.reserve(self.spare.len() + 1)?;
        self.unchained = self
            .chains
            .add(self.newest, selection, list, self.unchained);
        self.newest += 1;
        Ok(self.newest)
    }

    /// Makes a place for a start, where there is none.
    ///
    /// # Errors
    /// Want of memory, and then nothing has changed.
    pub fn reserve(&mut self, alloc: Global) -> Result<(), AllocError>
        ensures places { OnOk result (0 < self.new.spare) }
        ensures known { self.new.known ≡ self.old.known }
        ensures no_fewer { self.old.spare ≤ self.new.spare }
        ensures err { OnErr result (self.new ≡ self.old) }
    {
        if !self.spare.is_empty() {
            return Ok(());
        }
        let list = Vec::with_capacity(alloc, SELECTION_MAX)?;
        self.chains.reserve(1)?;
        self.spare.push(list)?;
        Ok(())
    }

    /// The same as `start` at a place that was made. It takes no memory.
    pub fn start_reserved(&mut self, selection: Selection) -> u64
        requires place { 0 < self.old.spare }
        requires few { self.old.known.newest ≤ 2 ^ 62 }
        ensures epoch { result ≡ self.old.known.newest + 1 }
        ensures known { self.new.known ≡ after self.old.known (begins selection) }
        ensures hits { (begun : ℕ) (key : KeyParts) (ccid : Option (List ℕ))
            → begun ≤ self.old.known.newest → is_stale self.new.known.starts begun key ccid
            ≡ (is_stale self.old.known.starts begun key ccid || hits selection key ccid) }
        ensures spare { self.new.spare + 1 ≡ self.old.spare }
    {
        let list = self.spare.pop().unwrap();
        self.unchained = self
            .chains
            .add(self.newest, selection, list, self.unchained);
        self.newest += 1;
        self.newest
    }

    /// Whether a start after this epoch hits the content of this key, and of this collection where it is of one (RFC
    /// 8007, section 5.2.1).
    pub fn is_stale(&self, begun: u64, key: &Key, ccid: Option<&Text>) -> bool
        ensures value { result ≡ is_stale self.now.known.starts begun key.now
            (option_map (λ text. text.now) ccid.entry) }
        ensures relation { IsTrue result ↔ IsStale self.now.known.starts begun key.now
            (option_map (λ text. text.now) ccid.entry) }
    {
        if begun >= self.newest {
            return false;
        }
        self.chains
            .is_hit_since(self.newest, self.unchained, begun, key, ccid)
    }

    /// Forgets the starts up to this epoch. For what began at it or later nothing changes.
    pub fn settle(&mut self, oldest: u64)
        requires { oldest ≤ self.old.known.newest }
        ensures known { self.new.known ≡ after self.old.known (forgets oldest) }
        ensures agrees { (begun : ℕ) (key : KeyParts) (ccid : Option (List ℕ)) → oldest ≤ begun
            → is_stale self.new.known.starts begun key ccid ≡ is_stale self.old.known.starts begun key ccid }
        ensures spare { self.new.spare ≡ self.old.spare }
    {
        self.chains.forget(oldest);
        self.settled = self.settled.max(oldest);
    }
}
