//! An outside in memory.

ghost use Rattle.std.specs.Prelude.{◌≡◌, ◌==◌, ◌&&◌, if◌then◌else◌, ℕ, List, ◌++◌, [], ◌∷◌, All, IfOk, IsTrue, map, true};
ghost use Rattle.edge_base.specs.Causes.{next_count};
ghost use Rattle.doors.specs.Outside.{Hired, Listened, Placed};
ghost use Rattle.doors.specs.MemoryOutside.{IsFresh, asked_at, copy_if};

use crate::address::read_address;
use crate::memory_door::{MemoryDoor, turned};
use crate::outside::{Outside, OutsideFault, Worker};
use edge_base::ListClock;
use listing::{Listing, Text};
use std::alloc::{AllocError, Global};
use std::marker::Model;
use std::sync::Wait;
use std::thread::Threads;
use upstream_gate::MemoryGate;

/// A worker in memory.
pub type MemoryWorker = Worker<MemoryDoor, MemoryGate, ListClock>;

/// Workers in the order in which an outside gives them.
pub type WorkerList = Listing<MemoryWorker>;

/// A call of an outside, as it is remembered.
#[derive(Drop)]
pub(crate) enum Noted {
    // for the file of places at a path, of which a copy was made or not
    Placed(Text, bool),
    // to listen at an address, which met this fault or none
    Listened(Text, Option<OutsideFault>),
    // for a worker, which was given or not
    Hired(bool),
}

/// An outside that gives given workers in order, and then fails. At each path it has the same file of places. It tells its calls and what the workers told that were
/// given back, unless it finds no memory to remember one of them: from then on it tells no more.
#[derive(Drop)]
pub struct MemoryOutside {
    // the next worker last
    left: Vec<MemoryWorker>,
    calls: Vec<Noted>,
    back: Vec<MemoryWorker>,
    places: Text,
    telling: bool,
    faults: u64,
    returned: u64,
}

impl Model for MemoryOutside {
    ghost use Rattle.std.specs.Prelude.{All, map, reverse};
    ghost use Rattle.doors.specs.MemoryOutside.{Bureau, IsFresh, asked_at};

    ghost Value = { Bureau };

    ghost view = { λ o. record {
      left = reverse o.left.items;
      calls = map (asked_at o.places) o.calls.items;
      back = o.back.items;
      places = o.places;
      telling = o.telling;
      faults = o.faults;
      returned = o.returned;
    } };

    ghost invariant = { λ o. All IsFresh (reverse o.left.items) };
}

impl MemoryOutside {
    /// An outside that has these workers left, none of which was called before, and this file of places.
    ///
    /// # Errors
    /// Want of memory.
    pub fn new(
        alloc: Global,
        workers: WorkerList,
        places: &[u8],
    ) -> Result<MemoryOutside, AllocError>
        requires fresh { All IsFresh workers }
        ensures { IfOk result (λ o. o ≡ record {
          left = workers;
          calls = [];
          back = [];
          places = places.now;
          telling = true;
          faults = 0;
          returned = 0;
        }) }
    {
        let left = turned(alloc, workers)?;
        Ok(MemoryOutside {
            left,
            calls: Vec::new(alloc),
            back: Vec::new(alloc),
            places: Text::of(alloc, places)?,
            telling: true,
            faults: 0,
            returned: 0,
        })
    }

    /// The workers that were given back, in order.
    pub fn back(&self) -> &[MemoryWorker]
        ensures { result.now ≡ self.now.back }
    {
        &self.back
    }
}

// remembers a call for the file of places; false for want of memory
fn note_placed(alloc: Global, calls: &mut Vec<Noted>, path: &[u8], copied: bool) -> bool
    ensures { (text : List ℕ) → IsTrue result → map (asked_at text) calls.new.items
        ≡ map (asked_at text) calls.old.items ++ Placed path.now (copy_if copied text) ∷ [] }
{
    match Text::of(alloc, path) {
        Ok(path) => calls.push(Noted::Placed(path, copied)).is_ok(),
        Err(_) => false,
    }
}

// remembers a call to listen; false for want of memory
fn note_listened(
    alloc: Global,
    calls: &mut Vec<Noted>,
    address: &[u8],
    fault: Option<OutsideFault>,
) -> bool
    ensures { (text : List ℕ) → IsTrue result → map (asked_at text) calls.new.items
        ≡ map (asked_at text) calls.old.items ++ Listened address.now fault ∷ [] }
{
    match Text::of(alloc, address) {
        Ok(text) => calls.push(Noted::Listened(text, fault)).is_ok(),
        Err(_) => false,
    }
}

// remembers a call for a worker; false for want of memory
fn note_hired(calls: &mut Vec<Noted>, given: bool) -> bool
    ensures { (text : List ℕ) → IsTrue result → map (asked_at text) calls.new.items
        ≡ map (asked_at text) calls.old.items ++ Hired given ∷ [] }
{
    calls.push(Noted::Hired(given)).is_ok()
}

fn are_both(first: bool, second: bool) -> bool
    ensures { result ≡ (first && second) }
{
    first && second
}

// the count of faults, where a door has counted so many
fn counted(hurt: u64, faults: u64) -> u64
    ensures { result ≡ (if hurt == 0 then faults else next_count faults) }
{
    if hurt > 0 {
        faults.saturating_add(1)
    } else {
        faults
    }
}

impl Outside for MemoryOutside {
    ghost use Rattle.std.specs.Prelude.{◌≡◌, ◌≢◌, ◌≤◌, ◌<◌, ◌+◌, ◌-◌, ◌^◌, ◌↔◌, [], ◌∷◌, None, Err, IfOk, is_ok, min};
    ghost use Rattle.edge_base.specs.Causes.{Rose};
    ghost use Rattle.doors.specs.Address.{address_of};
    ghost use Rattle.doors.specs.Outside.{DiaryGrows, HasFaultCause, Hired, Listened, Placed, fault_in};
    ghost use Rattle.doors.specs.MemoryOutside.{GivesNext, IsFresh, diary_of, tells_at};

    type D = MemoryDoor;

    type G = MemoryGate;

    type C = ListClock;

    ghost faults = { λ o. o.faults };

    ghost returned = { λ o. o.returned };

    ghost diary = { diary_of };

    /// It listens at each address.
    fn listen<R: Threads + Wait + Sync>(
        &mut self,
        _rt: &R,
        alloc: Global,
        address: &[u8],
    ) -> Result<(), OutsideFault>
        ensures left { self.new.left ≡ self.old.left }
        ensures diary { DiaryGrows (diary_of self.old) (diary_of self.new) (Listened address.now (fault_in result) ∷ []) [] }
        ensures returned { self.new.returned ≡ self.old.returned }
        ensures later { self.old.faults ≤ self.new.faults }
        ensures cause { HasFaultCause self.old.faults self.new.faults result }
        ensures address { (result ≡ Err OutsideFault.BadAddress) ↔ (address_of address.now ≡ None) }
    {
        match read_address(address) {
            Some(_) => {
                let noted = note_listened(alloc, &mut self.calls, address, None);
                self.telling = are_both(self.telling, noted);
                Ok(())
            }
            None => {
                let fault = OutsideFault::BadAddress;
                let noted = note_listened(alloc, &mut self.calls, address, Some(fault));
                self.telling = are_both(self.telling, noted);
                Err(fault)
            }
        }
    }

    /// The next worker, and a failure where none is left.
    fn worker<R: Threads + Wait + Sync>(
        &mut self,
        _rt: &R,
        _alloc: Global,
    ) -> Result<MemoryWorker, OutsideFault>
        ensures next { GivesNext self.old.left self.new.left result }
        ensures diary { DiaryGrows (diary_of self.old) (diary_of self.new) (Hired (is_ok result) ∷ []) [] }
        ensures returned { self.new.returned ≡ self.old.returned }
        ensures later { self.old.faults ≤ self.new.faults }
        ensures cause { HasFaultCause self.old.faults self.new.faults result }
        ensures address { result ≢ Err OutsideFault.BadAddress }
        ensures fresh { IfOk result (λ w. IsFresh w) }
    {
        match self.left.pop() {
            Some(worker) => {
                let noted = note_hired(&mut self.calls, true);
                self.telling = are_both(self.telling, noted);
                Ok(worker)
            }
            None => {
                let noted = note_hired(&mut self.calls, false);
                self.telling = are_both(self.telling, noted);
                self.faults = self.faults.saturating_add(1);
                Err(OutsideFault::Failed)
            }
        }
    }

    /// A copy of the text that it was made with.
    fn places<R: Threads + Wait + Sync>(
        &mut self,
        _rt: &R,
        alloc: Global,
        path: &[u8],
    ) -> Result<Text, OutsideFault>
        ensures left { self.new.left ≡ self.old.left }
        ensures text { IfOk result (λ text. text ≡ self.old.places) }
        ensures diary { DiaryGrows (diary_of self.old) (diary_of self.new) (Placed path.now result ∷ []) [] }
        ensures returned { self.new.returned ≡ self.old.returned }
        ensures later { self.old.faults ≤ self.new.faults }
        ensures cause { HasFaultCause self.old.faults self.new.faults result }
        ensures address { result ≢ Err OutsideFault.BadAddress }
    {
        match Text::of(alloc, self.places.bytes()) {
            Ok(text) => {
                let noted = note_placed(alloc, &mut self.calls, path, true);
                self.telling = are_both(self.telling, noted);
                Ok(text)
            }
            Err(_) => {
                let noted = note_placed(alloc, &mut self.calls, path, false);
                self.telling = are_both(self.telling, noted);
                Err(OutsideFault::Memory)
            }
        }
    }

    /// Keeps the worker, where memory is found.
    fn give_back(&mut self, worker: MemoryWorker)
        ensures left { self.new.left ≡ self.old.left }
        ensures diary { DiaryGrows (diary_of self.old) (diary_of self.new) [] (tells_at worker ∷ []) }
        ensures returned { self.new.returned ≡ min (self.old.returned + 1) (2 ^ 64 - 1) }
        ensures later { self.old.faults ≤ self.new.faults }
        ensures cause { 0 < worker.door.faults → Rose self.old.faults self.new.faults }
    {
        self.faults = counted(worker.door.faults(), self.faults);
        self.returned = self.returned.saturating_add(1);
        let kept = self.back.push(worker).is_ok();
        self.telling = are_both(self.telling, kept);
    }
}
