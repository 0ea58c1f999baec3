//! The refreshes that are open, and the starts that they have to know of.

ghost use Rattle.std.specs.Prelude.{◌≡◌, ◌+◌, ◌^◌, ◌<◌, ◌≤◌, [], drop, is_some, length, map, option_to_list, IfOk, IfNone, OnOk, OnErr, OnSome};
ghost use Rattle.std.specs.List.{find};
ghost use Rattle.shelf.specs.Open.{is_named, unnamed};
ghost use Rattle.delivery_core.specs.Refreshes.{AreBetween, begun, end_reply, first_noted, least_place, metadata_of, noted, noted_of, with_since, selects_metadata};

use crate::installed::is_hit;
use cdni_base::{Key, Moment};
use journal::Journal;
use listing::Listing;
use rows::Row;
use shelf::{Named, Open};
use std::alloc::{AllocError, Global};
use std::marker::Model;
use trigger_command::Selection;

/// A start that selects metadata: its trigger, and the part of its selection that selects metadata.
#[derive(Drop)]
pub struct Noted {
    pub trigger: u64,
    pub selection: Selection,
}

/// An open refresh: when it began, and the place of the next start then.
#[derive(Drop)]
pub(crate) struct Placed {
    pub moment: Moment,
    pub place: u64,
}

/// A refresh that was ended: when it began, and the first trigger since that has made what it brought invalid.
#[derive(Clone, Copy, Debug, PartialEq, Eq)]
pub(crate) struct Ended {
    pub moment: Moment,
    pub stale: Option<u64>,
}

/// The open refreshes, in order. It is seen as these, each with the starts since its begin that selected metadata, how
/// many refreshes were begun, how many starts there were, and how many more can be noted without memory. Each such start
/// is kept once, and forgotten where all open refreshes are younger.
#[derive(Drop)]
pub(crate) struct Refreshes {
    row: Row<Open<Placed>>,
    refreshed: u64,
    starts: Journal<Noted>,
    first: u64,
    started: u64,
}

impl Model for Refreshes {
    ghost use Rattle.std.specs.Prelude.{◌+◌, ◌≤◌, length, map};
    ghost use Rattle.delivery_core.specs.Refreshes.{AreBetween, RefreshesView, with_since};
    ghost use Rattle.shelf.specs.Open.{AreUpTo};

    ghost Value = { RefreshesView };

    ghost view = { λ r. record {
      refreshes = map (with_since r.first r.starts.stored) r.row.items;
      refreshed = r.refreshed;
      started = r.started;
      spare = r.starts.spare;
    } };

    ghost invariant = { λ r. AreBetween r.first (r.first + length r.starts.stored) r.row.items
        × AreUpTo r.refreshed r.row.items × (r.first + length r.starts.stored ≤ r.started) };
}

impl Refreshes {
    /// No open refresh.
    pub fn new(alloc: Global) -> Result<Refreshes, AllocError>
        ensures { IfOk result (λ r. r ≡ record { refreshes = []; refreshed = 0; started = 0; spare = 0 }) }
    {
        Ok(Refreshes {
            row: Row::new(alloc),
            refreshed: 0,
            starts: Journal::new(alloc)?,
            first: 0,
            started: 0,
        })
    }

    /// Begins a refresh of this pass, and answers its number.
    ///
    /// # Errors
    /// Want of memory. Nothing has changed then.
    pub fn begin(&mut self, alloc: Global, pass: u32, moment: Moment) -> Result<u64, AllocError>
        requires { self.old.refreshed ≤ 2 ^ 62 }
        ensures number { IfOk result (λ refresh. refresh ≡ self.old.refreshed + 1) }
        ensures after { OnOk result (self.new ≡ begun self.old pass moment) }
        ensures err { OnErr result (self.new ≡ self.old) }
    {
        self.row.reserve(alloc, 1)?;
        self.refreshed += 1;
        let place = self.first + self.starts.stored() as u64;
        self.row.push(Open {
            number: self.refreshed,
            pass,
            what: Placed { moment, place },
        });
        Ok(self.refreshed)
    }

    /// Whether the refresh of this number is open, and this pass began it.
    pub fn is_open(&self, pass: u32, refresh: u64) -> bool
        ensures { result ≡ is_some (find (is_named refresh pass) self.now.refreshes) }
    {
        let named = Named {
            number: refresh,
            pass,
        };
        self.row.find(named).is_some()
    }

    /// A copy of what open refreshes have to know of a start, where they have to, and a place for it.
    ///
    /// # Errors
    /// Want of memory. Nothing has changed then.
    pub fn copy_start(
        &mut self,
        alloc: Global,
        trigger: u64,
        selection: &Selection,
    ) -> Result<Option<Noted>, AllocError>
        ensures noted { IfOk result (λ copy. noted self.old (option_to_list copy)
            ≡ noted self.old (noted_of trigger selection.now)) }
        ensures place { IfOk result (λ copy. OnSome copy (0 < self.new.spare)) }
        ensures same { self.new ≡ record self.old { spare = self.new.spare } }
        ensures err { OnErr result (self.new ≡ self.old) }
    {
        if self.row.len() == 0 || !selects_metadata(selection) {
            return Ok(None);
        }
        let selection = metadata_of(alloc, selection)?;
        self.starts.reserve(alloc, 1)?;
        Ok(Some(Noted { trigger, selection }))
    }

    /// A trigger starts, of which the open refreshes have to know this.
    pub fn note(&mut self, copy: Option<Noted>)
        requires few { self.old.started ≤ 2 ^ 62 }
        requires place { OnSome copy (0 < self.old.spare) }
        ensures { self.new ≡ record (noted self.old (option_to_list copy)) { spare = self.new.spare } }
    {
        self.started += 1;
        match copy {
            Some(start) => self.starts.push_reserved(start),
            None => {}
        }
    }

    /// Ends the refresh of this number, if this pass began it, which has brought these documents. It takes no memory. The
    /// answer is when it began, and the first trigger since that hits one of them; `None` where no such refresh is open.
    pub fn end(&mut self, pass: u32, refresh: u64, resources: &[Key]) -> Option<Ended>
        ensures found { result ≡ end_reply resources.now (find (is_named refresh pass) self.old.refreshes) }
        ensures after { self.new ≡ record self.old {
          refreshes = unnamed refresh pass self.old.refreshes;
          spare = self.new.spare;
        } }
        ensures closed { IfNone result (self.new ≡ self.old) }
        ensures fewer { OnSome result (length self.new.refreshes + 1 ≡ length self.old.refreshes) }
        ensures small { self.new.refreshed < 2 ^ 64 }
    {
        let named = Named {
            number: refresh,
            pass,
        };
        match self.row.take(named) {
            Some(open) => {
                let from = (open.what.place - self.first) as usize;
                let stale = first_hit(&self.starts, from, resources);
                forget(&mut self.starts, &mut self.first, &self.row);
                Some(Ended {
                    moment: open.what.moment,
                    stale,
                })
            }
            None => None,
        }
    }
}

// whether the selection selects metadata
fn selects_metadata(selection: &Selection) -> bool
    ensures { result ≡ selects_metadata selection.now }
{
    selection.metadata_urls.len() > 0 || selection.metadata_patterns.len() > 0
}

// a copy of the part that selects metadata
fn metadata_of(alloc: Global, selection: &Selection) -> Result<Selection, AllocError>
    ensures { IfOk result (λ copy. copy ≡ metadata_of selection.now) }
{
    Ok(Selection {
        metadata_urls: selection.metadata_urls.clone()?,
        content_urls: Listing::new(alloc),
        ccids: Listing::new(alloc),
        metadata_patterns: selection.metadata_patterns.clone()?,
        content_patterns: Listing::new(alloc),
    })
}

// the trigger of the first start from here on that hits one of the documents
fn first_hit(starts: &Journal<Noted>, from: usize, resources: &[Key]) -> Option<u64>
    requires { from ≤ length starts.now.stored }
    ensures { result ≡ first_noted resources.now (drop from starts.now.stored) }
{
    'starts: for i in from..starts.stored() {
        let start = starts.entry(i);
        if is_hit(&start.selection, resources) {
            return Some(start.trigger);
        }
    }
    None
}

// forgets the starts that are before the begin of all open refreshes
fn forget(starts: &mut Journal<Noted>, first: &mut u64, row: &Row<Open<Placed>>)
    requires places { AreBetween first.old (first.old + length starts.old.stored) row.now.items }
    requires small { first.old + length starts.old.stored < 2 ^ 64 }
    ensures seen { map (with_since first.new starts.new.stored) row.now.items
        ≡ map (with_since first.old starts.old.stored) row.now.items }
    ensures places { AreBetween first.new (first.new + length starts.new.stored) row.now.items }
    ensures end { first.new + length starts.new.stored ≡ first.old + length starts.old.stored }
{
    let least = least_place(row, *first + starts.stored() as u64);
    starts.retire((least - *first) as usize);
    *first = least;
}

// the place of the oldest open refresh, or the next place where there is none
fn least_place(row: &Row<Open<Placed>>, next: u64) -> u64
    ensures { result ≡ least_place next row.now.items }
{
    match row.first() {
        Some(oldest) => oldest.what.place,
        None => next,
    }
}
