//! What fetches brought, the fetches that are open, and the starts of triggers since.

ghost use Rattle.std.specs.Prelude.{◌≡◌, ◌+◌, ◌^◌, ◌<◌, ◌≤◌, false, not, Ok, Some, [], ℕ, List, map, max, length, nat_le, ◌||◌, true, None, is_some, take, ◌-◌, IfOk, IfNone, OnOk, OnErr, option_map};
ghost use Rattle.std.specs.List.{find};
ghost use Rattle.epochs.specs.EpochsList.{past};
ghost use Rattle.object_cache.specs.ObjectTable as objects;
ghost use Rattle.history.specs.Kept.{kept_of, used, gained, total, with_gained};
ghost use Rattle.shelf.specs.Open.{is_named, AreRising};
ghost use Rattle.shelf.specs.KeptShelf.{kept_object, opened, end_reply, end_after, start_after, brought, content_of, is_gained, AreBegun, AreTried, AreUpToEpoch, IsPartOf, IsPartOfOrKept, flight_of, is_gone, is_hit, kept_in, least_begun, least_needed, was_tried};

use crate::open::{Named, Open};
use cdni_base::Key;
use epochs::Epochs;
use history::Fetching;
use listing::Listing;
use object_cache::{Object, ObjectTable};
use rows::Row;
use std::alloc::{AllocError, Global};
use std::marker::Model;
use trigger_command::Selection;
use upstream_gate::{Got, Outcome};

// how often an object is tried with a start in one call, while some are to be tried
const TRIALS: u64 = 8;

// how many objects are tried at least where a fetch begins: a walk ends, though what is used goes behind it
const LEAST: u64 = 2;

/// An open fetch as it is seen: what it fetches, and whether a start has hit that since it was opened.
#[derive(Drop)]
pub struct Flight {
    pub fetching: Fetching,
    pub hit: bool,
}

/// An open fetch: what it fetches, and the last start when it was opened.
#[derive(Drop)]
pub(crate) struct Launched {
    pub fetching: Fetching,
    pub begun: u64,
}

/// The kept objects, and the fetches that are open. It is seen as the most bytes that are kept, the kept objects, the
/// least recently used first, the open fetches, in order, how many were opened, and how many triggers started. Each open
/// fetch has a place for what it brings, so that its end takes no memory. A start goes through its own items alone: an
/// object that it hits stays in the table until one is to be kept, and is no longer found. A walk tries a few objects with
/// the starts in each call that looks one up, so that few are left then.
#[derive(Drop)]
pub struct Shelf {
    table: ObjectTable,
    flights: Row<Open<Launched>>,
    fetched: u64,
    epochs: Epochs,
    noted: u64,
    aimed: u64,
}

impl Model for Shelf {
    ghost use Rattle.std.specs.Prelude.{map};
    ghost use Rattle.shelf.specs.KeptShelf.{IsShelf, ShelfView, flight_of, kept_in, kept_object};

    ghost Value = { ShelfView };

    ghost view = { λ s. record {
      limit = s.table.limit;
      kept = kept_in s.epochs.known.starts s.noted s.table.objects;
      held = map kept_object s.table.objects;
      fetches = map (flight_of s.epochs.known.starts) s.flights.items;
      fetched = s.fetched;
      starts = s.epochs.known.newest;
    } };

    ghost invariant = { λ s. IsShelf s.table s.flights.items s.fetched s.epochs.known s.noted s.aimed };
}

impl Shelf {
    /// Nothing kept and nothing open. At most `limit` bytes are kept.
    ///
    /// # Errors
    /// Want of memory.
    pub fn new(alloc: Global, limit: u64) -> Result<Shelf, AllocError>
        ensures { IfOk result (λ s. s ≡ record { limit = limit; kept = []; held = []; fetches = []; fetched = 0; starts = 0 }) }
    {
        Ok(Shelf {
            table: ObjectTable::new(alloc, limit)?,
            flights: Row::new(alloc),
            fetched: 0,
            epochs: Epochs::new(alloc)?,
            noted: 0,
            aimed: 0,
        })
    }

    /// Opens a fetch for this pass, and answers its number.
    ///
    /// # Errors
    /// Want of memory. Nothing is opened then.
    pub fn open(&mut self, alloc: Global, pass: u32, fetching: Fetching) -> Result<u64, AllocError>
        requires { self.old.fetched ≤ 2 ^ 62 }
        ensures reply { IfOk result (λ fetch. fetch ≡ self.old.fetched + 1) }
        ensures after { OnOk result (self.new ≡ opened self.old pass fetching) }
        ensures err { OnErr result (self.new ≡ self.old) }
    {
        self.flights.reserve(alloc, 1)?;
        self.table.reserve_fill(alloc)?;
        self.fetched += 1;
        let begun = self.epochs.newest();
        self.flights.push(Open {
            number: self.fetched,
            pass,
            what: Launched { fetching, begun },
        });
        Ok(self.fetched)
    }

    /// Opens a fetch for this pass under whose key nothing is kept, as `open` does. What starts have hit under that key
    /// leaves, so that they are not tried on it again, and a few other objects are tried with the starts.
    ///
    /// # Errors
    /// Want of memory. Nothing is opened then, and nothing leaves.
    pub fn open_missed(
        &mut self,
        alloc: Global,
        pass: u32,
        fetching: Fetching,
    ) -> Result<u64, AllocError>
        requires few { self.old.fetched ≤ 2 ^ 62 }
        requires none { kept_of fetching.key self.old.kept ≡ None }
        ensures reply { IfOk result (λ fetch. fetch ≡ self.old.fetched + 1) }
        ensures after { OnOk result (self.new ≡ record (opened self.old pass fetching) { held = self.new.held }) }
        ensures held { IsPartOf self.new.held self.old.held }
        ensures err { OnErr result (self.new ≡ self.old) }
    {
        let fetch = self.open_without(alloc, pass, fetching)?;
        self.sweep_some(LEAST);
        Ok(fetch)
    }

    // the same, where no object is tried
    fn open_without(
        &mut self,
        alloc: Global,
        pass: u32,
        fetching: Fetching,
    ) -> Result<u64, AllocError>
        requires few { self.old.fetched ≤ 2 ^ 62 }
        requires none { kept_of fetching.key self.old.kept ≡ None }
        ensures reply { IfOk result (λ fetch. fetch ≡ self.old.fetched + 1) }
        ensures after { OnOk result (self.new ≡ record (opened self.old pass fetching) { held = self.new.held }) }
        ensures held { IsPartOf self.new.held self.old.held }
        ensures err { OnErr result (self.new ≡ self.old) }
    {
        self.flights.reserve(alloc, 1)?;
        self.table.reserve_fill(alloc)?;
        let_go(
            &mut self.table,
            &mut self.epochs,
            self.noted,
            &self.flights,
            &fetching.key,
        );
        self.fetched += 1;
        let begun = self.epochs.newest();
        self.flights.push(Open {
            number: self.fetched,
            pass,
            what: Launched { fetching, begun },
        });
        Ok(self.fetched)
    }

    /// What is kept under the key.
    pub fn find(&self, key: &Key) -> Option<&Object>
        ensures { option_map (λ o. kept_object o.now) result ≡ kept_of key.now self.now.kept }
    {
        match self.table.find(key) {
            Some(object) => {
                if is_gone(&self.epochs, self.noted, object) {
                    None
                } else {
                    Some(object)
                }
            }
            None => None,
        }
    }

    /// The lengths of all that is in memory together, in bytes.
    pub fn held(&self) -> u64
        ensures { result ≡ total self.now.held }
    {
        self.table.held()
    }

    /// Whether the fetch of this number is open, and this pass opened it.
    pub fn is_open(&self, pass: u32, fetch: u64) -> bool
        ensures { result ≡ is_some (find (is_named fetch pass) self.now.fetches) }
    {
        let named = Named {
            number: fetch,
            pass,
        };
        self.flights.find(named).is_some()
    }

    /// What is kept under the key was used: it goes to the end.
    pub fn touch(&mut self, key: &Key)
        ensures after { self.new ≡ record self.old { kept = used key.now self.old.kept; held = self.new.held } }
        ensures held { IsPartOf self.new.held self.old.held }
    {
        self.table.touch(key);
    }

    /// What is kept under the key was used: it goes to the end, and no start so far is tried on it again. Where all were
    /// tried already, it takes no memory. Where few starts are left, a few other objects are tried with the starts.
    ///
    /// # Errors
    /// Want of memory. Nothing has changed then.
    pub fn renew(&mut self, alloc: Global, key: &Key) -> Result<(), AllocError>
        requires { is_some (kept_of key.now self.old.kept) ≡ true }
        ensures after { OnOk result (self.new ≡ record self.old {
          kept = used key.now self.old.kept;
          held = self.new.held;
        }) }
        ensures held { IsPartOf self.new.held self.old.held }
        ensures err { OnErr result (self.new ≡ self.old) }
    {
        self.renew_one(alloc, key)?;
        self.sweep_some(0);
        Ok(())
    }

    // the same, where no other object is tried
    fn renew_one(&mut self, alloc: Global, key: &Key) -> Result<(), AllocError>
        requires { is_some (kept_of key.now self.old.kept) ≡ true }
        ensures after { OnOk result (self.new ≡ record self.old {
          kept = used key.now self.old.kept;
          held = self.new.held;
        }) }
        ensures held { IsPartOf self.new.held self.old.held }
        ensures err { OnErr result (self.new ≡ self.old) }
    {
        let newest = self.epochs.newest();
        if is_tried(&self.table, self.noted, newest, key) {
            self.table.touch(key);
            return Ok(());
        }
        self.table.renew(alloc, key, newest)?;
        Ok(())
    }

    /// A trigger starts: what its selection hits is no longer kept, and of the open fetches that it hits nothing will be.
    /// It takes as many steps as the selection has items, whatever is kept and open, and memory for a copy of it, whose
    /// texts share their bytes.
    ///
    /// # Errors
    /// Want of memory. Nothing has changed then.
    pub fn start(&mut self, alloc: Global, selection: &Selection) -> Result<(), AllocError>
        requires { self.old.starts ≤ 2 ^ 62 }
        ensures after { OnOk result (self.new ≡ start_after self.old selection.now) }
        ensures err { OnErr result (self.new ≡ self.old) }
    {
        let copy = content_of(alloc, selection)?;
        self.epochs.start(alloc, copy)?;
        settle(&mut self.epochs, &self.table, self.noted, &self.flights);
        Ok(())
    }

    // a few objects, so many at least, are tried with the starts since the last sweep; what they have hit leaves
    fn sweep_some(&mut self, least: u64)
        ensures after { self.new ≡ record self.old { held = self.new.held } }
        ensures held { IsPartOf self.new.held self.old.held }
    {
        if self.noted < self.epochs.newest() {
            sweep_portion(
                &mut self.table,
                &self.epochs,
                &mut self.noted,
                &mut self.aimed,
                least,
            );
            settle(&mut self.epochs, &self.table, self.noted, &self.flights);
        }
    }

    /// What starts have hit leaves at once, and not when a fetch is next kept. It takes no memory. Nothing of what is seen
    /// changes.
    pub fn sweep(&mut self)
        ensures { self.new ≡ record self.old { held = self.old.kept } }
    {
        sweep(
            &mut self.table,
            &self.epochs,
            &mut self.noted,
            &mut self.aimed,
        );
        settle(&mut self.epochs, &self.table, self.noted, &self.flights);
    }

    /// Ends the fetch of this number, if this pass opened it, and keeps what it brought where it is to be kept; what
    /// starts have hit leaves before. It takes no memory. The answer is whether something was kept; `None` where no such
    /// fetch is open.
    pub fn end(&mut self, pass: u32, fetch: u64, outcome: Outcome) -> Option<bool>
        ensures reply { result ≡ end_reply self.old outcome (find (is_named fetch pass) self.old.fetches) }
        ensures after { self.new ≡ record (end_after self.old pass fetch outcome
            (find (is_named fetch pass) self.old.fetches)) { held = self.new.held } }
        ensures held { IsPartOfOrKept self.new.held self.old.held self.new.kept }
        ensures closed { IfNone result (self.new ≡ self.old) }
    {
        let named = Named {
            number: fetch,
            pass,
        };
        match self.flights.take(named) {
            Some(flight) => {
                let kept = keep(
                    &mut self.table,
                    &self.epochs,
                    &mut self.noted,
                    &mut self.aimed,
                    flight,
                    outcome,
                );
                settle(&mut self.epochs, &self.table, self.noted, &self.flights);
                Some(kept)
            }
            None => {
                drop(outcome);
                None
            }
        }
    }
}

// takes out what starts have hit under the key, and forgets the starts that nothing has to be tried with then
fn let_go(
    table: &mut ObjectTable,
    epochs: &mut Epochs,
    noted: u64,
    flights: &Row<Open<Launched>>,
    key: &Key,
)
    requires noted { noted ≤ epochs.old.known.newest }
    requires begun { AreBegun 0 epochs.old.known.newest flights.now.items }
    requires settled { past (least_needed epochs.old.known.newest noted table.old.objects flights.now.items)
        epochs.old.known.starts ≡ epochs.old.known.starts }
    requires none { kept_of key.now (kept_in epochs.old.known.starts noted table.old.objects) ≡ None }
    ensures kept { kept_in epochs.new.known.starts noted table.new.objects
        ≡ kept_in epochs.old.known.starts noted table.old.objects }
    ensures fetches { map (flight_of epochs.new.known.starts) flights.now.items
        ≡ map (flight_of epochs.old.known.starts) flights.now.items }
    ensures held { IsPartOf (map kept_object table.new.objects) (map kept_object table.old.objects) }
    ensures up_to { (top : ℕ) → AreUpToEpoch top table.old.objects → AreUpToEpoch top table.new.objects }
    ensures tried { (aimed : ℕ) → noted ≤ aimed
        → AreTried epochs.old.known.starts noted aimed (take table.old.passed table.old.objects)
        → AreTried epochs.new.known.starts noted aimed (take table.new.passed table.new.objects) }
    ensures settled { past (least_needed epochs.new.known.newest noted table.new.objects flights.now.items)
        epochs.new.known.starts ≡ epochs.new.known.starts }
    ensures newest { epochs.new.known.newest ≡ epochs.old.known.newest }
    ensures limit { table.new.limit ≡ table.old.limit }
    ensures spare { table.new.spare ≡ table.old.spare }
{
    if epochs.newest() > noted {
        table.take(key);
        settle(epochs, table, noted, flights);
    }
}

// whether a start has hit the object, of those since its fetch was opened and since the objects were swept
fn is_gone(epochs: &Epochs, noted: u64, object: &Object) -> bool
    ensures { result ≡ is_gone epochs.now.known.starts noted object.now }
{
    epochs.is_stale(object.begun.max(noted), &object.key, object.ccid.as_ref())
}

// whether no start is left that was not tried on the key's object
fn is_tried(table: &ObjectTable, noted: u64, newest: u64, key: &Key) -> bool
    ensures { result ≡ (nat_le newest noted || was_tried newest (objects.kept_of key.now table.now.objects)) }
{
    if newest <= noted {
        return true;
    }
    match table.find(key) {
        Some(object) => newest <= object.begun,
        None => true,
    }
}

// a copy of the part that selects content
fn content_of(alloc: Global, selection: &Selection) -> Result<Selection, AllocError>
    ensures { IfOk result (λ copy. copy ≡ content_of selection.now) }
{
    Ok(Selection {
        metadata_urls: Listing::new(alloc),
        content_urls: selection.content_urls.clone()?,
        ccids: selection.ccids.clone()?,
        metadata_patterns: Listing::new(alloc),
        content_patterns: selection.content_patterns.clone()?,
    })
}

// keeps what an open fetch brought where it is to be kept, and gives its place back where it is not
fn keep(
    table: &mut ObjectTable,
    epochs: &Epochs,
    noted: &mut u64,
    aimed: &mut u64,
    flight: Open<Launched>,
    outcome: Outcome,
) -> bool
    requires spare { 0 < table.old.spare }
    requires aim { (noted.old ≤ aimed.old) × (aimed.old ≤ epochs.now.known.newest) }
    requires tried { AreTried epochs.now.known.starts noted.old aimed.old (take table.old.passed table.old.objects) }
    requires begun { flight.what.begun ≤ epochs.now.known.newest }
    requires objects { AreUpToEpoch epochs.now.known.newest table.old.objects }
    ensures reply { result ≡ is_gained table.old.limit (kept_in epochs.now.known.starts noted.old table.old.objects)
        (flight_of epochs.now.known.starts flight) outcome }
    ensures kept { kept_in epochs.now.known.starts noted.new table.new.objects ≡ brought table.old.limit
        (kept_in epochs.now.known.starts noted.old table.old.objects) (flight_of epochs.now.known.starts flight) outcome }
    ensures held { IsPartOfOrKept (map kept_object table.new.objects) (map kept_object table.old.objects)
        (kept_in epochs.now.known.starts noted.new table.new.objects) }
    ensures limit { table.new.limit ≡ table.old.limit }
    ensures spare { table.new.spare + 1 ≡ table.old.spare }
    ensures aim { (noted.new ≤ aimed.new) × (aimed.new ≤ epochs.now.known.newest) }
    ensures tried { AreTried epochs.now.known.starts noted.new aimed.new (take table.new.passed table.new.objects) }
    ensures objects { AreUpToEpoch epochs.now.known.newest table.new.objects }
{
    if is_hit(epochs, &flight) {
        table.give_back();
        return false;
    }
    match outcome {
        Outcome::Got(got) => keep_content(table, epochs, noted, aimed, flight, got),
        _ => {
            table.give_back();
            false
        }
    }
}

// whether a start since it was opened has hit what an open fetch fetches
fn is_hit(epochs: &Epochs, flight: &Open<Launched>) -> bool
    ensures { result ≡ is_hit epochs.now.known.starts flight.now.what }
{
    let Launched { fetching, begun } = &flight.what;
    epochs.is_stale(*begun, &fetching.key, fetching.ccid.as_ref())
}

// the same as `keep` of content, where no start has hit the fetch
fn keep_content(
    table: &mut ObjectTable,
    epochs: &Epochs,
    noted: &mut u64,
    aimed: &mut u64,
    flight: Open<Launched>,
    got: Got,
) -> bool
    requires spare { 0 < table.old.spare }
    requires unhit { is_hit epochs.now.known.starts flight.what ≡ false }
    requires aim { (noted.old ≤ aimed.old) × (aimed.old ≤ epochs.now.known.newest) }
    requires tried { AreTried epochs.now.known.starts noted.old aimed.old (take table.old.passed table.old.objects) }
    requires begun { flight.what.begun ≤ epochs.now.known.newest }
    requires objects { AreUpToEpoch epochs.now.known.newest table.old.objects }
    ensures reply { result ≡ is_gained table.old.limit (kept_in epochs.now.known.starts noted.old table.old.objects)
        (flight_of epochs.now.known.starts flight) (Outcome.Got got) }
    ensures kept { kept_in epochs.now.known.starts noted.new table.new.objects ≡ brought table.old.limit
        (kept_in epochs.now.known.starts noted.old table.old.objects) (flight_of epochs.now.known.starts flight)
        (Outcome.Got got) }
    ensures held { IsPartOfOrKept (map kept_object table.new.objects) (map kept_object table.old.objects)
        (kept_in epochs.now.known.starts noted.new table.new.objects) }
    ensures limit { table.new.limit ≡ table.old.limit }
    ensures spare { table.new.spare + 1 ≡ table.old.spare }
    ensures aim { (noted.new ≤ aimed.new) × (aimed.new ≤ epochs.now.known.newest) }
    ensures tried { AreTried epochs.now.known.starts noted.new aimed.new (take table.new.passed table.new.objects) }
    ensures objects { AreUpToEpoch epochs.now.known.newest table.new.objects }
{
    if got.status() != 200 {
        table.give_back();
        return false;
    }
    sweep(table, epochs, noted, aimed);
    let (kind, body) = got.into_parts();
    let Launched { fetching, begun } = flight.what;
    let Fetching { key, ccid } = fetching;
    let object = Object {
        key,
        fetch: flight.number,
        ccid,
        kind,
        body,
        begun,
    };
    table.fill_reserved(object)
}

// takes out the objects that starts have hit, and notes that the others need not be tried with these starts again
fn sweep(table: &mut ObjectTable, epochs: &Epochs, noted: &mut u64, aimed: &mut u64)
    requires aim { (noted.old ≤ aimed.old) × (aimed.old ≤ epochs.now.known.newest) }
    requires tried { AreTried epochs.now.known.starts noted.old aimed.old (take table.old.passed table.old.objects) }
    requires objects { AreUpToEpoch epochs.now.known.newest table.old.objects }
    ensures kept { map kept_object table.new.objects ≡ kept_in epochs.now.known.starts noted.old table.old.objects }
    ensures fresh { (swept : List Object) → AreUpToEpoch epochs.now.known.newest swept
        → kept_in epochs.now.known.starts noted.new swept ≡ map kept_object swept }
    ensures objects { AreUpToEpoch epochs.now.known.newest table.new.objects }
    ensures noted { noted.new ≡ epochs.now.known.newest }
    ensures aimed { aimed.new ≡ epochs.now.known.newest }
    ensures limit { table.new.limit ≡ table.old.limit }
    ensures spare { table.new.spare ≡ table.old.spare }
{
    let newest = epochs.newest();
    if *noted == newest {
        return;
    }
    walk_if(table, epochs, *noted, aimed, *aimed < newest);
    try_some(table, epochs, *noted, table.len() as u64);
    *noted = newest;
}

// tries a few objects with the starts, and notes where all were tried with those up to one
fn sweep_portion(
    table: &mut ObjectTable,
    epochs: &Epochs,
    noted: &mut u64,
    aimed: &mut u64,
    least: u64,
)
    requires behind { noted.old < epochs.now.known.newest }
    requires aim { (noted.old ≤ aimed.old) × (aimed.old ≤ epochs.now.known.newest) }
    requires tried { AreTried epochs.now.known.starts noted.old aimed.old (take table.old.passed table.old.objects) }
    ensures kept { kept_in epochs.now.known.starts noted.new table.new.objects
        ≡ kept_in epochs.now.known.starts noted.old table.old.objects }
    ensures held { IsPartOf (map kept_object table.new.objects) (map kept_object table.old.objects) }
    ensures aim { (noted.new ≤ aimed.new) × (aimed.new ≤ epochs.now.known.newest) }
    ensures tried { AreTried epochs.now.known.starts noted.new aimed.new (take table.new.passed table.new.objects) }
    ensures up_to { (top : ℕ) → AreUpToEpoch top table.old.objects → AreUpToEpoch top table.new.objects }
    ensures limit { table.new.limit ≡ table.old.limit }
    ensures spare { table.new.spare ≡ table.old.spare }
{
    walk_if(table, epochs, *noted, aimed, *aimed == *noted);
    let portion = (TRIALS / (epochs.newest() - *noted)).max(least);
    try_some(table, epochs, *noted, portion);
    note_if_tried(table, epochs, noted, *aimed);
}

// notes that all objects were tried with the starts up to the one that a walk aims at, where it has come to its end
fn note_if_tried(table: &ObjectTable, epochs: &Epochs, noted: &mut u64, aimed: u64)
    requires aim { noted.old ≤ aimed }
    requires tried { AreTried epochs.now.known.starts noted.old aimed (take table.now.passed table.now.objects) }
    ensures kept { kept_in epochs.now.known.starts noted.new table.now.objects
        ≡ kept_in epochs.now.known.starts noted.old table.now.objects }
    ensures aim { noted.new ≤ aimed }
    ensures tried { AreTried epochs.now.known.starts noted.new aimed (take table.now.passed table.now.objects) }
{
    match table.next() {
        Some(_) => {}
        None => *noted = aimed,
    }
}

// a walk begins where it is due, which is to try each object with all starts so far
fn walk_if(table: &mut ObjectTable, epochs: &Epochs, noted: u64, aimed: &mut u64, is_due: bool)
    requires aim { (noted ≤ aimed.old) × (aimed.old ≤ epochs.now.known.newest) }
    requires tried { AreTried epochs.now.known.starts noted aimed.old (take table.old.passed table.old.objects) }
    ensures table { table.new ≡ record table.old { passed = table.new.passed } }
    ensures aim { (noted ≤ aimed.new) × (aimed.new ≤ epochs.now.known.newest) }
    ensures due { is_due ≡ true → aimed.new ≡ epochs.now.known.newest }
    ensures under_way { is_due ≡ false → aimed.new ≡ aimed.old }
    ensures tried { AreTried epochs.now.known.starts noted aimed.new (take table.new.passed table.new.objects) }
{
    if is_due {
        *aimed = epochs.newest();
        table.walk_anew();
    }
}

// a walk comes to so many objects, or to its end, and takes out those that starts have hit
fn try_some(table: &mut ObjectTable, epochs: &Epochs, noted: u64, n: u64)
    ensures kept { kept_in epochs.now.known.starts noted table.new.objects
        ≡ kept_in epochs.now.known.starts noted table.old.objects }
    ensures held { IsPartOf (map kept_object table.new.objects) (map kept_object table.old.objects) }
    ensures tried { (aimed : ℕ) → noted ≤ aimed
        → AreTried epochs.now.known.starts noted aimed (take table.old.passed table.old.objects)
        → AreTried epochs.now.known.starts noted aimed (take table.new.passed table.new.objects) }
    ensures left { length table.new.objects - table.new.passed ≤ length table.old.objects - table.old.passed - n }
    ensures up_to { (top : ℕ) → AreUpToEpoch top table.old.objects → AreUpToEpoch top table.new.objects }
    ensures limit { table.new.limit ≡ table.old.limit }
    ensures spare { table.new.spare ≡ table.old.spare }
{
    'objects: for _step in 0..n {
        try_next(table, epochs, noted);
    }
}

// a walk comes to the next object, and takes it out where a start has hit it
fn try_next(table: &mut ObjectTable, epochs: &Epochs, noted: u64)
    ensures kept { kept_in epochs.now.known.starts noted table.new.objects
        ≡ kept_in epochs.now.known.starts noted table.old.objects }
    ensures held { IsPartOf (map kept_object table.new.objects) (map kept_object table.old.objects) }
    ensures tried { (aimed : ℕ) → noted ≤ aimed
        → AreTried epochs.now.known.starts noted aimed (take table.old.passed table.old.objects)
        → AreTried epochs.now.known.starts noted aimed (take table.new.passed table.new.objects) }
    ensures left { length table.new.objects - table.new.passed ≤ length table.old.objects - table.old.passed - 1 }
    ensures up_to { (top : ℕ) → AreUpToEpoch top table.old.objects → AreUpToEpoch top table.new.objects }
    ensures limit { table.new.limit ≡ table.old.limit }
    ensures spare { table.new.spare ≡ table.old.spare }
{
    match table.next() {
        Some(object) => {
            if is_gone(epochs, noted, object) {
                drop(table.take_next());
            } else {
                table.pass();
            }
        }
        None => {}
    }
}

// forgets the starts that neither an open fetch nor an object of the table has to be tried with
fn settle(epochs: &mut Epochs, table: &ObjectTable, noted: u64, flights: &Row<Open<Launched>>)
    requires noted { noted ≤ epochs.old.known.newest }
    requires begun { AreBegun 0 epochs.old.known.newest flights.now.items }
    ensures starts { epochs.new.known.starts
        ≡ past (least_needed epochs.old.known.newest noted table.now.objects flights.now.items) epochs.old.known.starts }
    ensures newest { epochs.new.known.newest ≡ epochs.old.known.newest }
    ensures kept { kept_in epochs.new.known.starts noted table.now.objects
        ≡ kept_in epochs.old.known.starts noted table.now.objects }
    ensures tried { (aimed : ℕ) → noted ≤ aimed
        → AreTried epochs.old.known.starts noted aimed (take table.now.passed table.now.objects)
        → AreTried epochs.new.known.starts noted aimed (take table.now.passed table.now.objects) }
    ensures fetches { map (flight_of epochs.new.known.starts) flights.now.items
        ≡ map (flight_of epochs.old.known.starts) flights.now.items }
{
    let oldest = first_begun(flights, epochs.newest());
    if table.len() == 0 {
        epochs.settle(oldest);
    } else {
        epochs.settle(oldest.min(noted));
    }
}

// the last start when the first open fetch was opened, or this one where none is open
fn first_begun(flights: &Row<Open<Launched>>, newest: u64) -> u64
    requires { AreBegun 0 newest flights.now.items }
    ensures { result ≡ least_begun newest flights.now.items }
{
    match flights.first() {
        Some(first) => first.what.begun,
        None => newest,
    }
}
