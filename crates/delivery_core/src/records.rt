//! The deliveries that are open, and the rows of those that were finished.

ghost use Rattle.std.specs.Prelude.{◌≡◌, true, ◌+◌, ◌-◌, ◌^◌, ◌<◌, ◌≤◌, [], OnOk, OnErr, is_some, max, length, IfOk};
ghost use Rattle.std.specs.List.{find};
ghost use Rattle.shelf.specs.Open.{is_named};
ghost use Rattle.delivery_core.specs.Records.{begun, finish_reply, finish_after, finished_row};

use cdni_base::Moment;
use cdni_log::RowList;
use history::Admission;
use listing::ReservedList;
use rows::Row;
use shelf::{Named, Open};
use std::alloc::{AllocError, Global};
use std::marker::Model;
use std::mem;

/// How a delivery ended.
#[derive(Clone, Copy, Debug, PartialEq, Eq)]
pub(crate) struct Ending {
    /// The status code of the answer.
    pub status: u16,
    /// How many bytes were sent, the head of the answer included.
    pub total: u64,
    /// How many bytes of the body were sent.
    pub entity: u64,
    /// When, in milliseconds since 1970 UTC.
    pub moment: Moment,
}

/// The open deliveries, in order, and the rows of finished ones that no log file has, in order. It is seen as these, how
/// many deliveries were begun, how many rows there ever were, and how many deliveries can begin without memory. Each open
/// delivery has a place for its row, so that its end takes no memory.
#[derive(Drop)]
pub(crate) struct Records {
    deliveries: Row<Open<Admission>>,
    delivered: u64,
    unfiled: RowList,
    logged: u64,
}

impl Model for Records {
    ghost use Rattle.std.specs.Prelude.{◌+◌, ◌≤◌, length};
    ghost use Rattle.delivery_core.specs.Records.{RecordsView};
    ghost use Rattle.shelf.specs.Open.{AreUpTo};

    ghost Value = { RecordsView };

    ghost view = { λ r. record {
      deliveries = r.deliveries.items;
      delivered = r.delivered;
      unfiled = r.unfiled.items;
      logged = r.logged;
      spare = r.deliveries.spare;
    } };

    ghost invariant = { λ r. (length r.deliveries.items + r.deliveries.spare ≤ r.unfiled.spare)
        × AreUpTo r.delivered r.deliveries.items
        × (r.logged + length r.deliveries.items ≤ r.delivered)
        × (length r.unfiled.items ≤ r.logged) };
}

impl Records {
    /// No delivery and no row.
    pub fn new(alloc: Global) -> Records
        ensures { result ≡ record { deliveries = []; delivered = 0; unfiled = []; logged = 0; spare = 0 } }
    {
        Records {
            deliveries: Row::new(alloc),
            delivered: 0,
            unfiled: ReservedList::new(alloc),
            logged: 0,
        }
    }

    /// How many deliveries are open and rows unfiled, together.
    pub fn pending(&self) -> u64
        ensures { result ≡ length self.now.deliveries + length self.now.unfiled }
    {
        let _delivered = self.delivered;
        self.deliveries.len() as u64 + self.unfiled.len() as u64
    }

    /// The rows that no log file has, in order.
    pub fn unfiled(&self) -> &RowList
        ensures { result.now.items ≡ self.now.unfiled }
    {
        &self.unfiled
    }

    /// Takes the rows that no log file has.
    ///
    /// # Errors
    /// Want of memory. Nothing has changed then.
    pub fn take_rows(&mut self, alloc: Global) -> Result<RowList, AllocError>
        ensures rows { IfOk result (λ rows. rows.items ≡ self.old.unfiled) }
        ensures after { OnOk result (self.new ≡ record self.old { unfiled = [] }) }
        ensures refused { OnErr result (self.new ≡ self.old) }
    {
        let Some(places) = self.deliveries.len().checked_add(self.deliveries.spare()) else {
            return Err(AllocError);
        };
        let mut next = ReservedList::new(alloc);
        reserve_rows(alloc, &mut next, places)?;
        Ok(mem::replace(&mut self.unfiled, next))
    }

    /// Whether the delivery of this number is open, and this pass began it.
    pub fn is_open(&self, pass: u32, delivery: u64) -> bool
        ensures { result ≡ is_some (find (is_named delivery pass) self.now.deliveries) }
    {
        // most often it is the oldest that is asked for
        if is_first(&self.deliveries, pass, delivery) {
            return true;
        }
        let named = Named {
            number: delivery,
            pass,
        };
        self.deliveries.find(named).is_some()
    }

    /// How many rows log files have.
    pub fn filed(&self) -> u64
        ensures { result ≡ self.now.logged - length self.now.unfiled }
    {
        self.logged.saturating_sub(self.unfiled.len() as u64)
    }

    /// Reserves places, so that a delivery can begin without memory.
    ///
    /// # Errors
    /// Want of memory. Nothing has changed then.
    pub fn reserve(&mut self, alloc: Global) -> Result<(), AllocError>
        ensures places { OnOk result (self.new ≡ record self.old { spare = max self.old.spare 1 }) }
        ensures refused { OnErr result (self.new ≡ self.old) }
    {
        let spare = self.deliveries.spare().max(1);
        let Some(rows) = self.deliveries.len().checked_add(spare) else {
            return Err(AllocError);
        };
        reserve_rows(alloc, &mut self.unfiled, rows)?;
        self.deliveries.reserve(alloc, 1)
    }

    /// Begins a delivery of this pass at a reserved place, and answers its number.
    pub fn begin(&mut self, pass: u32, what: Admission) -> u64
        requires spare { 0 < self.old.spare }
        requires few { self.old.delivered ≤ 2 ^ 62 }
        ensures number { result ≡ self.old.delivered + 1 }
        ensures after { self.new ≡ begun self.old pass what }
    {
        self.delivered += 1;
        self.deliveries.push(Open {
            number: self.delivered,
            pass,
            what,
        });
        self.delivered
    }

    /// Ends the delivery of this number, if this pass began it, and keeps its row. It takes no memory. The answer is the
    /// number of the row; `None` where no such delivery is open.
    pub fn finish(&mut self, pass: u32, delivery: u64, ending: Ending) -> Option<u64>
        ensures reply { result ≡ finish_reply self.old (find (is_named delivery pass) self.old.deliveries) }
        ensures after { self.new ≡ finish_after self.old pass delivery ending
            (find (is_named delivery pass) self.old.deliveries) }
    {
        let named = Named {
            number: delivery,
            pass,
        };
        match self.deliveries.take(named) {
            Some(open) => {
                self.unfiled.push_reserved(finished_row(open.what, ending));
                self.logged += 1;
                Some(self.logged)
            }
            None => None,
        }
    }
}

// whether the first open delivery has this number, and this pass began it
fn is_first(deliveries: &Row<Open<Admission>>, pass: u32, delivery: u64) -> bool
    ensures { result ≡ true → is_some (find (is_named delivery pass) deliveries.now.items) ≡ true }
{
    match deliveries.first() {
        Some(first) => first.number == delivery && first.pass == pass,
        None => false,
    }
}

// reserves places for so many rows, and for twice as many where there is memory for them, so that few calls take memory
fn reserve_rows(alloc: Global, unfiled: &mut RowList, rows: usize) -> Result<(), AllocError>
    ensures places { OnOk result (rows ≤ unfiled.new.spare) }
    ensures kept { unfiled.new.items ≡ unfiled.old.items }
    ensures no_fewer { unfiled.old.spare ≤ unfiled.new.spare }
    ensures refused { OnErr result (unfiled.new ≡ unfiled.old) }
{
    if rows <= unfiled.spare() {
        return Ok(());
    }
    match unfiled.reserve(alloc, twice(rows)) {
        Ok(()) => Ok(()),
        Err(_) => unfiled.reserve(alloc, rows),
    }
}

// twice the number, where that is a number of places
fn twice(rows: usize) -> usize
    ensures { rows ≤ result }
{
    rows.saturating_mul(2)
}

// the row of a delivery that ended so
fn finished_row(what: Admission, ending: Ending) -> cdni_log::Row
    ensures { result ≡ finished_row what ending }
{
    cdni_log::Row {
        admitted: what.moment,
        finished: ending.moment,
        asn: what.asn,
        method: what.method,
        uri: what.uri,
        status: ending.status,
        total: ending.total,
        entity: ending.entity,
        ccid: what.ccid,
        cached: what.cached,
        extra: what.extra,
    }
}
