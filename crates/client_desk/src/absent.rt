//! Workers that wait elsewhere than in the epoll, and which of them waits no longer where nobody else is left.

ghost use Rattle.std.specs.Prelude.{◌≡◌, ◌≢◌, ◌⊎◌, ◌≤◌, ◌-◌, None, Some, nat_eq, nat_le, true, false, IfNone, IfSome};
ghost use Rattle.indexmap.specs.IndexMap.{IsEmpty, IsUnchanged, Updates};
ghost use Rattle.client_desk.specs.declared.absent.TheConstants.{STUCK};
ghost use Rattle.client_desk.specs.Absent.{is_first, is_longest};

use indexmap::IndexMap;
use std::alloc::Global;

/// How long a worker may wait elsewhere where no other one is free and somebody asks, in milliseconds.
pub const LAST_WAIT: u64 = 1_000;

/// How long a worker may wait for an origin then, in milliseconds.
pub const LAST_WAIT_FOR_ORIGIN: u64 = 3_000;

/// For how long nobody takes what is ready where no worker is left, in milliseconds.
const STUCK: u64 = 20;

/// The workers that wait elsewhere, each under a number: the millisecond since which it waits.
#[derive(Drop)]
pub struct Absent {
    list: IndexMap<u64, u64>,
    next: u64,
    // how many tasks had been given when it was last looked
    tasks: u64,
    // the millisecond since which nobody took one though one was ready
    stuck: u64,
}

impl Absent {
    /// None.
    pub fn new(alloc: Global) -> Absent
        ensures { IsEmpty result.list }
    {
        Absent {
            list: IndexMap::new(alloc),
            next: 1,
            tasks: 0,
            stuck: 0,
        }
    }

    /// A worker waits elsewhere since this moment: under which number; none where there is no memory for that.
    pub fn begin(&mut self, since: u64) -> Option<u64>
        ensures listed { IfSome result (λ number. Updates nat_eq self.old.list self.new.list number (Some since)) }
        ensures kept { IfNone result (IsUnchanged self.old.list self.new.list) }
    {
        let number = self.next;
        match self.list.insert(number, since) {
            Ok(_) => {}
            Err(_) => return None,
        }
        self.next = number.wrapping_add(1);
        Some(number)
    }

    /// The worker with this number waits no more.
    pub fn end(&mut self, number: u64)
        ensures { Updates nat_eq self.old.list self.new.list number None }
    {
        self.list.swap_remove(&number);
    }

    /// Whether no worker waits longer than since this moment, and that is as long as one may.
    pub fn is_longest(&self, since: u64, now: u64) -> bool
        ensures { result ≡ is_longest self.now since now }
    {
        now.saturating_sub(since) >= LAST_WAIT && self.is_first(since)
    }

    // whether no worker waits longer than since this moment
    fn is_first(&self, since: u64) -> bool
        ensures { result ≡ is_first self.now since }
    {
        self.list.values().all(
            |other: &u64| -> bool
                ensures { result ≡ nat_le since other.now }
            { since <= *other },
        )
    }

    /// Looks at how many tasks were given: whether none was since it was looked at first, for as long as workers take that
    /// are free. Where nothing is ready, it begins anew.
    pub fn is_stuck(&mut self, tasks: u64, now: u64, is_short: bool) -> bool
        ensures stuck { result ≡ true → (is_short ≡ true) × (self.old.tasks ≡ tasks) × (STUCK ≤ now - self.old.stuck) }
        ensures still { result ≡ true → self.new ≡ self.old }
        ensures anew { (is_short ≡ false) ⊎ (self.old.tasks ≢ tasks) → (self.new.tasks ≡ tasks) × (self.new.stuck ≡ now) }
        ensures list { self.new.list ≡ self.old.list }
    {
        if !is_short || tasks != self.tasks {
            self.tasks = tasks;
            self.stuck = now;
            return false;
        }
        now.saturating_sub(self.stuck) >= STUCK
    }
}
