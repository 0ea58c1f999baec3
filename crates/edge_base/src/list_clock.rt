//! A clock in memory.

ghost use Rattle.std.specs.Prelude.{◌≡◌, IfOk};
ghost use Rattle.edge_base.specs.ListClock.{moment_at};

use crate::clock::Clock;
use listing::Moment;
use std::alloc::{AllocError, Global};
use std::marker::Model;

/// The last value of the number of a clock's calls. A clock that stands there tells no longer what it gave.
pub const MOST_CALLS: u64 = u64::MAX;

/// A clock that gives moments of a list in order and then the last one again and again; 0 where the list is empty.
/// It tells what it gave, up to its call number 2^64 - 2.
#[derive(Drop)]
pub struct ListClock {
    moments: Vec<u64>,
    calls: u64,
}

impl Model for ListClock {
    ghost use Rattle.edge_base.specs.ListClock.{Ticks};

    ghost Value = { Ticks };

    ghost view = { λ c. record { moments = c.moments.items; calls = c.calls } };
}

impl ListClock {
    /// A clock of `moments`, in milliseconds, that gave none yet.
    ///
    /// # Errors
    /// Want of memory.
    pub fn new(alloc: Global, moments: &[Moment]) -> Result<ListClock, AllocError>
        ensures { IfOk result (λ c. c ≡ record { moments = moments.now; calls = 0 }) }
    {
        Ok(ListClock {
            moments: Vec::from_slice(alloc, moments)?,
            calls: 0,
        })
    }
}

impl Clock for ListClock {
    ghost use Rattle.std.specs.Prelude.{◌≡◌, [], ◌∷◌};
    ghost use Rattle.edge_base.specs.Clock.{Grows};
    ghost use Rattle.edge_base.specs.ListClock.{moment_at, moments_given, after_moment};

    ghost given = { λ c. moments_given c };

    /// The next moment of the list, or its last one where none is left.
    fn now(&mut self) -> Moment
        ensures moment { result ≡ moment_at self.old.moments self.old.calls }
        ensures after { self.new ≡ after_moment self.old }
        ensures told { Grows (moments_given self.old) (moments_given self.new) (result ∷ []) }
    {
        let calls = self.calls;
        self.calls = calls.saturating_add(1);
        moment_in(&self.moments, calls)
    }
}

// the moment of a call before which there were `calls`
fn moment_in(moments: &[Moment], calls: u64) -> Moment
    ensures { result ≡ moment_at moments.now calls }
{
    if moments.is_empty() {
        return 0;
    }
    let last = moments.len() - 1;
    if calls < last as u64 {
        moments[calls as usize]
    } else {
        moments[last]
    }
}
