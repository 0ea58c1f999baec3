//! Doors.

ghost use Rattle.std.specs.Prelude.{◌≡◌, ◌≤◌, ℕ};
ghost use Rattle.std.specs.declared.option.Option.{Option};
ghost use Rattle.edge_base.specs.Causes.{Rose};
ghost use Rattle.doors.specs.Door.{Accepts, Book, HaveNoFaults, IsFailed, Shuts, given_by, shut_of};
ghost use Rattle.doors.specs.Served.{HasServedAll, WasServed};

use edge_base::{Sink, Source};
use location_acl::Ip;
use std::alloc::Global;
use std::sync::Wait;
use std::thread::Threads;

/// What a door answers.
pub enum Accepted<S, K> {
    /// A connection: the address of its client, and its two ends.
    One { ip: Ip, source: S, sink: K },
    /// No connection is left.
    Closed,
    /// A fault, which the door has counted.
    Failed,
    /// Want of memory.
    Memory,
}

/// Gives connections one after the other, and takes each back.
///
/// What it has left, what it gave and what was closed may be told, as of a door in memory, or not, as of one over sockets.
/// The count of faults never falls.
///
/// Whoever calls it owes at each call, in a run that does not end too: no connection is asked for before each one that was
/// given was served by a session and closed, and none is closed that was not served. What is asked so is asked of code that
/// serves any door, since such code reaches a door by these calls alone.
pub trait Door: Drop {
    type S: Source + Send;

    type K: Sink + Send;

    ghost book: { Self → Option Book };

    ghost faults: { Self → ℕ };

    /// The next connection, once all that were given are served and closed, with ends that have counted no fault. Where the
    /// door tells, `Closed` comes exactly where none is left. It may wait for a client.
    fn accept<R: Threads + Wait + Sync>(
        &mut self,
        rt: &R,
        alloc: Global,
    ) -> Accepted<Self::S, Self::K>
        requires { HasServedAll (book self.old) }
        ensures book { Accepts (book self.old) (book self.new) (given_by Self.S.left Self.K.held result) }
        ensures fresh { HaveNoFaults Self.S.faults Self.K.faults result }
        ensures later { faults self.old ≤ faults self.new }
        ensures cause { IsFailed result → Rose (faults self.old) (faults self.new) };

    /// Closes the connection that was given last, once it was served, with both its ends. It never fails.
    fn close(&mut self, source: Self::S, sink: Self::K)
        requires { WasServed (book self.old)
            (shut_of Self.S.left Self.S.faults Self.K.held Self.K.faults source sink) }
        ensures book { Shuts (book self.old) (book self.new)
            (shut_of Self.S.left Self.S.faults Self.K.held Self.K.faults source sink) }
        ensures later { faults self.old ≤ faults self.new };
}
