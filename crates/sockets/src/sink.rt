//! The sink of a connection.

ghost use Rattle.std.specs.Prelude.{◌≡◌, ◌<◌, length, IfSome, IfNone};
ghost use Rattle.edge_base.specs.Sink.{IsPutCount, HasWriteCause};
ghost use Rattle.sockets.specs.Ready.{IsMoved};

use crate::link::Link;
use crate::pace::Pace;
use crate::ready::{Moved, wait_for_room, write_now, write_within};
use edge_base::{Put, Sink};
use std::alloc::Global;
use std::sync::Arc;
use std::time::Clock;

/// Writes to a TCP connection. It does not tell what it holds.
///
/// A write takes what the system has room for, and waits where that is nothing. The waits of one request's answer may
/// take ten seconds in all, and one second more for each 65,536 bytes that were taken; past that the client is too
/// slow, and the write fails. A failed write counts a fault.
#[derive(Drop)]
pub struct SocketSink<C: Clock + Drop> {
    link: Arc<Link, Global>,
    clock: C,
    pace: Pace,
    message: u64,
    faults: u64,
}

impl<C: Clock + Drop> SocketSink<C> {
    /// A sink that took nothing yet.
    pub fn new(link: Arc<Link, Global>, clock: C, pace: Pace) -> SocketSink<C>
        ensures faults { result.faults ≡ 0 }
        ensures link { result.link ≡ link }
    {
        SocketSink {
            link,
            clock,
            pace,
            message: 0,
            faults: 0,
        }
    }

    /// How many of its calls failed, up to 2^64 - 1.
    pub fn faults(&self) -> u64
        ensures { result ≡ self.now.faults }
    {
        self.faults
    }

    /// Its share of the connection.
    pub fn into_link(self) -> Arc<Link, Global> {
        self.link
    }

    /// Writes what there is room for, without waiting; none where there is no room.
    pub fn write_soon(&mut self, piece: &[u8]) -> Option<Put>
        requires { 0 < length piece.now }
        ensures count { IfSome result (λ put. IsPutCount (length piece.now) put) }
        ensures cause { IfSome result (λ put. HasWriteCause self.old.faults self.new.faults put) }
        ensures later { IfNone result (self.new.faults ≡ self.old.faults) }
    {
        self.begin();
        match write_now(&self.link.stream, piece) {
            Moved::Some(count) => {
                self.pace.note_move(count);
                Some(Put::Some(count))
            }
            Moved::Later => None,
            _ => Some(self.fail()),
        }
    }

    /// Waits for room for so many milliseconds at most, and writes what there is room for then; none where there is none. It
    /// fails where the client was too slow.
    pub fn write_within_step(&mut self, piece: &[u8], most: u64) -> Option<Put>
        requires { 0 < length piece.now }
        ensures count { IfSome result (λ put. IsPutCount (length piece.now) put) }
        ensures cause { IfSome result (λ put. HasWriteCause self.old.faults self.new.faults put) }
        ensures later { IfNone result (self.new.faults ≡ self.old.faults) }
    {
        self.begin();
        if wait_for_room(&self.clock, &self.link.stream, most, &mut self.pace) {
            self.write_soon(piece)
        } else {
            Some(self.fail())
        }
    }

    /// Gives the client up: a failure that is counted.
    pub fn give_up(&mut self) -> Put
        ensures answer { result ≡ Put.Failed }
        ensures cause { HasWriteCause self.old.faults self.new.faults result }
    {
        self.fail()
    }

    // counts a fault
    fn fail(&mut self) -> Put
        ensures answer { result ≡ Put.Failed }
        ensures cause { HasWriteCause self.old.faults self.new.faults result }
    {
        self.faults = self.faults.saturating_add(1);
        Put::Failed
    }

    // begins with a pace anew where the source has begun with another message
    fn begin(&mut self)
        ensures { self.new.faults ≡ self.old.faults }
    {
        let message = self.link.message();
        if message != self.message {
            self.message = message;
            self.pace.begin();
        }
    }

    // writes, and waits where there is no room
    fn put(&mut self, piece: &[u8]) -> Moved
        requires { 0 < length piece.now }
        ensures moved { IsMoved (length piece.now) result }
        ensures faults { self.new.faults ≡ self.old.faults }
    {
        self.begin();
        write_within(&self.clock, &self.link.stream, piece, &mut self.pace)
    }
}

impl<C: Clock + Drop> Sink for SocketSink<C> {
    ghost use Rattle.std.specs.Prelude.{◌<◌, length, None};
    ghost use Rattle.edge_base.specs.Sink.{IsPutCount, Writes, HasWriteCause};

    ghost held = { λ _. None };

    ghost faults = { λ s. s.faults };

    fn write(&mut self, piece: &[u8]) -> Put {
        match self.put(piece) {
            Moved::Some(count) => Put::Some(count),
            _ => self.fail(),
        }
    }
}
