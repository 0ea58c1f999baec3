//! A door in memory.

ghost use Rattle.std.specs.Prelude.{◌≡◌, ◌++◌, [], ◌∷◌, ◌<◌, All, IfNone, IfOk, IfSome, map, reverse, true};
ghost use Rattle.std.specs.Vec.{vec_capacity, vec_len};
ghost use Rattle.doors.specs.Door.{Gave};
ghost use Rattle.doors.specs.MemoryDoor.{AcceptsNext, ClosesEnds, Hall, IsUnhurt, given_at, passed_at};

use crate::door::{Accepted, Door};
use edge_base::{MemorySink, MemorySource};
use listing::Listing;
use location_acl::Ip;
use std::alloc::{AllocError, Global};
use std::marker::Model;
use std::snapshot::Snapshot;
use std::sync::Wait;
use std::thread::Threads;

/// A connection in memory: the address of its client, and its ends.
#[derive(Drop)]
pub struct Connection {
    pub ip: Ip,
    pub source: MemorySource,
    pub sink: MemorySink,
}

/// Connections in the order in which a door gives them.
pub type ConnectionList = Listing<Connection>;

/// The ends of a connection that was closed.
#[derive(Drop)]
pub struct Ends {
    pub source: MemorySource,
    pub sink: MemorySink,
}

/// What passed at a door in memory.
#[derive(Drop)]
pub enum Passage {
    /// A connection was given, remembered as it was then.
    Gave(Snapshot<Connection>),
    /// A connection was closed, with these ends.
    Took(Ends),
}

/// A door that gives given connections in order, and fails at given calls. It tells what it has left and what passed,
/// unless it finds no memory to remember ends that are closed: from then on it tells no more. For each connection that it
/// gives it has room to remember how it is closed.
#[derive(Drop)]
pub struct MemoryDoor {
    // the next connection last
    left: Vec<Connection>,
    fails: Vec<u64>,
    calls: u64,
    passed: Vec<Passage>,
    telling: bool,
    faults: u64,
}

impl Model for MemoryDoor {
    ghost use Rattle.std.specs.Prelude.{All, map, reverse, ◌-◌};
    ghost use Rattle.std.specs.Vec.{vec_capacity, vec_len};
    ghost use Rattle.doors.specs.MemoryDoor.{Hall, IsUnhurt, passed_at};

    ghost Value = { Hall };

    ghost view = { λ d. record {
      left = reverse d.left.items;
      fails = d.fails.items;
      calls = d.calls;
      passed = map passed_at d.passed.items;
      room = vec_capacity d.passed - vec_len d.passed;
      telling = d.telling;
      faults = d.faults;
    } };

    ghost invariant = { λ d. All IsUnhurt (reverse d.left.items) };
}

impl MemoryDoor {
    /// A door that has these connections left. Its k-th call of `accept`, counted from 1, fails where `fails` has k and a
    /// connection is left.
    ///
    /// # Errors
    /// Want of memory.
    pub fn new(
        alloc: Global,
        given: ConnectionList,
        fails: &[u64],
    ) -> Result<MemoryDoor, AllocError>
        requires unhurt { All IsUnhurt given }
        ensures { IfOk result (λ d. d ≡ record {
          left = given;
          fails = fails.now;
          calls = 0;
          passed = [];
          room = 0;
          telling = true;
          faults = 0;
        }) }
    {
        let fails = Vec::from_slice(alloc, fails)?;
        let left = turned(alloc, given)?;
        Ok(MemoryDoor {
            left,
            fails,
            calls: 0,
            passed: Vec::new(alloc),
            telling: true,
            faults: 0,
        })
    }

    /// What passed, in order, as far as it is remembered.
    pub fn passed(&self) -> &[Passage]
        ensures { map passed_at result.now ≡ self.now.passed }
    {
        &self.passed
    }

    /// How many of its calls failed, up to 2^64 - 1.
    pub fn faults(&self) -> u64
        ensures { result ≡ self.now.faults }
    {
        self.faults
    }
}

// the items, the first last
pub(crate) fn turned<T: Drop>(alloc: Global, items: Listing<T>) -> Result<Vec<T>, AllocError>
    ensures { IfOk result (λ turned. reverse turned.items ≡ items) }
{
    let mut left = items;
    let mut turned = Vec::with_capacity(alloc, left.len())?;
    'items: while let Some(item) = left.pop() {
        turned.push(item)?;
    }
    Ok(turned)
}

// takes the last connection and remembers it, with room for one thing more; none for want of memory
fn take_last(left: &mut Vec<Connection>, passed: &mut Vec<Passage>) -> Option<Connection>
    requires { 0 < vec_len left.old }
    ensures taken { IfSome result (λ c. left.old.items ≡ left.new.items ++ c ∷ []) }
    ensures remembered { IfSome result (λ c. map passed_at passed.new.items
        ≡ map passed_at passed.old.items ++ Gave (given_at c) ∷ []) }
    ensures room { IfSome result (λ _. vec_len passed.new < vec_capacity passed.new) }
    ensures left { IfNone result (left.new.items ≡ left.old.items) }
    ensures passed { IfNone result (passed.new.items ≡ passed.old.items) }
{
    if passed.reserve(2).is_err() {
        return None;
    }
    let connection = left.pop()?;
    match passed.push(Passage::Gave(Snapshot::of(&connection))) {
        Ok(()) => Some(connection),
        Err(_) => unreachable!(),
    }
}

impl Door for MemoryDoor {
    ghost use Rattle.std.specs.Prelude.{◌≡◌, ◌≤◌, Some};
    ghost use Rattle.edge_base.specs.Causes.{Rose};
    ghost use Rattle.doors.specs.Door.{Accepts, HaveNoFaults, IsFailed, Shuts, given_by};
    ghost use Rattle.doors.specs.MemoryDoor.{AcceptsNext, ClosesEnds, book_of, shut_at};

    type S = MemorySource;

    type K = MemorySink;

    ghost book = { book_of };

    ghost faults = { λ d. d.faults };

    /// The next connection, where one is left; a failure where the number of this call is one of those that fail; or want
    /// of memory to remember the connection.
    fn accept<R: Threads + Wait + Sync>(
        &mut self,
        _rt: &R,
        _alloc: Global,
    ) -> Accepted<MemorySource, MemorySink>
        ensures next { AcceptsNext self.old self.new result }
        ensures book { Accepts (book_of self.old) (book_of self.new) (given_by (λ s. Some s.left) (λ k. Some k.held) result) }
        ensures fresh { HaveNoFaults (λ s. s.faults) (λ k. k.faults) result }
        ensures later { self.old.faults ≤ self.new.faults }
        ensures cause { IsFailed result → Rose self.old.faults self.new.faults }
    {
        self.calls = self.calls.saturating_add(1);
        if self.left.is_empty() {
            return Accepted::Closed;
        }
        if self.fails.contains(&self.calls) {
            self.faults = self.faults.saturating_add(1);
            return Accepted::Failed;
        }
        let Some(connection) = take_last(&mut self.left, &mut self.passed) else {
            return Accepted::Memory;
        };
        Accepted::One {
            ip: connection.ip,
            source: connection.source,
            sink: connection.sink,
        }
    }

    /// Keeps the ends, where memory is found.
    fn close(&mut self, source: MemorySource, sink: MemorySink)
        ensures ends { ClosesEnds self.old self.new (record { source = source; sink = sink }) }
        ensures book { Shuts (book_of self.old) (book_of self.new) (shut_at (record { source = source; sink = sink })) }
        ensures later { self.old.faults ≤ self.new.faults }
    {
        let kept = self
            .passed
            .push(Passage::Took(Ends { source, sink }))
            .is_ok();
        self.telling = self.telling && kept;
    }
}
