//! A journal with reserved places: a place is reserved where memory may end, and an entry is pushed later without
//! memory. The oldest entries are retired from the front, and counted.
#![tactic(auto)]

ghost use Rattle.std.specs.Prelude.{◌≡◌, ◌+◌, ◌%◌, ◌^◌, ◌<◌, ◌≤◌, [], length, drop, slice_get, Some, IsOk, OnOk, OnErr};
ghost use Rattle.journal.specs.Seen.{pushed};

#[cfg(test)]
mod tests;

use std::alloc::{AllocError, Global};
use std::collections::VecDeque;
use std::marker::Model;

/// A journal of entries, seen as the number of entries retired modulo 2^64, the entries stored, and the number of
/// places reserved.
#[derive(Drop)]
pub struct Journal<E> {
    entries: VecDeque<E>,
    retired: u64,
}

impl<E> Model for Journal<E> {
    ghost use Rattle.std.specs.Prelude.{◌-◌};
    ghost use Rattle.std.specs.VecDeque.{deque_len, deque_capacity};
    ghost use Rattle.journal.specs.Seen.{Seen};

    ghost Value = { Seen E };

    ghost view = { λ j. record {
      retired = j.retired;
      stored = j.entries.items;
      spare = deque_capacity j.entries - deque_len j.entries;
    } };
}

impl<E> Journal<E> {
    /// An empty journal with no reserved place. It takes no memory, and does not fail.
    pub fn new(alloc: Global) -> Result<Journal<E>, AllocError>
        ensures { result ≡ Ok (record { retired = 0; stored = []; spare = 0 }) }
    {
        Ok(Journal {
            entries: VecDeque::with_capacity(alloc, 0)?,
            retired: 0,
        })
    }

    /// Reserves places, so that at least `n` entries can be pushed without memory. It takes memory only where there
    /// are fewer, and then so much that a push costs the same on average whatever is stored.
    pub fn reserve(&mut self, _alloc: Global, n: usize) -> Result<(), AllocError>
        ensures places { OnOk result (n ≤ self.new.spare) }
        ensures kept { self.new ≡ record self.old { spare = self.new.spare } }
        ensures no_fewer { self.old.spare ≤ self.new.spare }
        ensures refused { OnErr result (self.new ≡ self.old) }
        ensures at_hand { n ≤ self.old.spare → IsOk result }
    {
        if n <= self.entries.capacity() - self.entries.len() {
            return Ok(());
        }
        match self.entries.reserve_exact(n.max(self.entries.len())) {
            Ok(()) => Ok(()),
            Err(_) => self.entries.reserve_exact(n),
        }
    }

    /// Pushes an entry at a reserved place. It takes no memory.
    pub fn push_reserved(&mut self, entry: E)
        requires { 0 < self.old.spare }
        ensures { self.new ≡ pushed self.old entry }
    {
        self.entries.push_back_reserved(entry);
    }

    /// How many entries are stored.
    pub fn stored(&self) -> usize
        ensures { result ≡ length self.now.stored }
    {
        self.entries.len()
    }

    /// The stored entry at `i`, counted from the oldest at 0.
    pub fn entry(&self, i: usize) -> &E
        requires { i < length self.now.stored }
        ensures { slice_get self.now.stored i ≡ Some result.now }
    {
        &self.entries[i]
    }

    /// Drops the oldest `n` entries and counts them, in time that does not grow with the entries that stay. Their
    /// places can be used again.
    pub fn retire(&mut self, n: usize)
    where
        E: Drop,
        requires { n ≤ length self.old.stored }
        ensures stored { self.new.stored ≡ drop n self.old.stored }
        ensures retired { self.new.retired ≡ (self.old.retired + n) % 2 ^ 64 }
        ensures spare { self.old.spare ≤ self.new.spare }
    {
        'retire: for _ in 0..n {
            self.entries.pop_front();
        }
        self.retired = self.retired.wrapping_add(n as u64);
    }

    /// How many entries were retired, modulo 2^64.
    pub fn retired(&self) -> u64
        ensures { result ≡ self.now.retired }
    {
        self.retired
    }
}
