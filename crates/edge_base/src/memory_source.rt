//! A source in memory.

ghost use Rattle.std.specs.Prelude.{◌≡◌, ◌+◌, ◌≤◌, ◌++◌, length, take, drop, IfOk};
ghost use Rattle.edge_base.specs.MemorySource.{Feed};

use crate::causes::count_fault;
use crate::portions::Portions;
use crate::source::{Source, Took};
use std::alloc::{AllocError, Global};
use std::marker::Model;

/// A source of given bytes, which gives them in given portions and fails at given calls.
/// It tells what is left.
#[derive(Drop)]
pub struct MemorySource {
    bytes: Vec<u8>,
    at: usize,
    gives: Portions,
    faults: u64,
}

impl Model for MemorySource {
    ghost use Rattle.std.specs.Prelude.{◌≤◌, drop};
    ghost use Rattle.std.specs.Vec.{vec_len};
    ghost use Rattle.edge_base.specs.MemorySource.{Feed};

    ghost Value = { Feed };

    ghost view = { λ s. record { left = drop s.at s.bytes.items; gives = s.gives; faults = s.faults } };

    ghost invariant = { λ s. s.at ≤ vec_len s.bytes };
}

impl MemorySource {
    /// A source of `bytes`. Its k-th call gives at most the k-th number of `gives`, and fails where that is 0;
    /// after these numbers a call gives as much as fits.
    ///
    /// # Errors
    /// Want of memory.
    pub fn new(alloc: Global, bytes: &[u8], gives: &[u64]) -> Result<MemorySource, AllocError>
        ensures { IfOk result (λ s. s ≡ record { left = bytes.now; gives = gives.now; faults = 0 }) }
    {
        let bytes = Vec::from_slice(alloc, bytes)?;
        let gives = Portions::new(alloc, gives)?;
        Ok(MemorySource {
            bytes,
            at: 0,
            gives,
            faults: 0,
        })
    }

    /// How many of its calls failed, up to 2^64 - 1.
    pub fn faults(&self) -> u64
        ensures { result ≡ self.now.faults }
    {
        self.faults
    }
}

impl Source for MemorySource {
    ghost use Rattle.std.specs.Prelude.{◌≡◌, ◌<◌, length, Some};
    ghost use Rattle.edge_base.specs.MemorySource.{given, after_read};
    ghost use Rattle.edge_base.specs.Source.{IsCount, Reads, HasReadCause};

    ghost left = { λ s. Some s.left };

    ghost faults = { λ s. s.faults };

    /// Fails where its number for this call is 0, and else gives that many bytes, as far as there is room and they are
    /// left.
    fn read(&mut self, buf: &mut [u8]) -> Took
        requires { 0 < length buf.old }
        ensures answer { result ≡ given (length buf.old) self.old }
        ensures after { self.new ≡ after_read (length buf.old) self.old }
        ensures count { IsCount (length buf.new) result }
        ensures bytes { Reads (Some self.old.left) (Some self.new.left) buf.new result }
        ensures cause { HasReadCause self.old.faults self.new.faults result }
    {
        let portion = self.gives.next(buf.len());
        if portion == 0 {
            self.faults = count_fault(self.faults);
            return Took::Failed;
        }
        let left = self.bytes.len() - self.at;
        if left == 0 {
            return Took::End;
        }
        let count = if portion < left { portion } else { left };
        give(&self.bytes, self.at, count, buf);
        self.at += count;
        Took::Some(count)
    }
}

// copies `count` bytes from place `at` on to the front of `buf`
pub(crate) fn give(bytes: &[u8], at: usize, count: usize, buf: &mut [u8])
    requires there { at + count ≤ length bytes.now }
    requires room { count ≤ length buf.old }
    ensures { drop at bytes.now ≡ take count buf.new ++ drop (at + count) bytes.now }
{
    buf[..count].copy_from_slice(&bytes[at..at + count]);
}
