//! A source and a sink that never fail.

ghost use Rattle.std.specs.Prelude.{◌≡◌, IfOk};

use crate::memory_source::give;
use crate::sink::{Put, Sink};
use crate::source::{Source, Took};
use std::alloc::{AllocError, Global};
use std::marker::Model;

/// A source of given bytes that never fails. It tells what is left.
#[derive(Drop)]
pub struct SteadySource {
    bytes: Vec<u8>,
    at: usize,
}

impl Model for SteadySource {
    ghost use Rattle.std.specs.Prelude.{ℕ, ◌≤◌, List, drop};
    ghost use Rattle.std.specs.Vec.{vec_len};

    ghost Value = { List ℕ };

    ghost view = { λ s. drop s.at s.bytes.items };

    ghost invariant = { λ s. s.at ≤ vec_len s.bytes };
}

impl SteadySource {
    /// A source of `bytes`.
    ///
    /// # Errors
    /// Want of memory.
    pub fn new(alloc: Global, bytes: &[u8]) -> Result<SteadySource, AllocError>
        ensures { IfOk result (λ s. s ≡ bytes.now) }
    {
        Ok(SteadySource {
            bytes: Vec::from_slice(alloc, bytes)?,
            at: 0,
        })
    }
}

impl Source for SteadySource {
    ghost use Rattle.std.specs.Prelude.{◌==◌, ◌<◌, drop, length, min, if◌then◌else◌, Some};
    ghost use Rattle.edge_base.specs.Source.{IsCount, Reads, HasReadCause};

    ghost left = { λ s. Some s };

    ghost faults = { λ _. 0 };

    /// Gives as much as there is room for, as far as it is left.
    fn read(&mut self, buf: &mut [u8]) -> Took
        requires { 0 < length buf.old }
        ensures answer { result ≡ (if length self.old == 0 then Took.End
            else Took.Some (min (length buf.old) (length self.old))) }
        ensures rest { self.new ≡ drop (length buf.old) self.old }
        ensures count { IsCount (length buf.new) result }
        ensures bytes { Reads (Some self.old) (Some self.new) buf.new result }
        ensures cause { HasReadCause 0 0 result }
    {
        let left = self.bytes.len() - self.at;
        if left == 0 {
            return Took::End;
        }
        let count = buf.len().min(left);
        give(&self.bytes, self.at, count, buf);
        self.at += count;
        Took::Some(count)
    }
}

/// A sink that takes everything, never fails and keeps nothing but the number of bytes, up to 2^64 - 1.
/// It does not tell what it holds, since a sink that keeps bytes can find no memory and would have to fail.
#[derive(Drop)]
pub struct SteadySink {
    /// How many bytes it took.
    pub count: u64,
}

impl SteadySink {
    /// A sink that took nothing yet. It takes no memory, and answers `Ok`.
    ///
    /// # Errors
    /// None: the answer has the form of the other constructors.
    pub fn new(_alloc: Global) -> Result<SteadySink, AllocError>
        ensures { result ≡ Ok (record { count = 0 }) }
    {
        Ok(SteadySink { count: 0 })
    }
}

impl Sink for SteadySink {
    ghost use Rattle.std.specs.Prelude.{◌+◌, ◌<◌, length, min, None};
    ghost use Rattle.edge_base.specs.Sink.{IsPutCount, HasWriteCause};

    ghost held = { λ _. None };

    ghost faults = { λ _. 0 };

    /// Takes the whole piece.
    fn write(&mut self, piece: &[u8]) -> Put
        requires { 0 < length piece.now }
        ensures answer { result ≡ Put.Some (length piece.now) }
        ensures number { self.new.count ≡ min (self.old.count + length piece.now) u64.MAX }
        ensures count { IsPutCount (length piece.now) result }
        ensures cause { HasWriteCause 0 0 result }
    {
        self.count = self.count.saturating_add(piece.len() as u64);
        Put::Some(piece.len())
    }
}
