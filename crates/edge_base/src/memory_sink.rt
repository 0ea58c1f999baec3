//! A sink in memory.

ghost use Rattle.std.specs.Prelude.{◌≡◌, [], IfOk};
ghost use Rattle.edge_base.specs.MemorySink.{Basin};

use crate::causes::count_fault;
use crate::portions::Portions;
use crate::sink::{Put, Sink};
use std::alloc::{AllocError, Global};
use std::marker::Model;

/// A sink that keeps what it takes, takes it in given portions and fails at given calls.
/// It tells what it holds. Where it finds no memory it counts a fault.
#[derive(Drop)]
pub struct MemorySink {
    held: Vec<u8>,
    takes: Portions,
    faults: u64,
}

impl Model for MemorySink {
    ghost use Rattle.edge_base.specs.MemorySink.{Basin};

    ghost Value = { Basin };

    ghost view = { λ s. record { held = s.held.items; takes = s.takes; faults = s.faults } };
}

impl MemorySink {
    /// An empty sink. Its k-th call takes at most the k-th number of `takes`, and fails where that is 0;
    /// after these numbers a call takes all.
    ///
    /// # Errors
    /// Want of memory.
    pub fn new(alloc: Global, takes: &[u64]) -> Result<MemorySink, AllocError>
        ensures { IfOk result (λ s. s ≡ record { held = []; takes = takes.now; faults = 0 }) }
    {
        let takes = Portions::new(alloc, takes)?;
        Ok(MemorySink {
            held: Vec::new(alloc),
            takes,
            faults: 0,
        })
    }

    /// What it took.
    pub fn held(&self) -> &[u8]
        ensures { result.now ≡ self.now.held }
    {
        &self.held
    }

    /// How many of its calls failed, up to 2^64 - 1.
    pub fn faults(&self) -> u64
        ensures { result ≡ self.now.faults }
    {
        self.faults
    }
}

impl Sink for MemorySink {
    ghost use Rattle.std.specs.Prelude.{◌<◌, length, Some};
    ghost use Rattle.edge_base.specs.MemorySink.{PutsByList};
    ghost use Rattle.edge_base.specs.Sink.{IsPutCount, Writes, HasWriteCause};

    ghost held = { λ s. Some s.held };

    ghost faults = { λ s. s.faults };

    /// Takes as much as its number for this call says, and fails where that is 0 or no memory is found.
    fn write(&mut self, piece: &[u8]) -> Put
        requires { 0 < length piece.now }
        ensures count { IsPutCount (length piece.now) result }
        ensures list { PutsByList self.old self.new piece.now result }
        ensures bytes { Writes (Some self.old.held) (Some self.new.held) piece.now result }
        ensures cause { HasWriteCause self.old.faults self.new.faults result }
    {
        let count = self.takes.next(piece.len());
        if count > 0 {
            match self.held.extend_from_slice(&piece[..count]) {
                Ok(()) => return Put::Some(count),
                Err(_) => {}
            }
        }
        self.faults = count_fault(self.faults);
        Put::Failed
    }
}
