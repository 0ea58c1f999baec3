//! How much each call of a source or sink in memory moves.

ghost use Rattle.std.specs.Prelude.{◌≡◌, ◌≤◌, drop, IfOk};
ghost use Rattle.edge_base.specs.Portions.{portion};

use std::alloc::{AllocError, Global};
use std::marker::Model;

// what each later call moves at most, in order
#[derive(Drop)]
pub(crate) struct Portions {
    numbers: Vec<u64>,
    at: usize,
}

impl Model for Portions {
    ghost use Rattle.std.specs.Prelude.{ℕ, ◌≤◌, List, drop};
    ghost use Rattle.std.specs.Vec.{vec_len};

    ghost Value = { List ℕ };

    ghost view = { λ p. drop p.at p.numbers.items };

    ghost invariant = { λ p. p.at ≤ vec_len p.numbers };
}

impl Portions {
    pub(crate) fn new(alloc: Global, numbers: &[u64]) -> Result<Portions, AllocError>
        ensures { IfOk result (λ p. p ≡ numbers.now) }
    {
        Ok(Portions {
            numbers: Vec::from_slice(alloc, numbers)?,
            at: 0,
        })
    }

    // what the next call moves at most, where there is room for so much
    pub(crate) fn next(&mut self, room: usize) -> usize
        ensures value { result ≡ portion room self.old }
        ensures within { result ≤ room }
        ensures rest { self.new ≡ drop 1 self.old }
    {
        if self.at == self.numbers.len() {
            return room;
        }
        let number = self.numbers[self.at];
        self.at += 1;
        if number < room as u64 {
            number as usize
        } else {
            room
        }
    }
}
