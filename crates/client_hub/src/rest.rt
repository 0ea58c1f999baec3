//! What came of a body and has no place in the room.

ghost use Rattle.std.specs.Prelude.{◌≡◌, ◌-◌, ◌≤◌, ◌++◌, [], length, min, take, drop, IsTrue, ◌↔◌};

use std::alloc::Global;
use std::marker::Model;

/// Bytes of a body that came before a worker had its connection. It is seen as those that are left.
#[derive(Drop)]
pub struct Rest {
    bytes: Vec<u8>,
    from: usize,
}

impl Model for Rest {
    ghost use Rattle.std.specs.Prelude.{ℕ, ◌≤◌, List, drop};
    ghost use Rattle.std.specs.Vec.{vec_len};

    ghost Value = { List ℕ };

    ghost view = { λ rest. drop rest.from rest.bytes.items };

    ghost invariant = { λ rest. rest.from ≤ vec_len rest.bytes };
}

impl Rest {
    /// None.
    pub fn none(alloc: Global) -> Rest
        ensures { result ≡ [] }
    {
        Rest {
            bytes: Vec::new(alloc),
            from: 0,
        }
    }

    /// These bytes without so many of the first.
    pub fn behind(bytes: Vec<u8>, from: usize) -> Rest
        ensures { result ≡ drop from bytes.items }
    {
        let from = from.min(bytes.len());
        Rest { bytes, from }
    }

    /// Whether none is left.
    pub fn is_empty(&self) -> bool
        ensures { IsTrue result ↔ (length self.now ≡ 0) }
    {
        self.from >= self.bytes.len()
    }

    /// Moves bytes to the front of `buf`, the first of those that are left, and keeps the others.
    pub fn give(&mut self, buf: &mut [u8]) -> usize
        ensures count { result ≡ min (length buf.old) (length self.old) }
        ensures within { result ≤ length buf.new }
        ensures given { buf.new ≡ take result self.old ++ drop result buf.old }
        ensures kept { self.new ≡ drop result self.old }
    {
        let count = buf.len().min(self.bytes.len() - self.from);
        buf[..count].copy_from_slice(&self.bytes[self.from..self.from + count]);
        self.from += count;
        count
    }
}
