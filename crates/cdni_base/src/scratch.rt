//! A text that grows within room that was taken before.

ghost use Rattle.std.specs.Prelude.{◌≡◌, ◌++◌, [], take, decimal, IfOk};
ghost use Rattle.cdni_base.specs.Scratch.{Room, Puts};

use itoa::Buffer;
use std::alloc::{AllocError, Global};
use std::marker::Model;

/// Bytes that grow up to a number that was set when it was made. What is put into it takes no memory.
/// It is seen as its bytes and the room for all of them.
#[derive(Drop)]
pub struct Scratch {
    text: Vec<u8>,
    room: usize,
}

impl Model for Scratch {
    ghost use Rattle.std.specs.Prelude.{◌≤◌};
    ghost use Rattle.std.specs.Vec.{vec_len, vec_capacity};
    ghost use Rattle.cdni_base.specs.Scratch.{Room};

    ghost Value = { Room };

    ghost view = { λ s. record { text = s.text.items; room = s.room } };

    ghost invariant = { λ s. (vec_len s.text ≤ s.room) × (s.room ≤ vec_capacity s.text) };
}

impl Scratch {
    /// An empty one with room for so many bytes.
    ///
    /// # Errors
    /// Want of memory.
    pub fn new(alloc: Global, room: usize) -> Result<Scratch, AllocError>
        ensures { IfOk result (λ s. s ≡ record { text = []; room = room }) }
    {
        Ok(Scratch {
            text: Vec::with_capacity(alloc, room)?,
            room,
        })
    }

    /// Adds the bytes at the end. False exactly where they do not fit; then nothing changes.
    pub fn append(&mut self, bytes: &[u8]) -> bool
        ensures { Puts self.old self.new bytes.now result }
    {
        if bytes.len() > self.room - self.text.len() {
            return false;
        }
        self.text.extend_from_slice(bytes).unwrap();
        true
    }

    /// The bytes.
    pub fn bytes(&self) -> &[u8]
        ensures { result.now ≡ self.now.text }
    {
        &self.text
    }

    /// Takes all bytes out.
    pub fn clear(&mut self)
        ensures { self.new ≡ record { text = []; room = self.old.room } }
    {
        self.text.clear();
    }

    /// Adds the decimal text of a number. False exactly where it does not fit; then nothing changes.
    pub fn append_number(&mut self, number: u64) -> bool
        ensures { Puts self.old self.new (decimal number) result }
    {
        let mut digits = Buffer::new();
        self.append(digits.format(number).as_bytes())
    }

    /// Adds the two texts one after the other. False exactly where both together do not fit; then nothing changes.
    pub fn append_two(&mut self, first: &[u8], second: &[u8]) -> bool
        ensures { Puts self.old self.new (first.now ++ second.now) result }
    {
        let left = self.room - self.text.len();
        if first.len() > left || second.len() > left - first.len() {
            return false;
        }
        self.append(first) && self.append(second)
    }

    /// Takes back what was put after the first `length` bytes.
    pub fn truncate(&mut self, length: usize)
        ensures { self.new ≡ record { text = take length self.old.text; room = self.old.room } }
    {
        self.text.truncate(length);
    }
}
