//! What was read ahead of a connection.

ghost use Rattle.std.specs.Prelude.{◌≡◌, ◌-◌, ◌<◌, ◌≤◌, ◌++◌, [], length, min, take, drop, IfOk, OnOk};
ghost use Rattle.sockets.specs.Ready.{Fills, IsMoved};

use crate::ready::{Moved, read_now, read_soon};
use http_wire::HEAD_MAX;
use std::alloc::{AllocError, Global};
use std::marker::Model;
use std::net::TcpStream;

/// Bytes that were read ahead, at most 16,384, as many as a head may have. It is made once for a worker, and seen as
/// these bytes.
#[derive(Drop)]
pub struct Room {
    bytes: Vec<u8>,
    from: usize,
    to: usize,
}

impl Model for Room {
    ghost use Rattle.std.specs.Prelude.{ℕ, ◌≡◌, ◌≤◌, List, take, drop};
    ghost use Rattle.std.specs.Vec.{vec_len};
    ghost use Rattle.http_wire.specs.declared.limits.TheConstants.{HEAD_MAX};

    ghost Value = { List ℕ };

    ghost view = { λ room. drop room.from (take room.to room.bytes.items) };

    ghost invariant = { λ room. (room.from ≤ room.to) × (room.to ≤ vec_len room.bytes) × (vec_len room.bytes ≡ HEAD_MAX) };
}

impl Room {
    /// An empty one.
    pub fn new(alloc: Global) -> Result<Room, AllocError>
        ensures { IfOk result (λ room. room ≡ []) }
    {
        let mut bytes = Vec::new(alloc);
        bytes.resize(HEAD_MAX, 0)?;
        Ok(Room {
            bytes,
            from: 0,
            to: 0,
        })
    }

    /// The bytes.
    pub fn bytes(&self) -> &[u8]
        ensures bytes { result.now ≡ self.now }
    {
        &self.bytes[self.from..self.to]
    }

    /// Takes all bytes out.
    pub fn clear(&mut self)
        ensures { self.new ≡ [] }
    {
        self.from = 0;
        self.to = 0;
    }

    /// Has these bytes alone, the first 16,384 of them.
    pub fn hold(&mut self, bytes: &[u8])
        ensures { self.new ≡ take HEAD_MAX bytes.now }
    {
        let count = bytes.len().min(HEAD_MAX);
        put_front(&mut self.bytes[..], &bytes[..count]);
        self.from = 0;
        self.to = count;
    }

    /// Moves bytes to the front of `buf`, the first of those that it has, and keeps the others.
    pub fn give(&mut self, buf: &mut [u8]) -> usize
        ensures count { result ≡ min (length buf.old) (length self.old) }
        ensures within { result ≤ length buf.new }
        ensures given { buf.new ≡ take result self.old ++ drop result buf.old }
        ensures kept { self.new ≡ drop result self.old }
    {
        let count = buf.len().min(self.to - self.from);
        buf[..count].copy_from_slice(&self.bytes[self.from..self.from + count]);
        self.from += count;
        count
    }

    /// Reads once behind the bytes that are there; without waiting, or as long as the socket's own limit says.
    pub fn fill(&mut self, stream: &TcpStream, soon: bool) -> Moved
        ensures { Fills self.old self.new result }
    {
        self.settle();
        if self.to == self.bytes.len() {
            return Moved::Failed;
        }
        let to = self.to;
        let got = if soon {
            read_soon(stream, &mut self.bytes[to..])
        } else {
            read_now(stream, &mut self.bytes[to..])
        };
        if let Moved::Some(count) = got {
            self.to = to + count;
        }
        got
    }

    // moves the bytes to the front
    fn settle(&mut self)
        ensures { self.new ≡ self.old }
    {
        if self.from > 0 {
            self.bytes.copy_within(self.from..self.to, 0);
            self.to -= self.from;
            self.from = 0;
        }
    }
}

// has these bytes in front of the others, in place of as many
fn put_front(buf: &mut [u8], bytes: &[u8])
    requires { length bytes.now ≤ length buf.old }
    ensures { buf.new ≡ bytes.now ++ drop (length bytes.now) buf.old }
{
    buf[..bytes.len()].copy_from_slice(bytes);
}
