//! What is read ahead of a source.

ghost use Rattle.std.specs.Prelude.{◌≡◌, ◌-◌, ◌<◌, ◌≤◌, [], length, take, drop, IfOk, OnOk, OnErr, IfSome, IsNone};
ghost use Rattle.std.specs.Vec.{vec_len};
ghost use Rattle.edge_base.specs.Source.{IsCount, Reads, HasReadCause};
ghost use Rattle.http_wire.specs.Inbox.{Fills, HasFillCause, HasRoom};
ghost use Rattle.http_wire.specs.declared.limits.TheConstants.{HEAD_MAX};

use crate::limits::HEAD_MAX;
use edge_base::{Source, Took};
use std::alloc::{AllocError, Global};
use std::marker::Model;

/// How many bytes an inbox has room for when it is made.
const FIRST_ROOM: usize = 2048;

/// What filling an inbox gave.
#[derive(Clone, Copy, Debug, PartialEq, Eq)]
pub enum Filled {
    /// One byte or more.
    Some,
    /// Nothing is left.
    End,
    /// The source failed.
    Failed,
    /// Want of memory.
    Memory,
}

/// Bytes that were read ahead of what was asked for, at most 16,384. It is made once for a connection, and seen as
/// these bytes.
#[derive(Drop)]
pub struct Inbox {
    bytes: Vec<u8>,
    from: usize,
    to: usize,
}

impl Model for Inbox {
    ghost use Rattle.std.specs.Prelude.{ℕ, ◌<◌, ◌≤◌, List, take, drop};
    ghost use Rattle.std.specs.Vec.{vec_len};
    ghost use Rattle.http_wire.specs.declared.limits.TheConstants.{HEAD_MAX};

    ghost Value = { List ℕ };

    ghost view = { λ inbox. drop inbox.from (take inbox.to inbox.bytes.items) };

    ghost invariant = { λ inbox. (inbox.from ≤ inbox.to) × (inbox.to ≤ vec_len inbox.bytes)
        × (0 < vec_len inbox.bytes) × (vec_len inbox.bytes ≤ HEAD_MAX) };
}

impl Inbox {
    /// An empty one, with room for some bytes.
    ///
    /// # Errors
    /// Want of memory.
    pub fn new(alloc: Global) -> Result<Inbox, AllocError>
        ensures { IfOk result (λ inbox. inbox ≡ []) }
    {
        let mut bytes = Vec::new(alloc);
        bytes.resize(FIRST_ROOM, 0)?;
        Ok(Inbox {
            bytes,
            from: 0,
            to: 0,
        })
    }

    /// The bytes that were read ahead.
    pub fn bytes(&self) -> &[u8]
        ensures bytes { result.now ≡ self.now }
        ensures within { length self.now ≤ HEAD_MAX }
    {
        &self.bytes[self.from..self.to]
    }

    /// Takes the first `count` bytes out.
    pub fn pass(&mut self, count: usize)
        requires { count ≤ length self.old }
        ensures { self.new ≡ drop count self.old }
    {
        self.from += count;
    }

    /// Takes all bytes out.
    pub fn clear(&mut self)
        ensures { self.new ≡ [] }
    {
        self.from = 0;
        self.to = 0;
    }

    /// Reads once from the source, behind the bytes that are there. Room is taken where there is none.
    pub fn fill<S: Source>(&mut self, source: &mut S) -> Filled
        requires { length self.old < HEAD_MAX }
        ensures bytes { Fills (S.left source.old) (S.left source.new) self.old self.new result }
        ensures cause { HasFillCause (S.faults source.old) (S.faults source.new) result }
    {
        let Some((from, to)) = make_room(&mut self.bytes, self.from, self.to) else {
            return Filled::Memory;
        };
        self.from = from;
        self.to = to;
        match read_at(source, &mut self.bytes, to) {
            Took::Some(count) => {
                self.to += count;
                Filled::Some
            }
            Took::End => Filled::End,
            Took::Failed => Filled::Failed,
        }
    }
}

// makes room behind the bytes from one place to another, which may move them; `None` where no memory was found
fn make_room(bytes: &mut Vec<u8>, from: usize, to: usize) -> Option<(usize, usize)>
    requires ordered { from ≤ to }
    requires within { to ≤ vec_len bytes.old }
    requires short { to - from < HEAD_MAX }
    requires most { vec_len bytes.old ≤ HEAD_MAX }
    requires some { 0 < vec_len bytes.old }
    ensures room { IfSome result (HasRoom bytes.old.items from to bytes.new.items) }
    ensures kept { IsNone result → bytes.new.items ≡ bytes.old.items }
{
    if from == to {
        return Some((0, 0));
    }
    if to < bytes.len() {
        return Some((from, to));
    }
    if from > 0 {
        settle(bytes, from, to);
        return Some((0, to - from));
    }
    match widen(bytes) {
        Ok(()) => Some((0, to)),
        Err(_) => None,
    }
}

// moves the bytes between the two places to the front
fn settle(bytes: &mut Vec<u8>, from: usize, to: usize)
    requires ordered { from ≤ to }
    requires within { to ≤ vec_len bytes.old }
    ensures moved { take (to - from) bytes.new.items ≡ drop from (take to bytes.old.items) }
    ensures len { vec_len bytes.new ≡ vec_len bytes.old }
{
    bytes.copy_within(from..to, 0);
}

// takes room for twice as many bytes, as far as the limit goes
fn widen(bytes: &mut Vec<u8>) -> Result<(), AllocError>
    requires some { 0 < vec_len bytes.old }
    requires short { vec_len bytes.old < HEAD_MAX }
    ensures kept { take (vec_len bytes.old) bytes.new.items ≡ bytes.old.items }
    ensures wider { OnOk result (vec_len bytes.old < vec_len bytes.new) }
    ensures most { vec_len bytes.new ≤ HEAD_MAX }
    ensures err { OnErr result (bytes.new.items ≡ bytes.old.items) }
{
    let room = if bytes.len() < HEAD_MAX / 2 {
        bytes.len() * 2
    } else {
        HEAD_MAX
    };
    bytes.resize(room, 0)
}

// reads into the bytes from this place on
fn read_at<S: Source>(source: &mut S, bytes: &mut Vec<u8>, at: usize) -> Took
    requires { at < vec_len bytes.old }
    ensures count { IsCount (vec_len bytes.old - at) result }
    ensures bytes { Reads (S.left source.old) (S.left source.new) (drop at bytes.new.items) result }
    ensures front { take at bytes.new.items ≡ take at bytes.old.items }
    ensures len { vec_len bytes.new ≡ vec_len bytes.old }
    ensures cause { HasReadCause (S.faults source.old) (S.faults source.new) result }
{
    source.read(&mut bytes[at..])
}
