//! Reading one head.

ghost use Rattle.std.specs.Prelude.{◌≡◌, ℕ, ◌≤◌, List, length, ◌==◌, if◌then◌else◌};
ghost use Rattle.http_wire.specs.Reading.{ReadsHead, HasHeadCause, Tries, TriesSome};
ghost use Rattle.http_wire.specs.declared.limits.TheConstants.{HEAD_MAX};

use crate::inbox::{Filled, Inbox};
use crate::limits::HEAD_MAX;
use edge_base::Source;
use std::alloc::Global;

/// What reading a head gave.
#[derive(Drop)]
pub enum HeadRead<H> {
    /// The head.
    Head(H),
    /// The source was at its end before a byte of a head.
    Ended,
    /// The source ended within the head, after so many bytes of it.
    CutShort { taken: u64 },
    /// The bytes do not begin with a head within the limits, which was noticed when so many had come.
    BadHead { taken: u64 },
    /// The source failed.
    ReadFault,
    /// Want of memory.
    Memory,
}

// what a try at the bytes that have come gave
#[derive(Drop)]
pub(crate) enum Tried<H> {
    // a head, and its length
    Whole(H, usize),
    // no head yet
    More,
    // no head within the limits, whatever comes
    Never,
    // want of memory
    Memory,
}

// a head that can be read: of a request or of a response
pub(crate) trait HeadForm: Drop {
    ghost spells: { List ℕ → Self → Type 0 };

    ghost has_none: { List ℕ → Type 0 };

    ghost is_open: { List ℕ → Type 0 };

    ghost is_over: { List ℕ → Type 0 };

    // the head at the front of the bytes, if it is there whole
    fn try_read(alloc: Global, bytes: &[u8]) -> Tried<Self>
        requires { length bytes.now ≤ HEAD_MAX }
        ensures { Tries spells has_none is_open is_over bytes.now result };
}

// the head at the front of the bytes, if it is there whole; no bytes are not looked at
fn try_some<H: HeadForm>(alloc: Global, bytes: &[u8]) -> Tried<H>
    requires { length bytes.now ≤ HEAD_MAX }
    ensures { TriesSome H.spells H.has_none H.is_open H.is_over bytes.now result }
{
    if bytes.is_empty() {
        return Tried::More;
    }
    H::try_read(alloc, bytes)
}

// reads until a head is there, or none can come
pub(crate) fn gather_head<S: Source, H: HeadForm>(
    alloc: Global,
    source: &mut S,
    inbox: &mut Inbox,
) -> HeadRead<H>
    ensures bytes { ReadsHead H.spells H.has_none H.is_open H.is_over
        (S.left source.old) (S.left source.new) inbox.old inbox.new result }
    ensures cause { HasHeadCause (S.faults source.old) (S.faults source.new) result }
{
    'reads: loop {
        match try_some(alloc, inbox.bytes()) {
            Tried::Whole(head, size) => {
                inbox.pass(size);
                return HeadRead::Head(head);
            }
            Tried::Never => return HeadRead::BadHead {
                taken: inbox.bytes().len() as u64,
            },
            Tried::Memory => return HeadRead::Memory,
            Tried::More => {}
        }
        let taken = inbox.bytes().len();
        if taken == HEAD_MAX {
            return HeadRead::BadHead {
                taken: taken as u64,
            };
        }
        match inbox.fill(source) {
            Filled::Some => {}
            Filled::End => return ended(taken),
            Filled::Failed => return HeadRead::ReadFault,
            Filled::Memory => return HeadRead::Memory,
        }
    }
}

// the source ended behind so many bytes of a head
fn ended<H: Drop>(taken: usize) -> HeadRead<H>
    ensures { result ≡ (if taken == 0 then HeadRead.Ended else HeadRead.CutShort taken) }
{
    if taken == 0 {
        HeadRead::Ended
    } else {
        HeadRead::CutShort {
            taken: taken as u64,
        }
    }
}
