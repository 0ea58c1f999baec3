//! Bodies of requests (RFC 9112, section 6).

ghost use Rattle.std.specs.Prelude.{◌≡◌, codes, IfOk, OnErr};
ghost use Rattle.http_wire.specs.Fields.{values_of};
ghost use Rattle.http_wire.specs.Body.{MovesPiece, length_framing, framing_of, ReadsBody, FindsBody, ReadsLength, FindsLength, ReadsToEnd, FindsToEnd, ReadsPiece, HasBodyCause, HasPieceCause};

use crate::fields::Found;
use crate::head::Head;
use crate::inbox::{Filled, Inbox};
use byte_range::number_of;
use cdni_base::Text;
use edge_base::Source;
use std::alloc::{AllocError, Global};

/// What reading a body gave.
#[derive(Drop)]
pub enum BodyRead {
    /// The body.
    Body(Text),
    /// A Transfer-Encoding is there; nothing was read.
    Coded,
    /// The length of the body is told in no way that this project reads, which was noticed when so many bytes of the
    /// body had come.
    BadLength { taken: u64 },
    /// The body is longer than the limit: its announced length in bytes, or one more than the limit.
    TooLarge { len: u64 },
    /// The source ended within the body, after so many bytes of it.
    CutShort { taken: u64 },
    /// The source failed.
    ReadFault,
    /// Want of memory.
    Memory,
}

/// How the length of the body of a request is told (RFC 9112, section 6.3).
#[derive(Clone, Copy, Debug, PartialEq, Eq)]
pub enum Framing {
    /// A Transfer-Encoding is there.
    Coded,
    /// Content-Length is repeated or no number.
    BadLength,
    /// So many bytes.
    Length(u64),
}

// what reading so many bytes gave
#[derive(Clone, Copy, Debug, PartialEq, Eq)]
pub(crate) enum PieceRead {
    Whole,
    CutShort,
    ReadFault,
    Memory,
}

/// Reads the body of a request of at most `limit` bytes: as many bytes as its one Content-Length says, or none
/// (RFC 9112, section 6.3). `Coded` comes exactly where there is a Transfer-Encoding; else `BadLength` exactly where
/// Content-Length is repeated or no number; else `TooLarge` exactly where it is above the limit. In these cases
/// nothing is read. A number above 2^64 - 1 counts as that. Where the body is to come, no answer comes but it,
/// `ReadFault` and `Memory`.
pub fn body_of<S: Source>(
    alloc: Global,
    source: &mut S,
    inbox: &mut Inbox,
    head: &Head,
    limit: u64,
) -> BodyRead
    ensures bytes { ReadsBody limit (S.left source.old) (S.left source.new) inbox.old inbox.new
        (framing_of head.now.headers) result }
    ensures found { FindsBody limit (S.left source.old) inbox.old (framing_of head.now.headers) result }
    ensures cause { HasBodyCause (S.faults source.old) (S.faults source.new) result }
{
    match framing_of(head) {
        Framing::Coded => BodyRead::Coded,
        Framing::BadLength => BodyRead::BadLength { taken: 0 },
        Framing::Length(count) => {
            if count > limit {
                return BodyRead::TooLarge { len: count };
            }
            read_length(alloc, source, inbox, count)
        }
    }
}

fn framing_of(head: &Head) -> Framing
    ensures { result ≡ framing_of head.now.headers }
{
    match head.value(b"transfer-encoding") {
        Found::None => length_framing(head),
        _ => Framing::Coded,
    }
}

fn length_framing(head: &Head) -> Framing
    ensures { result ≡ length_framing (values_of (codes "content-length") head.now.headers) }
{
    match head.value(b"content-length") {
        Found::None => Framing::Length(0),
        Found::One(value) => match number_of(value) {
            Some(count) => Framing::Length(count),
            None => Framing::BadLength,
        },
        Found::Many => Framing::BadLength,
    }
}

/// Reads a body of so many bytes from what was read ahead and then from the source. Where they are to come, no answer
/// comes but they, `ReadFault` and `Memory`; `CutShort` comes only where the source ended after fewer.
pub fn read_length<S: Source>(
    alloc: Global,
    source: &mut S,
    inbox: &mut Inbox,
    count: u64,
) -> BodyRead
    ensures bytes { ReadsLength count (S.left source.old) (S.left source.new) inbox.old inbox.new result }
    ensures found { FindsLength count (S.left source.old) inbox.old result }
    ensures cause { HasBodyCause (S.faults source.old) (S.faults source.new) result }
{
    let mut text = Vec::new(alloc);
    match read_piece(source, inbox, count, &mut text) {
        PieceRead::Whole => BodyRead::Body(Text::from_vec(text)),
        PieceRead::CutShort => BodyRead::CutShort {
            taken: text.len() as u64,
        },
        PieceRead::ReadFault => BodyRead::ReadFault,
        PieceRead::Memory => BodyRead::Memory,
    }
}

/// Reads a body of at most `limit` bytes that reaches to the end of the source (RFC 9112, section 6.3). `TooLarge`
/// comes exactly where more come, with `limit + 1`, or 2^64 - 1 where that is more.
pub fn read_to_end<S: Source>(
    alloc: Global,
    source: &mut S,
    inbox: &mut Inbox,
    limit: u64,
) -> BodyRead
    ensures bytes { ReadsToEnd limit (S.left source.old) (S.left source.new) inbox.old inbox.new result }
    ensures found { FindsToEnd limit (S.left source.old) inbox.old result }
    ensures cause { HasBodyCause (S.faults source.old) (S.faults source.new) result }
{
    gather_to_end(alloc, source, inbox, limit)
}

fn gather_to_end<S: Source>(
    alloc: Global,
    source: &mut S,
    inbox: &mut Inbox,
    limit: u64,
) -> BodyRead
    ensures bytes { ReadsToEnd limit (S.left source.old) (S.left source.new) inbox.old inbox.new result }
    ensures cause { HasBodyCause (S.faults source.old) (S.faults source.new) result }
{
    let mut text = Vec::new(alloc);
    'pieces: loop {
        let left = limit - text.len() as u64;
        match move_piece(inbox, left, &mut text) {
            Ok(_) => {}
            Err(_) => return BodyRead::Memory,
        }
        if inbox.bytes().len() > 0 {
            return BodyRead::TooLarge {
                len: limit.saturating_add(1),
            };
        }
        match inbox.fill(source) {
            Filled::Some => {}
            Filled::End => return BodyRead::Body(Text::from_vec(text)),
            Filled::Failed => return BodyRead::ReadFault,
            Filled::Memory => return BodyRead::Memory,
        }
    }
}

// reads so many bytes and puts them behind the text
pub(crate) fn read_piece<S: Source>(
    source: &mut S,
    inbox: &mut Inbox,
    count: u64,
    text: &mut Vec<u8>,
) -> PieceRead
    ensures bytes { ReadsPiece count (S.left source.old) (S.left source.new) inbox.old inbox.new
        text.old.items text.new.items result }
    ensures cause { HasPieceCause (S.faults source.old) (S.faults source.new) result }
{
    let mut left = count;
    'pieces: loop {
        match move_piece(inbox, left, text) {
            Ok(moved) => left -= moved,
            Err(_) => return PieceRead::Memory,
        }
        if left == 0 {
            return PieceRead::Whole;
        }
        match inbox.fill(source) {
            Filled::Some => {}
            Filled::End => return PieceRead::CutShort,
            Filled::Failed => return PieceRead::ReadFault,
            Filled::Memory => return PieceRead::Memory,
        }
    }
}

// moves as many bytes as are there, so many at most, from the inbox to the end of the text
fn move_piece(inbox: &mut Inbox, most: u64, text: &mut Vec<u8>) -> Result<u64, AllocError>
    ensures ok { IfOk result (λ count. MovesPiece most count inbox.old inbox.new text.old.items text.new.items) }
    ensures err { OnErr result ((inbox.new ≡ inbox.old) × (text.new.items ≡ text.old.items)) }
{
    let bytes = inbox.bytes();
    let count = if most < bytes.len() as u64 {
        most as usize
    } else {
        bytes.len()
    };
    text.extend_from_slice(&bytes[..count])?;
    inbox.pass(count);
    Ok(count as u64)
}
