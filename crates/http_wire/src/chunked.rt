//! Chunked bodies (RFC 9112, section 7.1).

ghost use Rattle.std.specs.Prelude.{◌≡◌, ◌≤◌, length};
ghost use Rattle.httparse.specs.Grammar.{HasNoChunkLine, NeverHasChunkLine, MayBecomeChunkLine, MayBecomeSection};
ghost use Rattle.http_wire.specs.Reading.{Tries};
ghost use Rattle.http_wire.specs.Chunked.{SpellsLine, SpellsEnd, HasNoEnd, MayBecomeEnd, NeverHasEnd, SpellsTrailers, HasNoTrailers, NeverHasTrailers, ReadsChunk, ReadsContent, ReadsEnd, ReadsTrailers, ReadsChunked, FindsChunked, HasChunkCause};
ghost use Rattle.http_wire.specs.Body.{HasBodyCause};
ghost use Rattle.http_wire.specs.declared.limits.TheConstants.{HEAD_MAX};
ghost use Rattle.http_wire.specs.declared.chunked.TheConstants.{TRAILERS_MAX};

use crate::body::{BodyRead, PieceRead, read_piece};
use crate::inbox::Inbox;
use crate::limits::{FIELDS_MAX, HEAD_MAX};
use crate::reading::{HeadForm, HeadRead, Tried, gather_head};
use cdni_base::Text;
use edge_base::Source;
use httparse::spans::{EMPTY_HEADER_SPAN, HeaderSpan, parse_headers};
use httparse::{Error, Status, parse_chunk_size};
use std::alloc::Global;

// how many trailers 16,384 bytes can have: each takes three at least, and the empty line one
const TRAILERS_MAX: usize = 5461;

// a chunk line: the size of the chunk, and its own length
#[derive(Clone, Copy, Debug, PartialEq, Eq)]
pub(crate) struct ChunkSize {
    size: u64,
    taken: usize,
}

// the end of a chunk
#[derive(Clone, Copy, Debug, PartialEq, Eq)]
pub(crate) struct ChunkEnd;

// the trailers, which are dropped
#[derive(Clone, Copy, Debug, PartialEq, Eq)]
pub(crate) struct Trailers;

// what reading one chunk gave
#[derive(Clone, Copy, Debug, PartialEq, Eq)]
pub(crate) enum ChunkRead {
    // a chunk of so many bytes
    Some { taken: u64 },
    // the line of the last chunk, of so many bytes
    Last { taken: u64 },
    TooLarge,
    BadLength { taken: u64 },
    CutShort { taken: u64 },
    ReadFault,
    Memory,
}

// the chunk line at the front of these bytes, if it is there whole
fn try_line(bytes: &[u8]) -> Tried<ChunkSize>
    requires { length bytes.now ≤ HEAD_MAX }
    ensures { Tries SpellsLine HasNoChunkLine MayBecomeChunkLine NeverHasChunkLine bytes.now result }
{
    match parse_chunk_size(bytes) {
        Ok(Status::Complete((taken, size))) => Tried::Whole(ChunkSize { size, taken }, taken),
        Ok(Status::Partial) => Tried::More,
        Err(_) => Tried::Never,
    }
}

impl HeadForm for ChunkSize {
    ghost use Rattle.httparse.specs.Grammar.{HasNoChunkLine, NeverHasChunkLine, MayBecomeChunkLine};
    ghost use Rattle.http_wire.specs.Chunked.{SpellsLine};

    ghost spells = { SpellsLine };

    ghost has_none = { HasNoChunkLine };

    ghost is_open = { MayBecomeChunkLine };

    ghost is_over = { NeverHasChunkLine };

    fn try_read(_alloc: Global, bytes: &[u8]) -> Tried<ChunkSize> {
        try_line(bytes)
    }
}

// the end of a chunk at the front of these bytes, if it is there whole
fn try_end(bytes: &[u8]) -> Tried<ChunkEnd>
    ensures { Tries SpellsEnd HasNoEnd MayBecomeEnd NeverHasEnd bytes.now result }
{
    if bytes.is_empty() {
        return Tried::More;
    }
    if bytes[0] != b'\r' {
        return Tried::Never;
    }
    if bytes.len() == 1 {
        return Tried::More;
    }
    if bytes[1] != b'\n' {
        return Tried::Never;
    }
    Tried::Whole(ChunkEnd, 2)
}

impl HeadForm for ChunkEnd {
    ghost use Rattle.http_wire.specs.Chunked.{SpellsEnd, HasNoEnd, MayBecomeEnd, NeverHasEnd};

    ghost spells = { SpellsEnd };

    ghost has_none = { HasNoEnd };

    ghost is_open = { MayBecomeEnd };

    ghost is_over = { NeverHasEnd };

    fn try_read(_alloc: Global, bytes: &[u8]) -> Tried<ChunkEnd> {
        try_end(bytes)
    }
}

// the trailers at the front of these bytes, if they are there whole
fn try_trailers(alloc: Global, bytes: &[u8]) -> Tried<Trailers>
    requires { length bytes.now ≤ HEAD_MAX }
    ensures { Tries SpellsTrailers HasNoTrailers MayBecomeSection NeverHasTrailers bytes.now result }
{
    let mut spans = [EMPTY_HEADER_SPAN; FIELDS_MAX];
    match parse_headers(bytes, &mut spans) {
        Ok(Status::Complete((taken, _))) => Tried::Whole(Trailers, taken),
        Ok(Status::Partial) => Tried::More,
        Err(error) => match error {
            Error::TooManyHeaders => try_many_trailers(alloc, bytes),
            _ => Tried::Never,
        },
    }
}

// the same with room for all trailers that there can be
fn try_many_trailers(alloc: Global, bytes: &[u8]) -> Tried<Trailers>
    requires { length bytes.now ≤ HEAD_MAX }
    ensures { Tries SpellsTrailers HasNoTrailers MayBecomeSection NeverHasTrailers bytes.now result }
{
    let mut spans = Vec::new(alloc);
    match spans.resize(TRAILERS_MAX, EMPTY_HEADER_SPAN) {
        Ok(()) => try_trailers_in(bytes, &mut spans),
        Err(_) => Tried::Memory,
    }
}

fn try_trailers_in(bytes: &[u8], spans: &mut [HeaderSpan]) -> Tried<Trailers>
    requires within { length bytes.now ≤ HEAD_MAX }
    requires room { length spans.old ≡ TRAILERS_MAX }
    ensures { Tries SpellsTrailers HasNoTrailers MayBecomeSection NeverHasTrailers bytes.now result }
{
    match parse_headers(bytes, spans) {
        Ok(Status::Complete((taken, _))) => Tried::Whole(Trailers, taken),
        Ok(Status::Partial) => Tried::More,
        Err(_) => Tried::Never,
    }
}

impl HeadForm for Trailers {
    ghost use Rattle.httparse.specs.Grammar.{MayBecomeSection};
    ghost use Rattle.http_wire.specs.Chunked.{SpellsTrailers, HasNoTrailers, NeverHasTrailers};

    ghost spells = { SpellsTrailers };

    ghost has_none = { HasNoTrailers };

    ghost is_open = { MayBecomeSection };

    ghost is_over = { NeverHasTrailers };

    fn try_read(alloc: Global, bytes: &[u8]) -> Tried<Trailers> {
        try_trailers(alloc, bytes)
    }
}

// reads one chunk and puts its data behind the text
fn read_chunk<S: Source>(
    alloc: Global,
    source: &mut S,
    inbox: &mut Inbox,
    limit: u64,
    text: &mut Vec<u8>,
) -> ChunkRead
    requires { length text.old.items ≤ limit }
    ensures bytes { ReadsChunk limit (S.left source.old) (S.left source.new) inbox.old inbox.new
        text.old.items text.new.items result }
    ensures cause { HasChunkCause (S.faults source.old) (S.faults source.new) result }
{
    match gather_head::<S, ChunkSize>(alloc, source, inbox) {
        HeadRead::Head(line) => {
            if line.size == 0 {
                return ChunkRead::Last {
                    taken: line.taken as u64,
                };
            }
            if line.size > limit - text.len() as u64 {
                return ChunkRead::TooLarge;
            }
            read_content(alloc, source, inbox, line, text)
        }
        HeadRead::Ended => ChunkRead::CutShort { taken: 0 },
        HeadRead::CutShort { taken } => ChunkRead::CutShort { taken },
        HeadRead::BadHead { taken } => ChunkRead::BadLength { taken },
        HeadRead::ReadFault => ChunkRead::ReadFault,
        HeadRead::Memory => ChunkRead::Memory,
    }
}

// reads the data and the end of a chunk
fn read_content<S: Source>(
    alloc: Global,
    source: &mut S,
    inbox: &mut Inbox,
    line: ChunkSize,
    text: &mut Vec<u8>,
) -> ChunkRead
    ensures bytes { ReadsContent line (S.left source.old) (S.left source.new) inbox.old inbox.new
        text.old.items text.new.items result }
    ensures cause { HasChunkCause (S.faults source.old) (S.faults source.new) result }
{
    let before = text.len();
    match read_piece(source, inbox, line.size, text) {
        PieceRead::Whole => {
            read_end(
                alloc,
                source,
                inbox,
                (line.taken as u64).saturating_add(line.size),
            )
        }
        PieceRead::CutShort => ChunkRead::CutShort {
            taken: (line.taken as u64).saturating_add((text.len() - before) as u64),
        },
        PieceRead::ReadFault => ChunkRead::ReadFault,
        PieceRead::Memory => ChunkRead::Memory,
    }
}

// reads the end of a chunk of which so many bytes were taken before
fn read_end<S: Source>(alloc: Global, source: &mut S, inbox: &mut Inbox, so_far: u64) -> ChunkRead
    ensures bytes { ReadsEnd so_far (S.left source.old) (S.left source.new) inbox.old inbox.new result }
    ensures cause { HasChunkCause (S.faults source.old) (S.faults source.new) result }
{
    match gather_head::<S, ChunkEnd>(alloc, source, inbox) {
        HeadRead::Head(_) => ChunkRead::Some {
            taken: so_far.saturating_add(2),
        },
        HeadRead::Ended => ChunkRead::CutShort { taken: so_far },
        HeadRead::CutShort { taken } => ChunkRead::CutShort {
            taken: so_far.saturating_add(taken),
        },
        HeadRead::BadHead { taken } => ChunkRead::BadLength {
            taken: so_far.saturating_add(taken),
        },
        HeadRead::ReadFault => ChunkRead::ReadFault,
        HeadRead::Memory => ChunkRead::Memory,
    }
}

// reads the trailers behind so many bytes of a body of this content
fn read_trailers<S: Source>(
    alloc: Global,
    source: &mut S,
    inbox: &mut Inbox,
    so_far: u64,
    text: Vec<u8>,
) -> BodyRead
    ensures bytes { ReadsTrailers so_far text.items (S.left source.old) (S.left source.new) inbox.old inbox.new result }
    ensures cause { HasBodyCause (S.faults source.old) (S.faults source.new) result }
{
    match gather_head::<S, Trailers>(alloc, source, inbox) {
        HeadRead::Head(_) => BodyRead::Body(Text::from_vec(text)),
        HeadRead::Ended => BodyRead::CutShort { taken: so_far },
        HeadRead::CutShort { taken } => BodyRead::CutShort {
            taken: so_far.saturating_add(taken),
        },
        HeadRead::BadHead { taken } => BodyRead::BadLength {
            taken: so_far.saturating_add(taken),
        },
        HeadRead::ReadFault => BodyRead::ReadFault,
        HeadRead::Memory => BodyRead::Memory,
    }
}

// reads the chunks and the trailers
fn gather_chunks<S: Source>(
    alloc: Global,
    source: &mut S,
    inbox: &mut Inbox,
    limit: u64,
) -> BodyRead
    ensures bytes { ReadsChunked limit (S.left source.old) (S.left source.new) inbox.old inbox.new result }
    ensures cause { HasBodyCause (S.faults source.old) (S.faults source.new) result }
{
    let mut text = Vec::new(alloc);
    let mut taken = 0u64;
    'chunks: loop {
        match read_chunk(alloc, source, inbox, limit, &mut text) {
            ChunkRead::Some { taken: more } => taken = taken.saturating_add(more),
            ChunkRead::Last { taken: more } => {
                let so_far = taken.saturating_add(more);
                return read_trailers(alloc, source, inbox, so_far, text);
            }
            ChunkRead::TooLarge => return BodyRead::TooLarge {
                len: limit.saturating_add(1),
            },
            ChunkRead::BadLength { taken: more } => return BodyRead::BadLength {
                taken: taken.saturating_add(more),
            },
            ChunkRead::CutShort { taken: more } => return BodyRead::CutShort {
                taken: taken.saturating_add(more),
            },
            ChunkRead::ReadFault => return BodyRead::ReadFault,
            ChunkRead::Memory => return BodyRead::Memory,
        }
    }
}

/// Reads a chunked body (RFC 9112, section 7.1) whose content has at most `limit` bytes, and drops its trailers. Each
/// chunk line and the trailers have at most 16,384 bytes, and a size has at most 16 digits. `BadLength` comes where no
/// continuation is a chunk line, the end of a chunk or trailers, or one of these bounds is passed, with the number of
/// all bytes of the body that had come; `TooLarge` where the sizes of the chunks read so far pass the limit, with
/// `limit + 1`, or 2^64 - 1 where that is more. Where the body is to come and its content is within the limit, no answer
/// comes but it, `ReadFault` and `Memory`.
pub fn read_chunked<S: Source>(
    alloc: Global,
    source: &mut S,
    inbox: &mut Inbox,
    limit: u64,
) -> BodyRead
    ensures bytes { ReadsChunked limit (S.left source.old) (S.left source.new) inbox.old inbox.new result }
    ensures found { FindsChunked limit (S.left source.old) inbox.old result }
    ensures cause { HasBodyCause (S.faults source.old) (S.faults source.new) result }
{
    gather_chunks(alloc, source, inbox, limit)
}
