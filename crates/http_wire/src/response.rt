//! Heads of responses (RFC 9112, sections 2 to 5).

ghost use Rattle.std.specs.Prelude.{◌≡◌, ◌<◌, ◌≤◌, length, All, IfOk, Some, slice_get};
ghost use Rattle.httparse.specs.Grammar.{MayBecomeResponse};
ghost use Rattle.http_wire.specs.Fields.{IsFound, values_of};
ghost use Rattle.httparse.specs.Spans.{IsHeaderWithin};
ghost use Rattle.http_wire.specs.Response.{SpellsResponse, HasNoResponseHead, IsHopelessResponse, response_parts_at};
ghost use Rattle.http_wire.specs.Reading.{ReadsHead, FindsHead, HasHeadCause, Tries};
ghost use Rattle.http_wire.specs.declared.limits.TheConstants.{HEAD_MAX};

use crate::fields::{Fields, Found, Header};
use crate::inbox::Inbox;
use crate::limits::{FEEDS_MAX, FIELDS_MAX, HEAD_MAX, exceeds_feeds, feeds_in};
use crate::reading::{HeadForm, HeadRead, Tried, gather_head};
use edge_base::Source;
use httparse::Status;
use httparse::spans::{EMPTY_HEADER_SPAN, HeaderSpan, ResponseSpans, parse_response};
use std::alloc::{AllocError, Global};
use std::marker::Model;

/// The head of a response: a copy of its bytes, in which its parts stand. It is seen as these parts.
#[derive(Drop)]
pub struct ResponseHead {
    fields: Fields,
    status: u16,
    minor: u8,
}

impl Model for ResponseHead {
    ghost use Rattle.std.specs.Prelude.{length};
    ghost use Rattle.http_wire.specs.Response.{ResponseParts};

    ghost Value = { ResponseParts };

    ghost view = { λ h. record {
      size = length h.fields.text;
      status = h.status;
      minor = h.minor;
      headers = h.fields.headers;
    } };
}

impl ResponseHead {
    /// How many bytes the head has.
    pub fn size(&self) -> usize
        ensures { result ≡ self.now.size }
    {
        self.fields.size()
    }

    /// The status code, of three digits.
    pub fn status(&self) -> u16
        ensures { result ≡ self.now.status }
    {
        self.status
    }

    /// The minor version: 0 or 1.
    pub fn minor(&self) -> u8
        ensures { result ≡ self.now.minor }
    {
        self.minor
    }

    /// How many header fields there are.
    pub fn header_count(&self) -> usize
        ensures { result ≡ length self.now.headers }
    {
        self.fields.len()
    }

    /// Header field `i`, counted from 0.
    pub fn header(&self, i: usize) -> Header<'_>
        requires { i < length self.now.headers }
        ensures { slice_get self.now.headers i ≡ Some (result.name.now, result.value.now) }
    {
        self.fields.at(i)
    }

    /// The value of the header field of this name, in any case: none, exactly one, or several.
    pub fn value(&self, name: &[u8]) -> Found<'_>
        ensures { IsFound (values_of name.now self.now.headers) result }
    {
        self.fields.value(name)
    }
}

// the head at the front of these bytes, if it is there whole
fn try_head(alloc: Global, bytes: &[u8]) -> Tried<ResponseHead>
    requires { length bytes.now ≤ HEAD_MAX }
    ensures { Tries SpellsResponse HasNoResponseHead MayBecomeResponse IsHopelessResponse bytes.now result }
{
    let mut spans = [EMPTY_HEADER_SPAN; FIELDS_MAX];
    match parse_response(bytes, &mut spans) {
        Ok(Status::Complete(found)) => {
            let text = &bytes[..found.len];
            if exceeds_feeds(text) {
                return Tried::Never;
            }
            match head_of(alloc, text, &found, &spans[..found.headers]) {
                Ok(head) => Tried::Whole(head, found.len),
                Err(_) => Tried::Memory,
            }
        }
        Ok(Status::Partial) => {
            if feeds_in(bytes) < FEEDS_MAX {
                Tried::More
            } else {
                Tried::Never
            }
        }
        Err(_) => Tried::Never,
    }
}

// the head of which this is the text, and these the places of its parts
fn head_of(
    alloc: Global,
    text: &[u8],
    found: &ResponseSpans,
    spans: &[HeaderSpan],
) -> Result<ResponseHead, AllocError>
    requires { All (IsHeaderWithin (length text.now)) spans.now }
    ensures { IfOk result (λ head. head ≡ response_parts_at text.now found.now spans.now) }
{
    Ok(ResponseHead {
        fields: Fields::of(alloc, text, spans)?,
        status: found.code,
        minor: found.version,
    })
}

impl HeadForm for ResponseHead {
    ghost use Rattle.http_wire.specs.Response.{SpellsResponse, HasNoResponseHead, IsHopelessResponse};
    ghost use Rattle.httparse.specs.Grammar.{MayBecomeResponse};

    ghost spells = { SpellsResponse };

    ghost has_none = { HasNoResponseHead };

    ghost is_open = { MayBecomeResponse };

    ghost is_over = { IsHopelessResponse };

    fn try_read(alloc: Global, bytes: &[u8]) -> Tried<ResponseHead> {
        try_head(alloc, bytes)
    }
}

/// Reads the head of a response (RFC 9112, sections 2 to 5), of at most 16,384 bytes and 66 line feeds, as `read_head`
/// reads that of a request.
pub fn read_response_head<S: Source>(
    alloc: Global,
    source: &mut S,
    inbox: &mut Inbox,
) -> HeadRead<ResponseHead>
    ensures bytes { ReadsHead SpellsResponse HasNoResponseHead MayBecomeResponse IsHopelessResponse
        (S.left source.old) (S.left source.new) inbox.old inbox.new result }
    ensures found { FindsHead SpellsResponse (S.left source.old) inbox.old result }
    ensures cause { HasHeadCause (S.faults source.old) (S.faults source.new) result }
{
    gather_head(alloc, source, inbox)
}
