//! Heads of requests (RFC 9112, sections 2 to 5).

ghost use Rattle.std.specs.Prelude.{◌≡◌, ◌<◌, ◌≤◌, length, All, IfOk, Some, slice_get};
ghost use Rattle.httparse.specs.Grammar.{MayBecomeRequest};
ghost use Rattle.http_wire.specs.Fields.{IsFound, values_of};
ghost use Rattle.httparse.specs.Spans.{IsWithin, IsHeaderWithin};
ghost use Rattle.http_wire.specs.Head.{Spells, HasNoHead, IsHopelessHead, parts_at};
ghost use Rattle.http_wire.specs.Reading.{ReadsHead, FindsHead, HasHeadCause, Tries};
ghost use Rattle.http_wire.specs.declared.limits.TheConstants.{HEAD_MAX};

use crate::fields::{Fields, Found, Header};
use crate::inbox::Inbox;
use crate::limits::{FEEDS_MAX, FIELDS_MAX, HEAD_MAX, exceeds_feeds, feeds_in};
use crate::reading::{HeadForm, HeadRead, Tried, gather_head};
use edge_base::Source;
use httparse::Status;
use httparse::spans::{EMPTY_HEADER_SPAN, HeaderSpan, RequestSpans, Span, parse_request};
use std::alloc::{AllocError, Global};
use std::marker::Model;

/// The head of a request: a copy of its bytes, in which its parts stand. It is seen as these parts.
#[derive(Drop)]
pub struct Head {
    fields: Fields,
    method: Span,
    target: Span,
    minor: u8,
}

impl Model for Head {
    ghost use Rattle.std.specs.Prelude.{length};
    ghost use Rattle.httparse.specs.Spans.{IsWithin, span_bytes};
    ghost use Rattle.http_wire.specs.Head.{HeadParts};

    ghost Value = { HeadParts };

    ghost view = { λ h. record {
      method = span_bytes h.fields.text h.method;
      target = span_bytes h.fields.text h.target;
      minor = h.minor;
      headers = h.fields.headers;
    } };

    ghost invariant = { λ h. IsWithin (length h.fields.text) h.method × IsWithin (length h.fields.text) h.target };
}

impl Head {
    /// The method.
    pub fn method(&self) -> &[u8]
        ensures { result.now ≡ self.now.method }
    {
        self.fields.part(self.method)
    }

    /// The request target, as it was sent.
    pub fn target(&self) -> &[u8]
        ensures { result.now ≡ self.now.target }
    {
        self.fields.part(self.target)
    }

    /// The minor version: 0 or 1.
    pub fn minor(&self) -> u8
        ensures { result ≡ self.now.minor }
    {
        self.minor
    }

    /// How many header fields there are.
    pub fn header_count(&self) -> usize
        ensures { result ≡ length self.now.headers }
    {
        self.fields.len()
    }

    /// Header field `i`, counted from 0.
    pub fn header(&self, i: usize) -> Header<'_>
        requires { i < length self.now.headers }
        ensures { slice_get self.now.headers i ≡ Some (result.name.now, result.value.now) }
    {
        self.fields.at(i)
    }

    /// The value of the header field of this name, in any case: none, exactly one, or several.
    pub fn value(&self, name: &[u8]) -> Found<'_>
        ensures { IsFound (values_of name.now self.now.headers) result }
    {
        self.fields.value(name)
    }
}

// the head at the front of these bytes, if it is there whole
fn try_head(alloc: Global, bytes: &[u8]) -> Tried<Head>
    requires { length bytes.now ≤ HEAD_MAX }
    ensures { Tries Spells HasNoHead MayBecomeRequest IsHopelessHead bytes.now result }
{
    let mut spans = [EMPTY_HEADER_SPAN; FIELDS_MAX];
    match parse_request(bytes, &mut spans) {
        Ok(Status::Complete(found)) => {
            let text = &bytes[..found.len];
            if exceeds_feeds(text) {
                return Tried::Never;
            }
            match head_of(alloc, text, &found, &spans[..found.headers]) {
                Ok(head) => Tried::Whole(head, found.len),
                Err(_) => Tried::Memory,
            }
        }
        Ok(Status::Partial) => {
            if feeds_in(bytes) < FEEDS_MAX {
                Tried::More
            } else {
                Tried::Never
            }
        }
        Err(_) => Tried::Never,
    }
}

// the head of which this is the text, and these the places of its parts
fn head_of(
    alloc: Global,
    text: &[u8],
    found: &RequestSpans,
    spans: &[HeaderSpan],
) -> Result<Head, AllocError>
    requires method { IsWithin (length text.now) found.now.method }
    requires target { IsWithin (length text.now) found.now.path }
    requires fields { All (IsHeaderWithin (length text.now)) spans.now }
    ensures { IfOk result (λ head. head ≡ parts_at text.now found.now spans.now) }
{
    Ok(Head {
        fields: Fields::of(alloc, text, spans)?,
        method: found.method,
        target: found.path,
        minor: found.version,
    })
}

impl HeadForm for Head {
    ghost use Rattle.http_wire.specs.Head.{Spells, HasNoHead, IsHopelessHead};
    ghost use Rattle.httparse.specs.Grammar.{MayBecomeRequest};

    ghost spells = { Spells };

    ghost has_none = { HasNoHead };

    ghost is_open = { MayBecomeRequest };

    ghost is_over = { IsHopelessHead };

    fn try_read(alloc: Global, bytes: &[u8]) -> Tried<Head> {
        try_head(alloc, bytes)
    }
}

/// Reads the head of a request (RFC 9112, sections 2 to 5), of at most 16,384 bytes and 66 line feeds, from what was
/// read ahead and then from the source. What follows it is kept in the inbox. Where no head is answered, all bytes that
/// came are kept there, and `taken` is their number. Where the bytes begin with a head within the limits, no answer
/// comes but it, `ReadFault` and `Memory`.
pub fn read_head<S: Source>(alloc: Global, source: &mut S, inbox: &mut Inbox) -> HeadRead<Head>
    ensures bytes { ReadsHead Spells HasNoHead MayBecomeRequest IsHopelessHead
        (S.left source.old) (S.left source.new) inbox.old inbox.new result }
    ensures found { FindsHead Spells (S.left source.old) inbox.old result }
    ensures cause { HasHeadCause (S.faults source.old) (S.faults source.new) result }
{
    gather_head(alloc, source, inbox)
}
