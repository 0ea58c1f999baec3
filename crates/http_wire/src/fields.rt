//! The header fields of a head.

ghost use Rattle.std.specs.Prelude.{◌≡◌, ◌<◌, ◌≤◌, length, map, All, IfOk, Some, slice_get, slice_range};
ghost use Rattle.httparse.specs.Spans.{IsHeaderWithin, header_bytes};
ghost use Rattle.http_wire.specs.Fields.{IsFound, values_of};

use httparse::spans::{HeaderSpan, Span};
use std::alloc::{AllocError, Global};
use std::marker::Model;

/// A header field: its name, and its value without the white space around it (RFC 9110, sections 5.1 and 5.5).
#[derive(Clone, Copy, Debug, PartialEq, Eq)]
pub struct Header<'h> {
    pub name: &'h [u8],
    pub value: &'h [u8],
}

/// The header fields of one name.
#[derive(Clone, Copy, Debug, PartialEq, Eq)]
pub enum Found<'h> {
    /// There is none.
    None,
    /// There is one, with this value.
    One(&'h [u8]),
    /// There are several.
    Many,
}

// A copy of the bytes of a head, and where its header fields stand in it.
#[derive(Drop)]
pub(crate) struct Fields {
    text: Vec<u8>,
    spans: Vec<HeaderSpan>,
}

impl Model for Fields {
    ghost use Rattle.std.specs.Prelude.{All, map};
    ghost use Rattle.std.specs.Vec.{vec_len};
    ghost use Rattle.httparse.specs.Spans.{IsHeaderWithin, header_bytes};
    ghost use Rattle.http_wire.specs.Fields.{FieldsParts};

    ghost Value = { FieldsParts };

    ghost view = { λ f. record { text = f.text.items; headers = map (header_bytes f.text.items) f.spans.items } };

    ghost invariant = { λ f. All (IsHeaderWithin (vec_len f.text)) f.spans.items };
}

impl Fields {
    pub(crate) fn of(alloc: Global, text: &[u8], spans: &[HeaderSpan]) -> Result<Fields, AllocError>
        requires { All (IsHeaderWithin (length text.now)) spans.now }
        ensures { IfOk result
            (λ f. f ≡ record { text = text.now; headers = map (header_bytes text.now) spans.now }) }
    {
        Ok(Fields {
            text: Vec::from_slice(alloc, text)?,
            spans: Vec::from_slice(alloc, spans)?,
        })
    }

    // the bytes of the head that the span covers
    pub(crate) fn part(&self, span: Span) -> &[u8]
        requires ordered { span.start ≤ span.end }
        requires within { span.end ≤ length self.now.text }
        ensures { result.now ≡ slice_range self.now.text span.start span.end }
    {
        span.of(&self.text)
    }

    // how many bytes the head has
    pub(crate) fn size(&self) -> usize
        ensures { result ≡ length self.now.text }
    {
        self.text.len()
    }

    pub(crate) fn len(&self) -> usize
        ensures { result ≡ length self.now.headers }
    {
        self.spans.len()
    }

    pub(crate) fn at(&self, i: usize) -> Header<'_>
        requires { i < length self.now.headers }
        ensures { slice_get self.now.headers i ≡ Some (result.name.now, result.value.now) }
    {
        let span = self.spans[i];
        Header {
            name: span.name.of(&self.text),
            value: span.value.of(&self.text),
        }
    }

    pub(crate) fn value(&self, name: &[u8]) -> Found<'_>
        ensures { IsFound (values_of name.now self.now.headers) result }
    {
        let mut found = None;
        for i in 0..self.len() {
            let header = self.at(i);
            if header.name.eq_ignore_ascii_case(name) {
                match found {
                    None => found = Some(header.value),
                    Some(_) => return Found::Many,
                }
            }
        }
        match found {
            None => Found::None,
            Some(value) => Found::One(value),
        }
    }
}
