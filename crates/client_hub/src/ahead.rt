//! What the front of the bytes of a connection is: a head, or what may still become one (RFC 9112, sections 2 to 5).

ghost use Rattle.std.specs.Prelude.{◌≡◌, ◌≤◌, ◌<◌, length, IfSome};
ghost use Rattle.http_wire.specs.declared.limits.TheConstants.{FEEDS_MAX, HEAD_MAX};
ghost use Rattle.client_hub.specs.Ahead.{IsFrontOf, line_feeds};
ghost use Rattle.client_hub.specs.Behind.{is_empty_line};

use http_wire::{FEEDS_MAX, FIELDS_MAX, HEAD_MAX};
use httparse::Status;
use httparse::spans::{EMPTY_HEADER_SPAN, parse_request};
use memchr::memchr;

pub(crate) const LINE_FEED: u8 = 10;

const RETURN: u8 = 13;

/// What the bytes of a connection that came so far are.
#[derive(Clone, Copy, Debug, PartialEq, Eq)]
pub enum Front {
    /// They begin with a head of so many bytes, or with so many bytes that end like one and are none.
    Whole(usize),
    /// They may still become a head within the limits.
    Open,
    /// They never become one.
    Never,
}

/// What these bytes are (RFC 9112, sections 2 to 5).
pub fn front_of(bytes: &[u8]) -> Front
    ensures { IsFrontOf bytes.now result }
{
    if let Some(end) = head_end(bytes) {
        return Front::Whole(end);
    }
    if bytes.is_empty() {
        return Front::Open;
    }
    if bytes.len() >= HEAD_MAX || feeds_in(bytes) >= FEEDS_MAX {
        return Front::Never;
    }
    parsed_front(bytes)
}

// what these bytes are, by the grammar
fn parsed_front(bytes: &[u8]) -> Front
    requires some { 0 < length bytes.now }
    requires short { length bytes.now < HEAD_MAX }
    requires few { line_feeds bytes.now < FEEDS_MAX }
    ensures { IsFrontOf bytes.now result }
{
    let mut spans = [EMPTY_HEADER_SPAN; FIELDS_MAX];
    match parse_request(bytes, &mut spans) {
        Ok(Status::Complete(found)) => Front::Whole(found.len.max(1)),
        Ok(Status::Partial) => Front::Open,
        Err(_) => Front::Never,
    }
}

// where the empty line ends that ends a head, behind the empty lines before it
fn head_end(bytes: &[u8]) -> Option<usize>
    ensures { IfSome result (λ end. (1 ≤ end) × (end ≤ length bytes.now)) }
{
    let mut at = skip_lines(bytes);
    'lines: while at < bytes.len() {
        match line_end(bytes, at) {
            Some(end) => {
                if is_empty_line(&bytes[at..end - 1]) {
                    return Some(end);
                }
                at = end;
            }
            None => return None,
        }
    }
    None
}

// where the line that begins there ends, with its line feed
fn line_end(bytes: &[u8], at: usize) -> Option<usize>
    requires { at ≤ length bytes.now }
    ensures { IfSome result (λ end. (at < end) × (end ≤ length bytes.now)) }
{
    match memchr(LINE_FEED, &bytes[at..]) {
        Some(place) => Some(at + place + 1),
        None => None,
    }
}

// how many bytes of empty lines are in front
fn skip_lines(bytes: &[u8]) -> usize
    ensures { result ≤ length bytes.now }
{
    let mut at = 0;
    'bytes: while at < bytes.len() {
        if bytes[at] != LINE_FEED && bytes[at] != RETURN {
            return at;
        }
        at += 1;
    }
    at
}

// whether nothing, or a carriage return, stands on the line
pub(crate) fn is_empty_line(line: &[u8]) -> bool
    ensures { result ≡ is_empty_line line.now }
{
    line.is_empty() || line == [RETURN].as_slice()
}

// how many line feeds stand in the bytes
fn feeds_in(bytes: &[u8]) -> usize
    ensures { result ≡ line_feeds bytes.now }
{
    bytes.iter().filter(|byte| **byte == LINE_FEED).count()
}
