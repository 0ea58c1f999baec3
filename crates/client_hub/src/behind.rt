//! What follows a head: how many bytes of a body, and whether the connection ends behind it (RFC 9112, sections 6 and
//! 9.6).

ghost use Rattle.std.specs.Prelude.{◌≡◌, ◌∷◌, ◌||◌, ◌&&◌, not, [], codes, IfNone, IfSome};
ghost use Rattle.http_wire.specs.Fields.{is_name};
ghost use Rattle.client_hub.specs.Behind.{lines_of, head_lines, fields_of, body_of, asks_for_end, is_close, says_close, trimmed};
ghost use Rattle.client_hub.specs.Behind.{says_old_version, body_behind, ends_behind, body_with, with_field, with_line};
ghost use Rattle.client_hub.specs.Behind.{says_continue, asks_for_word, expects_behind};

use crate::ahead::{LINE_FEED, is_empty_line};
use listing::{cut_at, read_digits};

/// What follows a head.
#[derive(Clone, Copy, Debug, PartialEq, Eq)]
pub struct Behind {
    /// How many bytes of a body; none where that is not told so.
    pub body: Option<u64>,
    /// Whether the client asked for the end of the connection.
    pub last: bool,
    /// Whether the client waits for word that it may send the body (RFC 9110, section 10.1.1).
    pub expects: bool,
}

// what the fields of a head told so far
#[derive(Clone, Copy)]
struct Told {
    body: Option<u64>,
    // whether a length or a coding was told
    framed: bool,
    last: bool,
    expects: bool,
}

/// What follows this head (RFC 9112, section 6). Where the length of its body is told twice, or not in digits, or in another
/// way, none is known.
pub fn what_follows(head: &[u8]) -> Behind
    ensures body { result.body ≡ body_behind head.now }
    ensures last { result.last ≡ ends_behind head.now }
    ensures expects { result.expects ≡ expects_behind head.now }
{
    match request_line(head) {
        Some((line, fields)) => told_by(says_old_version(line), fields),
        None => Behind {
            body: Some(0),
            last: true,
            expects: false,
        },
    }
}

// the first line that is not empty, and what stands behind it
fn request_line(head: &[u8]) -> Option<(&[u8], &[u8])>
    ensures some { IfSome result (λ parts. head_lines (lines_of head.now) ≡ parts.0.now ∷ lines_of parts.1.now) }
    ensures none { IfNone result (head_lines (lines_of head.now) ≡ []) }
{
    let mut rest = head;
    'lines: loop {
        match cut_at(LINE_FEED, rest) {
            Some((line, others)) => {
                if !is_empty_line(line) {
                    return Some((line, others));
                }
                rest = others;
            }
            None => return None,
        }
    }
}

// what the fields of these lines tell behind a request line that says whether the connection ends
fn told_by(last: bool, fields: &[u8]) -> Behind
    ensures body { result.body ≡ body_of (fields_of (lines_of fields.now)) }
    ensures last { result.last ≡ (last || asks_for_end (fields_of (lines_of fields.now))) }
    ensures expects { result.expects ≡ (asks_for_word (fields_of (lines_of fields.now)) && not last) }
{
    let mut told = Told {
        body: Some(0),
        framed: false,
        last,
        expects: false,
    };
    let mut rest = fields;
    'lines: loop {
        match cut_at(LINE_FEED, rest) {
            Some((line, others)) => {
                told = with_line(told, line);
                rest = others;
            }
            None => {
                return behind_of(told, last);
            }
        }
    }
}

// what follows where so much is told, and the request line says whether the version is the old one
fn behind_of(told: Told, old: bool) -> Behind
    ensures { result ≡ record { body = told.body; last = told.last; expects = told.expects && not old } }
{
    Behind {
        body: told.body,
        last: told.last,
        expects: told.expects && !old,
    }
}

// what is told with one line more
fn with_line(told: Told, line: &[u8]) -> Told
    ensures { result ≡ with_line told line.now }
{
    match cut_at(b':', line) {
        Some((name, value)) => with_field(told, name, value),
        None => told,
    }
}

// what is told with one field more
fn with_field(told: Told, name: &[u8], value: &[u8]) -> Told
    ensures { result ≡ with_field told (name.now, value.now) }
{
    let is_length = is_name(name, b"content-length");
    let is_coding = is_name(name, b"transfer-encoding");
    Told {
        body: body_with(told, is_length, is_coding, value),
        framed: told.framed || (is_length || is_coding),
        last: told.last || (is_name(name, b"connection") && says_close(value)),
        expects: told.expects || (is_name(name, b"expect") && says_continue(value)),
    }
}

// the length that is told with one field more
fn body_with(told: Told, is_length: bool, is_coding: bool, value: &[u8]) -> Option<u64>
    ensures { result ≡ body_with told is_length is_coding value.now }
{
    if is_coding {
        return None;
    }
    if !is_length {
        return told.body;
    }
    if told.framed {
        None
    } else {
        read_digits(trimmed(value))
    }
}

// whether both are the same name, in any case
fn is_name(name: &[u8], word: &[u8]) -> bool
    ensures { result ≡ is_name word.now (name.now, []) }
{
    name.eq_ignore_ascii_case(word)
}

// whether the line of a request ends with `HTTP/1.0`
fn says_old_version(line: &[u8]) -> bool
    ensures { result ≡ says_old_version line.now }
{
    trimmed(line).ends_with(b"HTTP/1.0")
}

// whether one of the options is `close`
fn says_close(options: &[u8]) -> bool
    ensures { result ≡ says_close options.now }
{
    let mut rest = options;
    'options: loop {
        match cut_at(b',', rest) {
            Some((option, others)) => {
                if is_close(option) {
                    return true;
                }
                rest = others;
            }
            None => return is_close(rest),
        }
    }
}

// whether this option is `close`
fn is_close(option: &[u8]) -> bool
    ensures { result ≡ is_close option.now }
{
    trimmed(option).eq_ignore_ascii_case(b"close")
}

// whether `100-continue` is expected
fn says_continue(value: &[u8]) -> bool
    ensures { result ≡ says_continue value.now }
{
    trimmed(value).eq_ignore_ascii_case(b"100-continue")
}

// without blanks at its ends
pub(crate) fn trimmed(text: &[u8]) -> &[u8]
    ensures { result.now ≡ trimmed text.now }
{
    text.trim_ascii()
}
