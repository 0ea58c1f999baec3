//! Heads of answers (RFC 9112, sections 4 and 5).

ghost use Rattle.std.specs.Prelude.{◌≡◌, ◌+◌, ◌<◌, ◌≤◌, ◌/◌, ◌++◌, true, length, IsTrue, codes, decimal};
ghost use Rattle.byte_range.specs.Put.{PutsFront, range_text};
ghost use Rattle.cdni_base.specs.Scratch.{Puts};
ghost use Rattle.cdni_base.specs.declared.date.TheConstants.{DATE_END};
ghost use Rattle.answer_head.specs.declared.answer.TheConstants.{ANSWER_HEAD_MAX};
ghost use Rattle.httpdate.specs.Date.{unix_secs, date_text};
ghost use Rattle.httpdate.specs.declared.date.HttpDate.{HttpDate as Date};
ghost use Rattle.answer_head.specs.Answer.{Adds, Fits, is_answer_status, status_line, field_line, date_line, length_line, kind_line, ranges_line, content_range_text, content_range_line, allow_text, allow_line, close_line, made_path, place_text, location_line, kind_line_of, head_text, message_lines, range_lines, link_lines};

use byte_range::put_range;
use cdni_base::{DATE_END, HostName, Moment, Scratch, TypeName};
use httpdate::HttpDate;

/// The most bytes of the head of an answer: by the bounds of its parts it has fewer.
pub const ANSWER_HEAD_MAX: usize = 2048;

/// `0`
pub const DIGIT_ZERO: u8 = 48;

/// The value of Content-Range (RFC 9110, section 14.4), in bytes.
#[derive(Clone, Copy, Debug, PartialEq, Eq)]
pub enum ContentRange {
    /// The part from one position to another of a body of this length.
    Part { first: u64, last: u64, len: u64 },
    /// No part of a body of this length.
    None { len: u64 },
}

/// The value of Allow (RFC 9110, section 10.2.1).
#[derive(Clone, Copy, Debug, PartialEq, Eq)]
pub enum Allow {
    /// The methods of content: GET and HEAD.
    Content,
    /// The methods of control: GET, POST and DELETE.
    Control,
}

/// What a control request made.
#[derive(Clone, Copy, Debug, PartialEq, Eq)]
pub enum Made {
    /// A trigger.
    Trigger,
    /// A log file.
    LogFile,
}

/// The value of Location (RFC 9110, section 10.2.2): where something that was made stands.
#[derive(Clone, Copy)]
pub struct Location<'a> {
    pub host: &'a HostName,
    pub made: Made,
    pub number: u64,
}

/// The head of an answer.
#[derive(Drop)]
pub struct AnswerHead<'a> {
    /// The status: 200, 201, 204, 206, 400, 403, 404, 405, 410, 411, 413, 416, 502 or 503.
    pub status: u16,
    /// The moment of Date.
    pub moment: Moment,
    /// Content-Length, in bytes.
    pub length: Option<u64>,
    /// Content-Type, left out where it is empty too.
    pub kind: Option<&'a TypeName>,
    /// Whether ranges of bytes are accepted.
    pub ranges: bool,
    pub content_range: Option<ContentRange>,
    pub allow: Option<Allow>,
    pub location: Option<Location<'a>>,
    /// Whether the connection closes behind the answer.
    pub close: bool,
}

/// Puts the head of an answer: the status line, Date, Content-Length, Content-Type, Accept-Ranges, Content-Range,
/// Allow, Location and Connection, as far as they are there, and the empty line. False exactly where it does not fit;
/// then nothing changes. It fits where there is room for 2,048 bytes.
pub fn put_head(out: &mut Scratch, head: &AnswerHead<'_>) -> bool
    requires moment { head.now.moment < DATE_END }
    requires status { IsTrue (is_answer_status head.now.status) }
    ensures text { (date : Date) × (unix_secs date ≡ head.now.moment / 1000)
        × Puts out.old out.new (head_text head.now date) result }
    ensures fits { length out.old.text + ANSWER_HEAD_MAX ≤ out.old.room → result ≡ true }
{
    let before = out.bytes().len();
    match HttpDate::from_unix_secs(head.moment / 1000) {
        Ok(date) => {
            if put_lines(out, head, &date) {
                return true;
            }
            out.truncate(before);
            false
        }
        Err(_) => unreachable!(),
    }
}

#[tactic(auto, unfolding(crate::specs::Answer::head_text))]
// puts the lines of the head, as far as they fit
fn put_lines(out: &mut Scratch, head: &AnswerHead<'_>, date: &HttpDate) -> bool
    requires { IsTrue (is_answer_status head.now.status) }
    ensures text { PutsFront out.old out.new (head_text head.now date.now) result }
    ensures short { Fits 712 out.old out.new result }
{
    put_message_lines(out, head, date) && put_range_lines(out, head) && put_link_lines(out, head)
}

// puts the status line, Date, Content-Length and Content-Type
fn put_message_lines(out: &mut Scratch, head: &AnswerHead<'_>, date: &HttpDate) -> bool
    requires { IsTrue (is_answer_status head.now.status) }
    ensures text { Adds out.old out.new (message_lines head.now date.now) result }
    ensures short { Fits 254 out.old out.new result }
{
    out.append(status_text(head.status))
        && put_date_line(out, date)
        && put_length(out, head.length)
        && put_kind(out, head.kind)
}

// puts Accept-Ranges and Content-Range
fn put_range_lines(out: &mut Scratch, head: &AnswerHead<'_>) -> bool
    ensures text { Adds out.old out.new (range_lines head.now) result }
    ensures short { Fits 107 out.old out.new result }
{
    put_ranges(out, head.ranges) && put_content_range(out, head.content_range)
}

// puts Allow, Location and Connection, and the empty line
fn put_link_lines(out: &mut Scratch, head: &AnswerHead<'_>) -> bool
    ensures text { PutsFront out.old out.new (link_lines head.now) result }
    ensures short { Fits 351 out.old out.new result }
{
    put_allow(out, head.allow)
        && put_location(out, &head.location)
        && put_close(out, head.close)
        && out.append(b"\r\n")
}

// the status line
fn status_text(status: u16) -> &'static [u8]
    requires { IsTrue (is_answer_status status) }
    ensures text { result.now ≡ status_line status }
    ensures short { length result.now ≤ 36 }
{
    match status {
        200 => b"HTTP/1.1 200 OK\r\n",
        201 => b"HTTP/1.1 201 Created\r\n",
        204 => b"HTTP/1.1 204 No Content\r\n",
        206 => b"HTTP/1.1 206 Partial Content\r\n",
        400 => b"HTTP/1.1 400 Bad Request\r\n",
        403 => b"HTTP/1.1 403 Forbidden\r\n",
        404 => b"HTTP/1.1 404 Not Found\r\n",
        405 => b"HTTP/1.1 405 Method Not Allowed\r\n",
        410 => b"HTTP/1.1 410 Gone\r\n",
        411 => b"HTTP/1.1 411 Length Required\r\n",
        413 => b"HTTP/1.1 413 Content Too Large\r\n",
        416 => b"HTTP/1.1 416 Range Not Satisfiable\r\n",
        502 => b"HTTP/1.1 502 Bad Gateway\r\n",
        503 => b"HTTP/1.1 503 Service Unavailable\r\n",
        _ => unreachable!(),
    }
}

// puts a text and the end of its line
fn put_line(out: &mut Scratch, name: &[u8], value: &[u8]) -> bool
    ensures text { Adds out.old out.new (name.now ++ value.now ++ codes "\r\n") result }
    ensures short { Fits (length name.now + length value.now + 2) out.old out.new result }
{
    out.append(name) && out.append(value) && out.append(b"\r\n")
}

// puts a number, of at most 20 digits
fn put_number(out: &mut Scratch, number: u64) -> bool
    ensures text { Puts out.old out.new (decimal number) result }
    ensures short { Fits 20 out.old out.new result }
{
    out.append_number(number)
}

// puts a part of a body
fn put_part(out: &mut Scratch, first: u64, last: u64, len: u64) -> bool
    ensures text { Puts out.old out.new (range_text first last len) result }
    ensures short { Fits 68 out.old out.new result }
{
    put_range(out, first, last, len)
}

// puts a number and the end of its line
fn put_number_line(out: &mut Scratch, name: &[u8], number: u64) -> bool
    ensures text { Adds out.old out.new (name.now ++ decimal number ++ codes "\r\n") result }
    ensures short { Fits (length name.now + 22) out.old out.new result }
{
    out.append(name) && put_number(out, number) && out.append(b"\r\n")
}

#[tactic(auto, unfolding(crate::specs::Answer::length_line))]
fn put_length(out: &mut Scratch, length: Option<u64>) -> bool
    ensures text { Adds out.old out.new (length_line length) result }
    ensures short { Fits 38 out.old out.new result }
{
    match length {
        Some(length) => put_number_line(out, b"Content-Length: ", length),
        None => true,
    }
}

#[tactic(auto, unfolding(crate::specs::Answer::kind_line))]
fn put_kind_text(out: &mut Scratch, kind: &[u8]) -> bool
    ensures text { Adds out.old out.new (kind_line kind.now) result }
    ensures short { Fits (length kind.now + 16) out.old out.new result }
{
    if kind.is_empty() {
        return true;
    }
    put_line(out, b"Content-Type: ", kind)
}

fn put_kind(out: &mut Scratch, kind: Option<&TypeName>) -> bool
    ensures text { Adds out.old out.new (kind_line_of kind.entry) result }
    ensures short { Fits 143 out.old out.new result }
{
    match kind {
        Some(kind) => put_kind_text(out, kind.bytes()),
        None => true,
    }
}

#[tactic(auto, unfolding(crate::specs::Answer::ranges_line))]
fn put_ranges(out: &mut Scratch, ranges: bool) -> bool
    ensures text { Adds out.old out.new (ranges_line ranges) result }
    ensures short { Fits 22 out.old out.new result }
{
    if ranges {
        return put_line(out, b"Accept-Ranges: ", b"bytes");
    }
    true
}

// puts the text of a part, or that of none
fn put_range_value(out: &mut Scratch, range: ContentRange) -> bool
    ensures text { Adds out.old out.new (content_range_text range) result }
    ensures short { Fits 68 out.old out.new result }
{
    match range {
        ContentRange::Part { first, last, len } => put_part(out, first, last, len),
        ContentRange::None { len } => out.append(b"bytes */") && put_number(out, len),
    }
}

// puts the name of the field, such a text and the end of the line
fn put_range_field(out: &mut Scratch, range: ContentRange) -> bool
    ensures text { Adds out.old out.new (codes "Content-Range: " ++ content_range_text range ++ codes "\r\n") result }
    ensures short { Fits 85 out.old out.new result }
{
    out.append(b"Content-Range: ") && put_range_value(out, range) && out.append(b"\r\n")
}

#[tactic(auto, unfolding(crate::specs::Answer::content_range_line))]
fn put_content_range(out: &mut Scratch, range: Option<ContentRange>) -> bool
    ensures text { Adds out.old out.new (content_range_line range) result }
    ensures short { Fits 85 out.old out.new result }
{
    match range {
        Some(range) => put_range_field(out, range),
        None => true,
    }
}

#[tactic(auto, unfolding(crate::specs::Answer::allow_line))]
fn put_allow(out: &mut Scratch, allow: Option<Allow>) -> bool
    ensures text { Adds out.old out.new (allow_line allow) result }
    ensures short { Fits 26 out.old out.new result }
{
    match allow {
        Some(Allow::Content) => put_line(out, b"Allow: ", b"GET, HEAD"),
        Some(Allow::Control) => put_line(out, b"Allow: ", b"GET, POST, DELETE"),
        None => true,
    }
}

#[tactic(auto, unfolding(crate::specs::Answer::close_line))]
fn put_close(out: &mut Scratch, close: bool) -> bool
    ensures text { Adds out.old out.new (close_line close) result }
    ensures short { Fits 19 out.old out.new result }
{
    if close {
        return put_line(out, b"Connection: ", b"close");
    }
    true
}

#[tactic(auto, unfolding(crate::specs::Answer::date_line))]
fn put_date_line(out: &mut Scratch, date: &HttpDate) -> bool
    ensures text { Adds out.old out.new (date_line date.now) result }
    ensures short { Fits 37 out.old out.new result }
{
    put_line(out, b"Date: ", &date.to_bytes())
}

// puts `http://HOST`, the path and the number
fn put_place(out: &mut Scratch, location: &Location<'_>) -> bool
    ensures text { Adds out.old out.new (place_text location.now) result }
    ensures short { Fits 292 out.old out.new result }
{
    out.append(b"http://")
        && out.append(location.host.bytes())
        && out.append(made_path(location.made))
        && put_number(out, location.number)
}

fn made_path(made: Made) -> &'static [u8]
    ensures text { result.now ≡ made_path made }
    ensures short { length result.now ≤ 10 }
{
    match made {
        Made::Trigger => b"/triggers/",
        Made::LogFile => b"/logs/",
    }
}

// puts the name of the field, such a place and the end of the line
fn put_place_line(out: &mut Scratch, location: &Location<'_>) -> bool
    ensures text { Adds out.old out.new (codes "Location: " ++ place_text location.now ++ codes "\r\n") result }
    ensures short { Fits 304 out.old out.new result }
{
    out.append(b"Location: ") && put_place(out, location) && out.append(b"\r\n")
}

fn put_location(out: &mut Scratch, location: &Option<Location<'_>>) -> bool
    ensures text { Adds out.old out.new (location_line location.now) result }
    ensures short { Fits 304 out.old out.new result }
{
    match location {
        Some(location) => put_place_line(out, location),
        None => true,
    }
}
