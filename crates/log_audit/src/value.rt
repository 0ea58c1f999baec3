//! The forms of the values of a record (RFC 7937, section 3.4.1).

ghost use Rattle.std.specs.Prelude.{◌≡◌, ◌^◌, ◌&&◌, bytes_eq, codes, drop, false, is_some, nat_lt, take};
ghost use Rattle.std.specs.Char.{is_ascii_digit};
ghost use Rattle.std.specs.List.{list_all};
ghost use Rattle.std.specs.Option.{option_map_or};
ghost use Rattle.listing.specs.Number.{number_of};
ghost use Rattle.cdni_log.specs.Columns.{undoubled};
ghost use Rattle.cdni_log.specs.Field.{is_token_byte};
ghost use Rattle.log_audit.specs.Value.{are_three_digits, has_form, is_group, is_method, is_number, is_optional, is_plain, is_seconds, is_status, is_value, is_quoted, waits_after};

use crate::moment::{is_date, is_time};
use crate::url::is_url;
use cdni_log::Field;
use listing::{cut_at, read_decimal};

// whether the text is a value of the field
pub(crate) fn is_value(field: &Field, text: &[u8]) -> bool
    ensures { result ≡ is_value field.now text.now }
{
    is_plain(text) && has_form(field, text)
}

// whether there is no tab, CR or LF
fn is_plain(text: &[u8]) -> bool
    ensures { result ≡ is_plain text.now }
{
    text.iter()
        .all(|byte| *byte != 9 && *byte != 10 && *byte != 13)
}

#[tactic(auto, unfolding(crate::specs::Value::has_form))]
fn has_form(field: &Field, text: &[u8]) -> bool
    ensures { result ≡ has_form field.now text.now }
{
    match field {
        Field::Date => is_date(text),
        Field::Time => is_time(text),
        Field::TimeTaken => is_seconds(text),
        Field::GroupId => is_group(text),
        Field::Method => is_method(text),
        Field::CsUri | Field::UUri => is_url(text),
        Field::Protocol => is(text, b"HTTP/1.1"),
        Field::Status => is_status(text),
        Field::TotalBytes | Field::EntityBytes => is_number(text),
        Field::Ccid => is_optional(text),
        Field::Cached => is(text, b"0") || is(text, b"1"),
        Field::Header(_) => is_optional(text),
    }
}

fn is(text: &[u8], other: &[u8]) -> bool
    ensures { result ≡ bytes_eq text.now other.now }
{
    text == other
}

fn is_number(text: &[u8]) -> bool
    ensures { result ≡ is_number text.now }
{
    read_decimal(text).is_some()
}

#[tactic(auto, unfolding(crate::specs::Value::is_seconds))]
fn is_seconds(text: &[u8]) -> bool
    ensures { result ≡ is_seconds text.now }
{
    match cut_at(b'.', text) {
        Some((seconds, decimals)) => is_number(seconds) && are_three_digits(decimals),
        None => false,
    }
}

fn are_three_digits(text: &[u8]) -> bool
    ensures { result ≡ are_three_digits text.now }
{
    text.len() == 3 && are_digits(text)
}

fn are_digits(text: &[u8]) -> bool
    ensures { result ≡ list_all is_ascii_digit text.now }
{
    text.iter().all(|byte| byte.is_ascii_digit())
}

#[tactic(auto, unfolding(crate::specs::Value::is_group))]
fn is_group(text: &[u8]) -> bool
    ensures { result ≡ is_group text.now }
{
    is(text, b"-") || is_numbered_group(text)
}

fn is_numbered_group(text: &[u8]) -> bool
    ensures { result ≡ (bytes_eq (take 2 text.now) (codes "as")
        && option_map_or (λ number. nat_lt number (2 ^ 32)) (number_of (drop 2 text.now)) false) }
{
    text.len() >= 2 && is(&text[..2], b"as") && is_group_number(&text[2..])
}

fn is_group_number(text: &[u8]) -> bool
    ensures { result ≡ option_map_or (λ number. nat_lt number (2 ^ 32)) (number_of text.now) false }
{
    match read_decimal(text) {
        Some(number) => number < 4294967296,
        None => false,
    }
}

#[tactic(auto, unfolding(crate::specs::Value::is_method))]
fn is_method(text: &[u8]) -> bool
    ensures { result ≡ is_method text.now }
{
    !text.is_empty() && are_token_bytes(text)
}

fn are_token_bytes(text: &[u8]) -> bool
    ensures { result ≡ list_all is_token_byte text.now }
{
    text.iter().all(|byte| is_token_byte(*byte))
}

fn is_token_byte(byte: u8) -> bool
    ensures { result ≡ is_token_byte byte }
{
    byte.is_ascii_alphanumeric() || b"!#$%&'*+-.^_`|~".contains(&byte)
}

#[tactic(auto, unfolding(crate::specs::Value::is_status))]
fn is_status(text: &[u8]) -> bool
    ensures { result ≡ is_status text.now }
{
    are_three_digits(text) && text.len() == 3 && text[0] >= 49
}

// a text in quotes, or `-`
#[tactic(auto, unfolding(crate::specs::Value::is_optional))]
fn is_optional(text: &[u8]) -> bool
    ensures { result ≡ is_optional text.now }
{
    is(text, b"-") || is_quoted(text)
}

fn is_quoted(text: &[u8]) -> bool
    ensures { result ≡ is_quoted text.now }
{
    if text.len() < 2 {
        return false;
    }
    let last = text.len() - 1;
    is(&text[..1], b"\"") && is(&text[last..], b"\"") && is_doubled(&text[1..last])
}

// whether each `"` stands twice
#[tactic(auto, using(crate::proofs::ValueLemmas::doubled_on, crate::proofs::ValueLemmas::doubled_done))]
fn is_doubled(text: &[u8]) -> bool
    ensures { result ≡ is_some (undoubled false text.now) }
{
    let mut waits = false;
    'bytes: for byte in text {
        match waits_after(waits, *byte) {
            Some(next) => waits = next,
            None => return false,
        }
    }
    !waits
}

// whether a `"` waits for its second after this byte
fn waits_after(waits: bool, byte: u8) -> Option<bool>
    ensures { result ≡ waits_after waits byte }
{
    if !waits {
        Some(byte == b'"')
    } else if byte == b'"' {
        Some(false)
    } else {
        None
    }
}
