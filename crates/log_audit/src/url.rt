//! URLs as they are written (RFC 3986, section 5.3).

ghost use Rattle.std.specs.Prelude.{◌≡◌, ◌==◌, ◌≤◌, ◌∷◌, IsTrue, bytes_eq, codes, false, length, option_map, take};
ghost use Rattle.std.specs.Char.{to_ascii_lowercase};
ghost use Rattle.std.specs.List.{list_all, list_any};
ghost use Rattle.std.specs.Option.{option_map_or};
ghost use Rattle.listing.specs.Number.{number_of};
ghost use Rattle.targets.specs.Grammar.{is_query_byte};
ghost use Rattle.targets.specs.Target.{is_taken, begins_with_digits};
ghost use Rattle.log_audit.specs.Value.{are_taken, authority_length, behind_scheme, is_authority, is_behind_scheme, is_port, is_port_part, is_url};

use crate::host::host_length;
use listing::read_decimal;

// whether the text is an absolute URL as it is written
#[tactic(auto, unfolding(crate::specs::Value::is_url))]
pub(crate) fn is_url(text: &[u8]) -> bool
    ensures { result ≡ is_url text.now }
{
    match behind_scheme(text) {
        Some(text) => is_behind_scheme(text),
        None => false,
    }
}

// what stands behind `http://` or `https://`
fn behind_scheme(text: &[u8]) -> Option<&[u8]>
    ensures { option_map (λ rest. rest.now) result ≡ behind_scheme text.now }
{
    if begins_with(text, b"http://") {
        Some(&text[7..])
    } else if begins_with(text, b"https://") {
        Some(&text[8..])
    } else {
        None
    }
}

fn begins_with(text: &[u8], word: &[u8]) -> bool
    ensures value { result ≡ bytes_eq (take (length word.now) text.now) word.now }
    ensures within { IsTrue result → length word.now ≤ length text.now }
{
    word.len() <= text.len() && &text[..word.len()] == word
}

// whether the text is what follows the scheme in a URL
fn is_behind_scheme(text: &[u8]) -> bool
    ensures { result ≡ is_behind_scheme text.now }
{
    let length = authority_length(text);
    is_authority(&text[..length])
        && length < text.len()
        && text[length] == b'/'
        && are_taken(&text[length..])
}

// how many bytes stand before the path
fn authority_length(text: &[u8]) -> usize
    ensures length { result ≡ authority_length text.now }
    ensures within { result ≤ length text.now }
{
    text.iter().take_while(|byte| **byte != b'/').count()
}

// a host in lower case, and a port where it is not 80
fn is_authority(text: &[u8]) -> bool
    ensures { result ≡ is_authority text.now }
{
    let length = host_length(text);
    length > 0 && is_lower(&text[..length]) && is_port_part(&text[length..])
}

fn is_lower(text: &[u8]) -> bool
    ensures { result ≡ list_all (λ byte. to_ascii_lowercase byte == byte) text.now }
{
    text.iter().all(|byte| byte.to_ascii_lowercase() == *byte)
}

// nothing, or `:` and a port
fn is_port_part(text: &[u8]) -> bool
    ensures { result ≡ is_port_part text.now }
{
    match text {
        [] => true,
        [first, digits @ ..] => *first == b':' && is_port_text(digits),
    }
}

fn is_port_text(digits: &[u8]) -> bool
    ensures { result ≡ option_map_or is_port (number_of digits.now) false }
{
    match read_decimal(digits) {
        Some(port) => 1 <= port && port <= 65535 && port != 80,
        None => false,
    }
}

// whether each byte is one of a path or a query
fn are_taken(text: &[u8]) -> bool
    ensures { result ≡ are_taken text.now }
{
    'bytes: for (at, byte) in text.iter().enumerate() {
        if !is_taken(*byte, &text[at + 1..]) {
            return false;
        }
    }
    true
}

// whether a path or a query has this byte before these
#[inline]
fn is_taken(byte: u8, bytes: &[u8]) -> bool
    ensures { result ≡ is_taken byte bytes.now }
{
    if byte == b'%' {
        begins_with_digits(bytes)
    } else {
        is_query_byte(byte)
    }
}

// whether two hexadecimal digits stand at the front
fn begins_with_digits(bytes: &[u8]) -> bool
    ensures { result ≡ begins_with_digits bytes.now }
{
    bytes.len() >= 2 && bytes[0].is_ascii_hexdigit() && bytes[1].is_ascii_hexdigit()
}

// a pchar of one byte, `/` or `?` (RFC 3986, section 3.4)
#[inline]
fn is_query_byte(byte: u8) -> bool
    ensures { result ≡ is_query_byte byte }
{
    byte.is_ascii_alphanumeric() || byte == b'/' || is_mark(byte)
}

// another byte than letters, digits and `/`
fn is_mark(byte: u8) -> bool
    ensures { result ≡ list_any (λ mark. byte == mark) (codes "-._~!$&'()*+,;=:@?") }
{
    b"-._~!$&'()*+,;=:@?".contains(&byte)
}
