//! Comma-separated lists in header fields (RFC 9110, section 5.6.1).

ghost use Rattle.std.specs.Prelude.{◌≡◌, ◌+◌, ◌-◌, ◌<◌, ◌≤◌, ℕ, List, length, drop};
ghost use Rattle.std.specs.List.{fold, position, prefix_len, suffix_len};
ghost use Rattle.field_list.specs.List.{is_comma, is_blank, trimmed, items_in, items_of};

use crate::field_lines::FieldLines;

/// `,`
pub const COMMA: u8 = 44;

/// A space.
pub const SPACE: u8 = 32;

/// A horizontal tab.
pub const TAB: u8 = 9;

/// What the items of a list tell, one after the other.
pub trait Told: Drop {
    ghost after: { Self → List ℕ → Self };

    /// The same with one item more.
    fn with(self, item: &[u8]) -> Self
        ensures { result ≡ after self item.now };
}

/// What the items of the lists in all header fields of this name, in any case, tell one after the other, behind `start`.
pub fn told_by<F: FieldLines, T: Told>(head: &F, name: &[u8], start: T) -> T
    ensures { result ≡ fold T.after start (items_of name.now (F.lines head.now)) }
{
    let mut told = start;
    'fields: for i in 0..head.count() {
        let header = head.line(i);
        if header.name.eq_ignore_ascii_case(name) {
            told = told_in(header.value, told);
        }
    }
    told
}

// what the items of this list tell, behind others
fn told_in<T: Told>(value: &[u8], start: T) -> T
    ensures { result ≡ fold T.after start (items_in value.now) }
{
    let mut told = start;
    let mut rest = value;
    'items: loop {
        match comma_in(rest) {
            Some(at) => {
                told = told.with(trimmed(&rest[..at]));
                rest = behind(rest, at);
            }
            None => return told.with(trimmed(rest)),
        }
    }
}

// what stands behind this place
fn behind(text: &[u8], at: usize) -> &[u8]
    requires { at < length text.now }
    ensures { result.now ≡ drop (at + 1) text.now }
{
    &text[at + 1..]
}

// where the first comma is
fn comma_in(text: &[u8]) -> Option<usize>
    ensures { result ≡ position is_comma text.now }
{
    text.iter().position(|byte| *byte == COMMA)
}

// the text without the blanks around it
fn trimmed(text: &[u8]) -> &[u8]
    ensures { result.now ≡ trimmed text.now }
{
    let rest = &text[blanks_before(text)..];
    &rest[..end_of(rest)]
}

// how many blanks stand at the front
fn blanks_before(text: &[u8]) -> usize
    ensures value { result ≡ prefix_len is_blank text.now }
    ensures within { result ≤ length text.now }
{
    let mut count = 0;
    'blanks: while count < text.len() && is_blank(text[count]) {
        count += 1;
    }
    count
}

// where the blanks at the end begin
fn end_of(text: &[u8]) -> usize
    ensures value { result ≡ length text.now - suffix_len is_blank text.now }
    ensures within { result ≤ length text.now }
{
    let mut end = text.len();
    'blanks: while end > 0 && is_blank(text[end - 1]) {
        end -= 1;
    }
    end
}

// a space or a tab (RFC 9110, section 5.6.3)
fn is_blank(byte: u8) -> bool
    ensures { result ≡ is_blank byte }
{
    byte == SPACE || byte == TAB
}
