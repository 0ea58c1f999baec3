//! Lines of a text.

ghost use Rattle.std.specs.Prelude.{◌≡◌, ◌+◌, ◌<◌, ◌≤◌, ◌∷◌, bytes_eq, drop, length, option_map, take, IfSome};
ghost use Rattle.log_audit.specs.Lines.{IsCutOff, IsFramed, parts_in};

use listing::cut_at;

// what stands between two values of a record
pub(crate) const TAB: u8 = 9;

// the first line with its LF, which the last line may lack, and what follows it
pub(crate) fn first_line(text: &[u8]) -> (&[u8], &[u8])
    requires { 0 < length text.now }
    ensures { IsCutOff text.now result.0.now result.1.now }
{
    let end = end_of_line(text);
    (&text[..end], &text[end..])
}

// how many bytes the first line has, with its LF
fn end_of_line(text: &[u8]) -> usize
    requires { 0 < length text.now }
    ensures within { result ≤ length text.now }
    ensures cut { IsCutOff text.now (take result text.now) (drop result text.now) }
{
    match cut_at(b'\n', text) {
        Some((before, _)) => before.len() + 1,
        None => text.len(),
    }
}

// what stands between these two pieces of the line, where it has them at its ends
pub(crate) fn framed<'a>(front: &[u8], back: &[u8], line: &'a [u8]) -> Option<&'a [u8]>
    requires { length front.now + length back.now ≤ 100 }
    ensures { IsFramed front.now back.now line.now (option_map (λ middle. middle.now) result) }
{
    if line.len() < front.len() + back.len() {
        return None;
    }
    let end = line.len() - back.len();
    if !is(&line[..front.len()], front) {
        return None;
    }
    if !is(&line[end..], back) {
        return None;
    }
    Some(&line[front.len()..end])
}

pub(crate) fn is(text: &[u8], other: &[u8]) -> bool
    ensures { result ≡ bytes_eq text.now other.now }
{
    text == other
}

// the first of the values, and the others, where there are any
pub(crate) fn first_value(values: &[u8]) -> (&[u8], Option<&[u8]>)
    ensures values { parts_in (Some values.now) ≡ result.0.now ∷ parts_in (option_map (λ bytes. bytes.now) result.1) }
    ensures shorter { IfSome result.1 (λ others. length others.now < length values.now) }
{
    match cut_at(TAB, values) {
        Some((value, others)) => (value, Some(others)),
        None => (values, None),
    }
}
