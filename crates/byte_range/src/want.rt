// What the value of a Range header asks for.
ghost use Rattle.std.specs.Prelude.{◌≡◌, position};
ghost use Rattle.std.specs.Str.{all_ascii_digits};
ghost use Rattle.byte_range.specs.Want.{Reads, number_of, range_of, is_dash, set_of, has_unit, want_of};

/// What is asked for: all, the positions from the first to the last or to the end, or the last so many bytes.
#[derive(Clone, Copy, Debug, PartialEq, Eq)]
pub enum Want {
    All,
    From { first: u64, last: Option<u64> },
    Last { count: u64 },
}

/// The number that one or more decimal digits write; zeros may lead. `None` where the text is something else. A number
/// above 2^64 - 1 counts as that.
pub fn number_of(digits: &[u8]) -> Option<u64>
    ensures { result ≡ number_of digits.now }
{
    if digits.is_empty() {
        return None;
    }
    let mut number = 0u64;
    'digits: for digit in digits {
        if !digit.is_ascii_digit() {
            return None;
        }
        number = number
            .saturating_mul(10)
            .saturating_add(u64::from(*digit - b'0'));
    }
    Some(number)
}

// The range with these texts before and after its `-`.
fn range_of(first: &[u8], last: &[u8]) -> Want
    ensures { result ≡ range_of first.now last.now }
{
    if first.is_empty() {
        return match number_of(last) {
            Some(count) => Want::Last { count },
            None => Want::All,
        };
    }
    if last.is_empty() {
        return match number_of(first) {
            Some(first) => Want::From { first, last: None },
            None => Want::All,
        };
    }
    match (number_of(first), number_of(last)) {
        (Some(first), Some(last)) if first <= last => Want::From {
            first,
            last: Some(last),
        },
        _ => Want::All,
    }
}

// Whether the text begins with the unit, in any case.
fn has_unit(header: &[u8]) -> bool
    ensures { result ≡ has_unit header.now }
{
    header.len() >= 6 && header[..6].eq_ignore_ascii_case(b"bytes=")
}

// Where the first `-` is.
fn dash_in(set: &[u8]) -> Option<usize>
    ensures { result ≡ position is_dash set.now }
{
    set.iter().position(|byte| *byte == b'-')
}

// What stands behind the unit.
fn set_of(set: &[u8]) -> Want
    ensures { result ≡ set_of set.now }
{
    match dash_in(set) {
        Some(dash) => range_of(&set[..dash], &set[dash + 1..]),
        None => Want::All,
    }
}

/// What the value of a Range header asks for (RFC 9110, section 14.2): `bytes=` in any case, and then `FIRST-LAST`,
/// `FIRST-` or `-COUNT` in decimal digits. Everything else asks for all, also several ranges, another unit, and a last
/// position below the first. Numbers above 2^64 - 1 count as that.
pub fn read(header: &[u8]) -> Want
    ensures grammar { Reads header.now result }
    ensures value { result ≡ want_of header.now }
{
    if has_unit(header) {
        set_of(&header[6..])
    } else {
        Want::All
    }
}
