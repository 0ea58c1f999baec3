// What part of a body answers a range.
ghost use Rattle.std.specs.Prelude.{◌≡◌, ℕ, List, length};
ghost use Rattle.byte_range.specs.Span.{span_of, IsAnswer, part_of, slice};

use crate::want::Want;

/// What is sent of a body: the whole, a part by its first and its last position, or nothing, since no position of the
/// body is asked for.
#[derive(Clone, Copy, Debug, PartialEq, Eq)]
pub enum Span {
    Whole,
    Part { first: u64, last: u64 },
    Unsatisfiable,
}

/// What is sent of a body of `len` bytes (RFC 9110, sections 14.1.2 and 15.5.17).
pub fn resolve(want: Want, len: u64) -> Span
    ensures value { result ≡ span_of want len }
    ensures answer { IsAnswer want len result }
    ensures slice { (body : List ℕ) → length body ≡ len → part_of body result ≡ slice body want }
{
    match want {
        Want::All => Span::Whole,
        Want::From {
            last: Some(last),
            first,
        } if last < first => Span::Whole,
        Want::From { first, .. } if first >= len => Span::Unsatisfiable,
        Want::From { first, last } => Span::Part {
            first,
            last: last.unwrap_or(u64::MAX).min(len - 1),
        },
        Want::Last { count: 0 } => Span::Unsatisfiable,
        Want::Last { .. } if len == 0 => Span::Whole,
        Want::Last { count } => Span::Part {
            first: len.saturating_sub(count),
            last: len - 1,
        },
    }
}
