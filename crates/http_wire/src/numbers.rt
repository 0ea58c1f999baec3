//! What the numbers are that definitions take from the code: a constant that stands in both could be wrong in both.
//! The function does nothing: its contract gives the numbers.

ghost use Rattle.std.specs.Prelude.{◌≡◌};
ghost use Rattle.http_wire.specs.declared.limits.TheConstants.{LINE_FEED};

/// The line feed, at which a line of a head may end (RFC 9112, section 2.2).
pub fn numbers_of_line_ends()
    ensures line_feed { LINE_FEED ≡ 10 }
{}
