//! What the numbers are that definitions take from the code: a constant that stands in both could be wrong in both.
//! The function does nothing: its contract gives the numbers.

ghost use Rattle.std.specs.Prelude.{◌≡◌};
ghost use Rattle.client_hub.specs.declared.ahead.TheConstants.{LINE_FEED, RETURN};
ghost use Rattle.client_hub.specs.declared.message.TheConstants.{BODY_MAX};

/// The line feed and the carriage return of a head, and the longest body that is gathered.
pub fn numbers_of_messages()
    ensures line_feed { LINE_FEED ≡ 10 }
    ensures carriage_return { RETURN ≡ 13 }
    ensures body { BODY_MAX ≡ 1048576 }
{}
