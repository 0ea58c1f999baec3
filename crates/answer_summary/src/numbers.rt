//! What the numbers are that definitions take from the code: a constant that stands in both could be wrong in both.
//! The function does nothing: its contract gives the numbers.

ghost use Rattle.std.specs.Prelude.{◌≡◌};
ghost use Rattle.answer_summary.specs.declared.summary.TheConstants.{LINE_FEED, SPACE};

/// What ends a line, and what ends its first word.
pub fn numbers_of_answers()
    ensures line_feed { LINE_FEED ≡ 10 }
    ensures space { SPACE ≡ 32 }
{}
