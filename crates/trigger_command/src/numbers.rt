//! What the numbers are that definitions take from the code: a constant that stands in both could be wrong in both.
//! The function does nothing: its contract gives the numbers.

ghost use Rattle.std.specs.Prelude.{◌≡◌};
ghost use Rattle.trigger_command.specs.declared.reading.TheConstants.{PATTERN_MAX};

/// The longest pattern of a command, in bytes.
pub fn numbers_of_commands()
    ensures pattern_max { PATTERN_MAX ≡ 1024 }
{}
