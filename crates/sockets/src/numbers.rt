//! What the numbers are that definitions take from the code: a constant that stands in both could be wrong in both.
//! The function does nothing: its contract gives the numbers.

ghost use Rattle.std.specs.Prelude.{◌≡◌};
ghost use Rattle.sockets.specs.declared.pace.TheConstants.{STEP_BYTES};

/// How many bytes that moved give a slow peer one step of time more.
pub fn numbers_of_paces()
    ensures step_bytes { STEP_BYTES ≡ 65536 }
{}
