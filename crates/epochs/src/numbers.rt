//! What the numbers are that definitions take from the code: a constant that stands in both could be wrong in both.
//! The function does nothing: its contract gives the numbers.

ghost use Rattle.std.specs.Prelude.{◌≡◌};
ghost use Rattle.epochs.specs.declared.chains.TheConstants.{BUCKETS};

/// How many chains the starts stand in.
pub fn numbers_of_sizes()
    ensures buckets { BUCKETS ≡ 4096 }
{}
