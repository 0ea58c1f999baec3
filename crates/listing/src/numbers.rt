//! What the numbers are that definitions take from the code: a constant that stands in both could be wrong in both.
//! The function does nothing: its contract gives the numbers.

ghost use Rattle.std.specs.Prelude.{◌≡◌};
ghost use Rattle.listing.specs.declared.short_bytes.TheConstants.{SHORT_MAX};

/// The longest text whose bytes stand in place.
pub fn numbers_of_sizes()
    ensures short_max { SHORT_MAX ≡ 16 }
{}
