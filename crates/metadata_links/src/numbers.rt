//! What the numbers are that definitions take from the code: a constant that stands in both could be wrong in both.
//! The function does nothing: its contract gives the numbers.

ghost use Rattle.std.specs.Prelude.{◌≡◌};
ghost use Rattle.metadata_links.specs.declared.finding.TheConstants.{LEVELS_MAX};

/// How many PathMatch objects that hold a Link may nest, at the most.
pub fn numbers_of_links()
    ensures levels_max { LEVELS_MAX ≡ 127 }
{}
