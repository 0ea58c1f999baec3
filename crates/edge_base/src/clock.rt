//! A clock.

ghost use Rattle.std.specs.Prelude.{ℕ, List, [], ◌∷◌};
ghost use Rattle.std.specs.declared.option.Option.{Option};
ghost use Rattle.edge_base.specs.Clock.{Grows};

use listing::Moment;

/// Readings of the time of day.
///
/// What it gave may be told, as of a clock in memory, or not, as of the wall clock.
pub trait Clock: Drop {
    ghost given: { Self → Option (List ℕ) };

    /// The moment of this call. It never fails, and moments need not rise.
    fn now(&mut self) -> Moment
        ensures told { Grows (given self.old) (given self.new) (result ∷ []) };
}
