//! Reading the clock.

ghost use Rattle.std.specs.Prelude.{◌≡◌, ◌<◌, ℕ, [], ◌∷◌};
ghost use Rattle.cdni_base.specs.declared.date.TheConstants.{DATE_END};
ghost use Rattle.edge_base.specs.Clock.{Grows};
ghost use Rattle.session_base.specs.Moment.{capped};

use cdni_base::{DATE_END, Moment};
use edge_base::Clock;

/// The moment of the clock; one past the year 9999 counts as the last of that year.
pub fn read_clock<C: Clock>(clock: &mut C) -> Moment
    ensures read { (read : ℕ) × Grows (C.given clock.old) (C.given clock.new) (read ∷ []) × (result ≡ capped read) }
    ensures within { result < DATE_END }
{
    clock.now().min(DATE_END - 1)
}
