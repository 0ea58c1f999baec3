ghost use Rattle.std.specs.Prelude.{◌≡◌};

use crate::view::View;
use atomic_table::Badge;

/// What one thread takes turns with. It has a number, and in the proofs what it has seen and the numbers that belong to
/// it.
#[derive(Drop)]
pub struct Pass<E> {
    pub(crate) number: u32,
    pub(crate) badge: Badge<View<E>>,
}

impl<E> Pass<E> {
    ghost use Rattle.turn_cell.specs.Cell.{number_of};

    /// The pass's number, also while it has a turn.
    pub fn number(&self) -> u32
        ensures { result ≡ number_of self.now }
    {
        self.number
    }
}
