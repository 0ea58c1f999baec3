//! What each step on the table tells its seat, and how seats are cut in two and joined.
use crate::stands::Stands;
use crate::view::View;
use atomic_table::{Join, Play, Split};
use std::marker::{Brand, PhantomData};

/// Draws a ticket.
pub(crate) struct Draw;

impl<V: Stands> Play<Option<V>, View<V::Entry>> for Draw {
    ghost use Rattle.turn_cell.specs.Plays.{drew};

    ghost then = { drew };
}

/// Looks whether the turn has come.
pub(crate) struct Look;

impl<V: Stands> Play<Option<V>, View<V::Entry>> for Look {
    ghost use Rattle.turn_cell.specs.Plays.{looked};

    ghost then = { looked V.stands };
}

/// The history that a value stands for as it is given back. The call picks it.
pub(crate) trait Told<E> {
    ghost use Rattle.std.specs.Prelude.{ℕ, List};

    ghost history: { List (ℕ × E) };
}

impl<E> Told<E> for Brand {
    ghost use Rattle.std.specs.Prelude.{[]};

    ghost history = { [] };
}

/// Passes the turn on.
pub(crate) struct PassOn<J> {
    told: PhantomData<J>,
}

impl<V: Stands, J: Told<V::Entry>> Play<Option<V>, View<V::Entry>> for PassOn<J> {
    ghost use Rattle.turn_cell.specs.Plays.{passed_on};

    ghost then = { passed_on J.history };
}

/// Learns what follows what two joined passes had seen.
pub(crate) struct Learn;

impl<V: Stands> Play<Option<V>, View<V::Entry>> for Learn {
    ghost use Rattle.turn_cell.specs.Plays.{learned};

    ghost then = { learned };
}

/// Cuts a new pass off the maker.
pub(crate) struct CutOff;

impl<E> Split<View<E>> for CutOff {
    ghost use Rattle.turn_cell.specs.View.{without_first, with_first};

    ghost left = { λ v. without_first v };

    ghost right = { λ v. with_first v };
}

/// Makes one pass of two.
pub(crate) struct Merge;

impl<E> Join<View<E>> for Merge {
    ghost use Rattle.turn_cell.specs.View.{joined, spent};

    ghost both = { λ v w. joined v w };

    ghost spent = { spent };
}
