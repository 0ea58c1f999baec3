//! What each seat at the table knows, and the rule. A seat is a pass, or the maker, which has the numbers that no pass
//! has yet.
use crate::stands::Stands;
use atomic_table::TableRule;
use std::collections::LinkedList;

/// What a seat is doing. A number of it counts tickets and has no end.
pub enum Stage<E> {
    /// It makes the passes.
    Making,
    /// It has no ticket.
    Resting,
    /// It has drawn this ticket.
    Waiting(u64),
    /// It has the turn, by this ticket.
    Serving(u64),
    /// It was made of two passes, with these numbers and with this seen.
    Joined(LinkedList<u32>, LinkedList<(u32, E)>, LinkedList<u32>, LinkedList<(u32, E)>),
}

/// What a seat knows. No value of it is made.
pub struct View<E> {
    /// How many passes the cell was made with.
    pub passes: u32,
    /// The numbers that belong to the seat.
    pub numbers: LinkedList<u32>,
    /// The beginning of the history that it has seen.
    pub seen: LinkedList<(u32, E)>,
    pub stage: Stage<E>,
}

/// The rule of a cell, whose key is how many passes it was made with.
pub struct TurnRule;

impl<V: Stands> TableRule<Option<V>, View<V::Entry>, u32> for TurnRule {
    ghost use Rattle.turn_cell.specs.View.{maker};
    ghost use Rattle.turn_cell.specs.Rule.{Kept};

    ghost holds = { λ passes. Kept V.stands passes };

    ghost first = { λ passes. maker passes };
}
