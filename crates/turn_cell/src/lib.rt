//! A lock with a history. Threads take turns at one value, each with a pass of its own.
//! The value stands for a list of entries, each with the number of the pass that made it, oldest first: the history.
//! A pass keeps what it has seen, which is a beginning of that one history and has all entries of its own.
//!
//! The rule between any two atomic steps is `Kept` of specs/Rule.antt. Nothing is said of waiting, fairness or
//! progress.
#![tactic(auto)]

mod cell;
mod diary;
mod laws;
mod list;
mod pass;
mod plays;
mod stands;
mod turn;
mod view;

pub use cell::TurnCell;
pub use diary::{Diary, note};
pub use laws::rule_of_a_cell;
pub use list::PassList;
pub use pass::Pass;
pub use stands::Stands;
pub use turn::Turn;
