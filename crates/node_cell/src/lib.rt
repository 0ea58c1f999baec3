//! One node that many passes call, each in its turn: all their calls stand in one history.
#![tactic(auto)]

mod cell;
mod home;
mod made;

pub use cell::NodeCell;
pub use home::CellHome;
pub use made::{MadeNode, MadeWith};
