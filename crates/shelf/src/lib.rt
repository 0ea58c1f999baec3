//! What a node keeps of what its fetches brought, and the fetches that are open: what the starts of triggers take back
//! is told by their epochs, so that a start goes through none of these.
#![tactic(auto)]

mod kept_shelf;
mod open;

pub use kept_shelf::{Flight, Shelf};
pub use open::{Named, Open};
