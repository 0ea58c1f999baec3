//! The verdict on a delivery: whether the effective metadata allows it, or which rule is the first to forbid it.
#![tactic(auto)]

mod judging;
pub mod laws;
mod sources;

pub use judging::{Verdict, judge};
pub use sources::plan;
