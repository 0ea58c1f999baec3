//! A request of the upstream CDN: its one call and its answer, and after a new trigger the steps that bring it to its end.
#![tactic(auto)]

mod advance;
mod answer;
mod command;
mod control;
mod lists;

pub use advance::{Step, advance_all};
pub use control::serve_control;
