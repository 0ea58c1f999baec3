//! The script that two numbers make.
#![tactic(auto)]

mod course;
mod line;
mod numbers;
mod script;

pub use course::{Course, PASSES, PATHS};
pub use numbers::{MOST_ROUNDS, MOST_SEED, Numbers};
pub use script::generate;
