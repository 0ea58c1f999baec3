//! What the numbers are that definitions take from the code: a constant that stands in both could be wrong in both. Each
//! function does nothing: its contract gives the numbers.
#![tactic(auto)]

pub mod base;
pub mod documents;
pub mod messages;
pub mod scripts;
