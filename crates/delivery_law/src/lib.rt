//! The laws that a delivery obeys, over every history of calls, by positions. Each function does nothing: its contract
//! is the law.
#![tactic(auto)]

pub mod denials;
pub mod fetches;
pub mod log_rows;
pub mod metadata;
pub mod refreshes;
pub mod starts;
