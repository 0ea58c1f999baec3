//! What holds of the triggers in every history of calls. Each function does nothing: its contract is the law.
#![tactic(auto)]

pub mod accounts;
pub mod cancels;
pub mod final_triggers;
pub mod open_steps;
