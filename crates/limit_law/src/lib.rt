//! The law of limits, over every history of calls. Each function does nothing: its contract is the law.
#![tactic(auto)]

pub mod limits;
