//! The law of kept objects, over every history of calls. The function does nothing: its contract is the law.
#![tactic(auto)]

pub mod kept_objects;
