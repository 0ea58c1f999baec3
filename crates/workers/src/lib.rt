//! The workers of an outside, over one node: each serves the connections of its door in its own thread, and all that any of
//! them calls stands in one history.
#![tactic(auto)]

mod crew;
mod finishing;
mod hiring;
mod job;

pub use crew::{Crew, fault_status, serve_workers};
pub use hiring::Unhired;
