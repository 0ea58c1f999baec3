//! Inheritance of metadata (RFC 8006, section 3.3): of all levels that apply to a target, the one object for each type
//! that is effective.
#![tactic(auto)]

mod chain;
mod host_table;
mod inherit;
pub mod laws;
mod objects;

pub use host_table::HostTable;
pub use inherit::{effective, effective_by};
pub use objects::Effective;
