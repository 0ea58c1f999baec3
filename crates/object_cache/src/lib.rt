//! The objects that a node keeps in memory, of at most so many bytes together, the least recently used first.
#![tactic(auto)]

mod object;
mod object_table;

pub use object::Object;
pub use object_table::ObjectTable;
