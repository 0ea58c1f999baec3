//! Items in a row, in the order in which they came: each is found by its key in constant time on average, and what is
//! used is moved to the end, so that what was not used for longest stands first.
#![tactic(auto)]

mod cells;
mod row;

pub use row::Row;
