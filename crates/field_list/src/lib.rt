//! Comma-separated lists in header fields (RFC 9110, section 5.6.1), of requests and of responses.
#![tactic(auto)]

mod field_lines;
mod list;

pub use field_lines::FieldLines;
pub use list::{COMMA, SPACE, TAB, Told, told_by};
