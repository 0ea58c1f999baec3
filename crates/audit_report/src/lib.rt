//! What is printed of a log file that was checked (RFC 7937, section 3): its records in one order of fields, and what they
//! sum to.
#![tactic(auto)]

pub mod laws;
mod places;
mod report;

pub use report::report_text;
