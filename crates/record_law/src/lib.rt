//! The law of the record, over every history of calls: the rows of the deliveries, and the log files that have them.
//! The function does nothing: its contract is the law.
#![tactic(auto)]

pub mod log_files;
