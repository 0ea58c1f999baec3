//! The side of the core that keeps triggers and log files. It sees no history: its value is what a history leaves of them, without
//! positions.
#![tactic(auto)]

mod control;
mod file;

pub use control::{Control, LogFile};
pub use file::FileText;
