//! Trigger commands that are passed on to further CDNs (RFC 8007, sections 4.6 and 5.1): a command is read, posted to each
//! CDN that it did not come through, and the statuses of its triggers there are joined into one.
#![tactic(auto)]

mod cascade;
mod cdn;
mod far;
pub mod laws;
mod link;
mod memory_link;
mod order;
mod passing;
mod report;
mod task;

pub use cascade::{CascadeEnd, cascade_main};
pub use cdn::{Cdn, Standing};
pub use far::{Far, far_of};
pub use link::{Link, LinkCall, Polled, PolledList, Posted, PostedList};
pub use memory_link::MemoryLink;
pub use order::http_target;
pub use task::Task;
