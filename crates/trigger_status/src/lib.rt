//! Trigger status resources and their collections (RFC 8007, sections 5.1.2 and 5.1.3), and the commands that pass a
//! trigger on (section 5.1.1).
#![tactic(auto)]

mod collection;
mod command;
mod items;
mod job;
mod resource;
mod write;

pub use collection::collection_json;
pub use command::command_json;
pub use job::{Filter, IndexList, Job, JobStatus, JobStatusList};
pub use resource::job_json;
