//! Log files (RFC 7937, section 3) checked by those who receive them: which texts are log files, which line is the
//! first that no log file has, whether the hash is that of the bytes, and what the records sum to.
#![tactic(auto)]

mod audited;
mod check;
mod fault;
mod head;
mod host;
pub mod laws;
mod line;
mod moment;
mod place;
mod record;
mod records;
mod totals;
mod url;
mod value;

pub use audited::Audited;
pub use check::audit;
pub use fault::AuditFault;
pub use place::Place;
