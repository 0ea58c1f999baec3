//! What a node is asked and what it answers: its calls and their replies, and in `specs/` the definitions of the core.
//! A history is a list of entries, each the number of a pass and its call, the oldest first; what it leaves is one
//! record, from which the reply to the next call is read.
#![tactic(auto)]

mod begun;
mod call;
mod heading;
pub mod laws;
mod reply;

pub use begun::{Admission, Fetching};
pub use call::Call;
pub use heading::Heading;
pub use reply::Reply;
