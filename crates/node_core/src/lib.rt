//! The node that stands for a history of calls: each call is answered as the history before it says.
#![tactic(auto)]

mod entered;
mod home;
mod law;
mod node;
mod state;

pub use entered::{Entered, Need};
pub use history::{Call, Reply};
pub use home::{Home, OneHome};
pub use law::every_answer_is_lawful;
pub use node::Node;
