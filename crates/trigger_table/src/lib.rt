//! The triggers that are not deleted (RFC 8007): what they do, the steps that they make, and how they are cancelled,
//! deleted and listed. The table sees no history: its value is what a history leaves of its triggers.
#![tactic(auto)]

mod state;
mod step;
mod triggers;

pub use step::Step;
pub use triggers::Triggers;
