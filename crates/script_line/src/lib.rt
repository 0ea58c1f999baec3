//! The lines of a script of calls, and the lines by which a node's replies are answered.
#![tactic(auto)]

mod answer;
mod grammar;
pub mod laws;
mod line;
mod own;

pub use answer::{LINE_FEED, put_refusal, put_reply_line, reply_line};
pub use grammar::read_line;
pub use line::{ScriptFault, ScriptLine};
