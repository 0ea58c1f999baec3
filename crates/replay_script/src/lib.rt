//! The answers of a node to a script, line by line.
#![tactic(auto)]

mod ahead;
mod law;
mod lines;
mod reading;
mod script;
mod step;

pub use law::the_answers_of_a_script_are_lawful;
pub use reading::Reading;
pub use script::{ReplayEnd, replay, summarize};
pub use step::{LINE_LIMIT, SCRIPT_LIMIT, Stepped, answer_one, scripted_node};
