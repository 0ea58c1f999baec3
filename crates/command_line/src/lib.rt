//! What the program does with the words that it was started with: which call they choose, what it is given, and the exit
//! code.
#![tactic(auto)]

mod choice;
mod exit;
mod run;
mod words;

pub use choice::{Choice, choice_of};
pub use exit::exit_of;
pub use run::run_words;
pub use words::words_of;
