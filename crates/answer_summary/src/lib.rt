//! How many answers of a script begin with each word.
#![tactic(auto)]

mod law;
pub mod numbers;
mod summary;

pub use law::a_summary_has_each_word_once;
pub use summary::{Row, Summary};
