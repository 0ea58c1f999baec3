//! The words of `serve`: whether they are a command, and what they say.
#![tactic(auto)]

mod form;
mod matching;
mod options;
mod reading;

pub use options::{Options, OptionsRead, read_options};
