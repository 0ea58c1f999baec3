//! When content was taken back: the starts of invalidates and purges (RFC 8007, section 5.2.2), each with its
//! epoch, and whether one of them hits what was fetched before it.
#![tactic(auto)]

mod chains;
mod epochs_list;
pub mod laws;
pub mod numbers;

pub use epochs_list::{Epochs, Start};
