//! One exchange with an origin over HTTP/1.1 (RFC 9112): a GET is written, and its answer is read.
#![tactic(auto)]

mod answer;
mod exchanging;
mod fields;
mod final_head;
mod request;

pub use exchanging::exchange;
pub use final_head::INTERIM_MAX;
