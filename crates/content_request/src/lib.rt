//! A request for content (RFC 9110): the metadata is refreshed where that is due, and the delivery is admitted, answered and
//! finished.
#![tactic(auto)]

pub mod content;
pub mod refresh;
