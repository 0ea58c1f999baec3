//! The laws that the reading of trigger commands obeys (RFC 8007, section 5.1.1). Each function does nothing: its
//! contract is the law.
#![tactic(auto)]

pub mod grammar;
pub mod status;
