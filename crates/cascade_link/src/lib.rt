//! The link to further CDNs over HTTP/1.1 (RFC 9112) and TCP: a command is posted and the head of its answer is read, and
//! a status resource is asked for as content of an origin is.
#![tactic(auto)]

mod answer;
mod request;
mod tcp_link;
mod wire;

pub use tcp_link::TcpLink;
pub use wire::{poll_over, post_over};
