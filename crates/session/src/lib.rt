//! One connection of a client: its requests are read, answered and entered, one after the other (RFC 9112).
#![tactic(auto)]

pub mod full_law;
pub mod law;
mod serve;
mod turn;

pub use serve::{TURNS_MAX, serve_session};
pub use session_base::{AdvertSettings, Ending, Peer, Settings};
