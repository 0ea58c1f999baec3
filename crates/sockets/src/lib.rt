//! TCP connections: reads and writes that wait no longer than they may, what is read ahead of one, its sink, and the
//! gate to the origins.
#![tactic(auto)]

mod dial;
mod gate;
mod link;
pub mod numbers;
mod origin_source;
mod pace;
mod patience;
mod peer;
mod ready;
mod room;
mod sink;
mod waits;

pub use dial::{connect, origin_ends};
pub use gate::TcpGate;
pub use link::Link;
pub use origin_source::OriginSource;
pub use pace::{Pace, STEP_BYTES};
pub use patience::{Endless, Patience};
pub use peer::{Peer, PeerName, peer_of};
pub use ready::{
    Moved, WAIT_STEP, Woken, clock_of, read_now, read_within, wait_for_one, wait_for_two,
    write_now, write_within,
};
pub use room::Room;
pub use sink::SocketSink;
pub use waits::{WAITS, Waits};
