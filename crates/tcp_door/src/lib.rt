//! The door over TCP: connections that no worker has wait together, and are given to a worker where a head has come. And
//! the outside that gives workers with such doors.
#![tactic(auto)]

mod door;
mod gate;
mod outside;
mod place_file;
mod sink;
mod source;

pub use door::TcpDoor;
pub use gate::WorkerGate;
pub use outside::StdOutside;
pub use place_file::PLACES_MAX;
pub use sink::ClientSink;
pub use sockets::{WAITS, Waits};
pub use source::SocketSource;
