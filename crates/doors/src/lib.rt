//! Connections of a worker, one after the other: the door that gives them, what a worker has, the outside that gives
//! workers, and how a door is served.
#![tactic(auto)]

mod address;
mod door;
pub mod law;
mod memory_door;
mod memory_outside;
pub mod numbers;
mod outside;
mod serve;

pub use address::read_address;
pub use door::{Accepted, Door};
pub use memory_door::{Connection, ConnectionList, Ends, MemoryDoor, Passage};
pub use memory_outside::{MemoryOutside, MemoryWorker, WorkerList};
pub use outside::{Outside, OutsideFault, Worker};
pub use serve::{DoorEnd, serve_door};
