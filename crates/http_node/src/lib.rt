//! The node as a program: the top calls.
#![tactic(auto)]

mod audit;
mod batch;
mod command;
mod law;
mod note;
mod serve;

pub use batch::batch_main;
pub use doors::{
    Accepted, Connection, ConnectionList, Door, DoorEnd, MemoryDoor, MemoryOutside, MemoryWorker,
    Outside, OutsideFault, Passage, Worker, WorkerList, serve_door,
};
pub use note::note_status;
pub use serve::serve_main;
