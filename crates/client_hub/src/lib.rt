//! Where connections of clients wait for a worker, and workers for a connection: one epoll of all connections that no
//! worker has, until a head has come, and one worker at a time that waits in it.
#![tactic(auto)]

mod ahead;
mod behind;
mod buffer;
mod hub;
mod message;
pub mod numbers;
mod rest;
mod watch;

pub use ahead::{Front, front_of};
pub use behind::{Behind, what_follows};
pub use client_desk::{Parked, Stance, Task, Waiting};
pub use hub::{Hub, Look, Taken};
pub use message::{BODY_MAX, awaited};
pub use rest::Rest;
