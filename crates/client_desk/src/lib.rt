//! What the workers of a listener share: which connections are open and what they wait for, which workers wait where, and
//! what follows of it for one of them.
#![tactic(auto)]

mod absent;
mod desk;
pub mod numbers;
mod origins;
mod parked;
mod post;

pub use absent::Absent;
pub use desk::{Desk, Stance, Step, Task};
pub use origins::Origins;
pub use parked::{LISTENER, Lot, Parked, Slot, Waiting};
pub use post::{Call, Post};
