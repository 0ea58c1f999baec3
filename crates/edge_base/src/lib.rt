//! What the node is given of the outside: sources and sinks of bytes, each with a count of its faults, and clocks;
//! their implementations in memory and over the real streams and the clock of the machine; and the exit status.
#![tactic(auto)]

mod causes;
mod clock;
mod list_clock;
mod memory_sink;
mod memory_source;
mod portions;
mod sink;
mod source;
mod status;
mod std_streams;
mod steady;
mod wall_clock;
mod write;

pub use causes::MOST_FAULTS;
pub use clock::Clock;
pub use list_clock::ListClock;
pub use listing::Moment;
pub use memory_sink::MemorySink;
pub use memory_source::MemorySource;
pub use sink::{Put, Sink};
pub use source::{Source, Took};
pub use status::Status;
pub use std_streams::{StdSink, StdSource};
pub use steady::{SteadySink, SteadySource};
pub use wall_clock::WallClock;
pub use write::{Written, write_counted};
