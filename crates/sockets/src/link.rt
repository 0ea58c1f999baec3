//! One connection, which its source and its sink share.

ghost use Rattle.std.specs.Prelude.{◌≡◌};

use std::net::TcpStream;
use std::sync::atomic::{AtomicU64, Ordering};

/// A connection, and how many messages its source began to give.
#[derive(Drop)]
pub struct Link {
    pub stream: TcpStream,
    pub messages: AtomicU64,
}

impl Link {
    /// One whose source gave no message yet.
    pub fn new(stream: TcpStream) -> Link
        ensures { result.stream ≡ stream }
    {
        Link {
            stream,
            messages: AtomicU64::new(0),
        }
    }

    /// The source begins to give the next message.
    pub fn begin(&self) {
        self.messages.fetch_add(1, Ordering::SeqCst);
    }

    /// The number of the message that the source gives.
    pub fn message(&self) -> u64 {
        self.messages.load(Ordering::SeqCst)
    }
}
