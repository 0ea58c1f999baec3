//! How long things may take.

/// How long the door, its connections and the gate wait, in milliseconds.
#[derive(Clone, Copy, Debug)]
pub struct Waits {
    /// A connection without a byte of a next request is closed after so long.
    pub idle: u64,
    /// A connection with a part of a head is closed so long after the first byte of that head.
    pub head: u64,
    /// The reads of a body, or the writes of an answer, may take so long in all ..
    pub floor: u64,
    /// .. and so much longer for each 65,536 bytes that they moved.
    pub step: u64,
    /// A connection that ends before its client has sent all is read so long before it is closed.
    pub linger: u64,
    /// Connecting to an origin may take so long, over all of its addresses.
    pub connect: u64,
    /// An origin may send and take nothing for so long.
    pub quiet: u64,
    /// How long a worker sleeps at most before it looks for connections that have waited too long.
    pub tick: u64,
}

/// What `cdnid serve` waits.
pub const WAITS: Waits = Waits {
    idle: 60_000,
    head: 10_000,
    floor: 10_000,
    step: 1_000,
    linger: 10_000,
    connect: 3_000,
    quiet: 30_000,
    tick: 1_000,
};
