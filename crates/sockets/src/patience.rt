//! How long a worker may wait for an origin, as those say who know who else waits.

/// Says how long may be waited.
pub trait Patience {
    /// A wait begins at this millisecond: under which number, if it has one.
    fn begin(&self, since: u64) -> Option<u64>;

    /// Whether a wait that began at this millisecond is to be given up.
    fn is_over(&self, since: u64) -> bool;

    /// The wait with this number is over.
    fn end(&self, number: Option<u64>);
}

/// Waits as long as the pace says.
#[derive(Clone, Copy, Debug)]
pub struct Endless;

impl Patience for Endless {
    fn begin(&self, _since: u64) -> Option<u64> {
        None
    }

    fn is_over(&self, _since: u64) -> bool {
        false
    }

    fn end(&self, _number: Option<u64>) {}
}
