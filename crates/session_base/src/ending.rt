//! How a connection ends.

ghost use Rattle.std.specs.Prelude.{◌≡◌};
ghost use Rattle.session_base.specs.Ending.{next_of};

/// How a session ended.
#[derive(Clone, Copy, Debug, PartialEq, Eq)]
pub enum Ending {
    /// The source gave its end with no byte of a next request.
    Ended,
    /// The last request, or its answer, says that the connection closes, and fewer than 10,000 were answered.
    Closed,
    /// So many bytes do not begin with a head within the limits, and were answered 400.
    BadHead { taken: u64 },
    /// The source ended within a head or a body, after so many bytes of it.
    CutShort { taken: u64 },
    /// The source failed.
    ReadFault,
    /// The sink failed.
    WriteFault,
    /// 10,000 requests were answered.
    Turns,
    /// Want of memory.
    Memory,
}

/// What follows a request.
#[derive(Clone, Copy, Debug, PartialEq, Eq)]
pub enum Next {
    /// The next request.
    GoesOn,
    /// The end.
    Stops(Ending),
}

/// What follows an answer: whether the connection closes behind it, whether no memory was found, and whether the sink
/// failed.
pub fn next_of(leaves: bool, short: bool, fault: bool) -> Next
    ensures { result ≡ next_of leaves short fault }
{
    if fault {
        Next::Stops(Ending::WriteFault)
    } else if short {
        Next::Stops(Ending::Memory)
    } else if leaves {
        Next::Stops(Ending::Closed)
    } else {
        Next::GoesOn
    }
}
