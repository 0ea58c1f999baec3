//! Writing a whole piece.

ghost use Rattle.std.specs.Prelude.{◌≡◌, ◌<◌, ◌≤◌, true, false, length, take};
ghost use Rattle.std.specs.Io.KnownBytes.{Appends};
ghost use Rattle.edge_base.specs.Write.{HasCause};

use crate::sink::{Put, Sink};

/// What `write_counted` wrote.
#[derive(Clone, Copy, Debug, PartialEq, Eq)]
pub struct Written {
    /// How many bytes the sink took.
    pub taken: u64,
    /// Whether a fault ended the writing.
    pub fault: bool,
}

/// Writes `bytes`, in as many calls as the sink wants, up to its first fault.
pub fn write_counted<K: Sink>(sink: &mut K, bytes: &[u8]) -> Written
    ensures within { result.taken ≤ length bytes.now }
    ensures whole { result.fault ≡ false → result.taken ≡ length bytes.now }
    ensures cut { result.fault ≡ true → result.taken < length bytes.now }
    ensures held { Appends (K.held sink.old) (K.held sink.new) (take result.taken bytes.now) }
    ensures cause { HasCause (K.faults sink.old) (K.faults sink.new) result.fault }
{
    let mut taken = 0;
    'pieces: while taken < bytes.len() {
        match sink.write(&bytes[taken..]) {
            Put::Some(count) => taken += count,
            Put::Failed => return Written {
                taken: taken as u64,
                fault: true,
            },
        }
    }
    Written {
        taken: taken as u64,
        fault: false,
    }
}
