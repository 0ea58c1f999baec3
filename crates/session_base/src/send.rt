//! Writing an answer.

ghost use Rattle.std.specs.Prelude.{◌≡◌, ◌≤◌, length, take, drop};
ghost use Rattle.edge_base.specs.Write.{HasCause};
ghost use Rattle.session_base.specs.Answer.{Says};

use edge_base::{Sink, write_counted};

/// What was written of an answer.
#[derive(Clone, Copy, Debug, PartialEq, Eq)]
pub struct Sent {
    /// The status of the answer.
    pub status: u16,
    /// How many bytes the sink took.
    pub taken: u64,
    /// How many of them are of the body.
    pub entity: u64,
    /// Whether the sink failed.
    pub fault: bool,
}

/// Writes a head, and a body behind it.
pub fn send<K: Sink>(sink: &mut K, status: u16, head: &[u8], body: &[u8]) -> Sent
    ensures says { Says (λ answer. answer ≡ record { status = status; head = head.now; body = body.now })
        (K.held sink.old) (K.held sink.new) result }
    ensures cause { HasCause (K.faults sink.old) (K.faults sink.new) result.fault }
{
    let written = write_counted(sink, head);
    if written.fault || body.is_empty() {
        return Sent {
            status,
            taken: written.taken,
            entity: 0,
            fault: written.fault,
        };
    }
    let more = write_counted(sink, body);
    Sent {
        status,
        taken: written.taken + more.taken,
        entity: more.taken,
        fault: more.fault,
    }
}

/// Writes a head and a body that stand in one piece, the head first.
pub fn send_joined<K: Sink>(sink: &mut K, status: u16, piece: &[u8], head: usize) -> Sent
    requires { head ≤ length piece.now }
    ensures says { Says (λ answer. answer ≡ record {
      status = status;
      head = take head piece.now;
      body = drop head piece.now;
    }) (K.held sink.old) (K.held sink.new) result }
    ensures cause { HasCause (K.faults sink.old) (K.faults sink.new) result.fault }
{
    let written = write_counted(sink, piece);
    Sent {
        status,
        taken: written.taken,
        entity: written.taken.saturating_sub(head as u64),
        fault: written.fault,
    }
}
