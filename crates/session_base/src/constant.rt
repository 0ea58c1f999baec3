//! Constant answers, which take no memory.

ghost use Rattle.std.specs.Prelude.{◌≡◌, ◌≤◌, ℕ, false, true};
ghost use Rattle.edge_base.specs.Causes.{Rose};
ghost use Rattle.edge_base.specs.Write.{HasCause};
ghost use Rattle.session_base.specs.Answer.{IsConstant, Says, constant_status, constant_text};
ghost use Rattle.session_base.specs.Ending.{next_of};
ghost use Rattle.session_base.specs.declared.ending.Ending.{Ending};

use crate::ending::{Next, next_of};
use crate::send::{Sent, send};
use edge_base::Sink;

/// An answer of a status without a body, behind which the connection closes.
#[derive(Clone, Copy, Debug, PartialEq, Eq)]
pub enum Constant {
    /// 400.
    BadRequest,
    /// 411.
    LengthRequired,
    /// 413.
    ContentTooLarge,
    /// 503.
    Unavailable,
}

fn constant_status(which: Constant) -> u16
    ensures { result ≡ constant_status which }
{
    match which {
        Constant::BadRequest => 400,
        Constant::LengthRequired => 411,
        Constant::ContentTooLarge => 413,
        Constant::Unavailable => 503,
    }
}

#[tactic(auto, unfolding(crate::specs::Answer::constant_text))]
fn constant_text(which: Constant) -> &'static [u8]
    ensures { result.now ≡ constant_text which }
{
    match which {
        Constant::BadRequest => {
            b"HTTP/1.1 400 Bad Request\r\nContent-Length: 0\r\nConnection: close\r\n\r\n"
        }
        Constant::LengthRequired => {
            b"HTTP/1.1 411 Length Required\r\nContent-Length: 0\r\nConnection: close\r\n\r\n"
        }
        Constant::ContentTooLarge => {
            b"HTTP/1.1 413 Content Too Large\r\nContent-Length: 0\r\nConnection: close\r\n\r\n"
        }
        Constant::Unavailable => {
            b"HTTP/1.1 503 Service Unavailable\r\nContent-Length: 0\r\nConnection: close\r\n\r\n"
        }
    }
}

/// Writes a constant answer.
pub fn refuse<K: Sink>(sink: &mut K, which: Constant) -> Sent
    ensures says { Says (IsConstant which) (K.held sink.old) (K.held sink.new) result }
    ensures cause { HasCause (K.faults sink.old) (K.faults sink.new) result.fault }
{
    send(sink, constant_status(which), constant_text(which), b"")
}

/// Answers that no memory was found.
pub fn fall_short<K: Sink>(sink: &mut K) -> Next
    ensures says { (sent : Sent) × Says (IsConstant Constant.Unavailable) (K.held sink.old) (K.held sink.new) sent
        × (result ≡ next_of false true sent.fault) }
    ensures later { K.faults sink.old ≤ K.faults sink.new }
    ensures write { result ≡ Next.Stops Ending.WriteFault → Rose (K.faults sink.old) (K.faults sink.new) }
{
    let sent = refuse(sink, Constant::Unavailable);
    next_of(false, true, sent.fault)
}
