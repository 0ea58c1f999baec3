//! The calls of a link over a source and a sink.

ghost use Rattle.std.specs.Prelude.{◌≡◌, ◌⊎◌, ◌≤◌, ℕ, [], take, IfOk};
ghost use Rattle.std.specs.Io.KnownBytes.{Appends};
ghost use Rattle.cascade_link.specs.Request.{post_text};
ghost use Rattle.edge_base.specs.Causes.{Rose};

use crate::answer::{polled_of, read_posted};
use crate::request::{ask_of, post_text};
use cdni_base::Target;
use edge_base::{Sink, Source, write_counted};
use http_wire::Inbox;
use std::alloc::{AllocError, Global};
use trigger_cascade::{Polled, Posted};
use upstream_gate::BODY_MAX;
use upstream_http::exchange;

/// Posts a command over a connection and reads the head of its answer (RFC 8007, section 4.1; RFC 9112). Interim answers
/// are skipped as those of an origin are, and the body of the answer is not read.
///
/// * `Created`: the status is 201, and there is one Location.
/// * `Refused`: the status is another one.
/// * `Malformed`: the bytes begin no answer, the source ended before its head did, or a 201 has no or several Locations.
/// * `Failed`: only where the count of the source or of the sink rose.
/// * `Memory`: want of memory.
pub fn post_over<S: Source, K: Sink>(
    alloc: Global,
    source: &mut S,
    sink: &mut K,
    to: &Target,
    body: &[u8],
) -> Posted
    ensures sent { (n : ℕ) × Appends (K.held sink.old) (K.held sink.new) (take n (post_text to.now body.now)) }
    ensures source_later { S.faults source.old ≤ S.faults source.new }
    ensures sink_later { K.faults sink.old ≤ K.faults sink.new }
    ensures failed { result ≡ Posted.Failed
        → Rose (S.faults source.old) (S.faults source.new) ⊎ Rose (K.faults sink.old) (K.faults sink.new) }
{
    match prepare(alloc, to, body) {
        Ok((request, mut inbox)) => {
            if write_counted(sink, &request).fault {
                return Posted::Failed;
            }
            read_posted(alloc, source, &mut inbox)
        }
        Err(_) => Posted::Memory,
    }
}

// the request's bytes, and an empty inbox
fn prepare(alloc: Global, to: &Target, body: &[u8]) -> Result<(Vec<u8>, Inbox), AllocError>
    ensures { IfOk result (λ made. (made.0.items ≡ post_text to.now body.now) × (made.1 ≡ [])) }
{
    let request = post_text(alloc, to, body)?;
    let inbox = Inbox::new(alloc)?;
    Ok((request, inbox))
}

/// Asks for a status resource over a connection (RFC 8007, section 4.2), as content of an origin is asked for.
///
/// * `Status`: the status is 200, and the body shows this status.
/// * `Unreadable`: every other answer, and none.
/// * `Failed`: only where the count of the source or of the sink rose.
/// * `Memory`: want of memory.
pub fn poll_over<S: Source, K: Sink>(
    alloc: Global,
    source: &mut S,
    sink: &mut K,
    place: &Target,
) -> Polled
    ensures source_later { S.faults source.old ≤ S.faults source.new }
    ensures sink_later { K.faults sink.old ≤ K.faults sink.new }
    ensures failed { result ≡ Polled.Failed
        → Rose (S.faults source.old) (S.faults source.new) ⊎ Rose (K.faults sink.old) (K.faults sink.new) }
{
    match ask_of(alloc, place) {
        Ok(ask) => {
            let outcome = exchange(alloc, source, sink, &ask, BODY_MAX as u64);
            polled_of(alloc, &outcome)
        }
        Err(_) => Polled::Memory,
    }
}
