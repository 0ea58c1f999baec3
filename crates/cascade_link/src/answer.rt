//! What the answers of a far CDN mean.

ghost use Rattle.std.specs.Prelude.{◌≡◌, ◌≢◌, ◌≤◌};
ghost use Rattle.edge_base.specs.Causes.{Rose};
ghost use Rattle.cascade_link.specs.Answer.{MeansHead, MeansOutcome};

use edge_base::Source;
use http_wire::{Found, HeadRead, Inbox, ResponseHead, read_response_head};
use listing::Text;
use std::alloc::Global;
use trigger_cascade::{Polled, Posted, far_of};
use upstream_gate::Outcome;
use upstream_http::INTERIM_MAX;

/// The least status of a final answer (RFC 9110, section 15).
const FINAL_MIN: u16 = 200;

/// The status of a command that created a trigger (RFC 8007, section 4.1).
const CREATED: u16 = 201;

/// The status of a status resource that is there (RFC 9110, section 15.3.1).
const OK: u16 = 200;

// reads heads until that of a final answer comes, which is the 17th at the latest (RFC 9110, section 15.2)
pub(crate) fn read_posted<S: Source>(alloc: Global, source: &mut S, inbox: &mut Inbox) -> Posted
    ensures later { S.faults source.old ≤ S.faults source.new }
    ensures failed { result ≡ Posted.Failed → Rose (S.faults source.old) (S.faults source.new) }
    ensures answered { result ≢ Posted.Failed → S.faults source.new ≡ S.faults source.old }
{
    'heads: for _ in 0..INTERIM_MAX + 1 {
        match read_response_head(alloc, source, inbox) {
            HeadRead::Head(head) => {
                if head.status() >= FINAL_MIN {
                    return posted_of(alloc, &head);
                }
            }
            HeadRead::Ended | HeadRead::CutShort { taken: _ } | HeadRead::BadHead { taken: _ } => {
                return Posted::Malformed;
            }
            HeadRead::ReadFault => return Posted::Failed,
            HeadRead::Memory => return Posted::Memory,
        }
    }
    Posted::Malformed
}

// what the head of a final answer to a command means
fn posted_of(alloc: Global, head: &ResponseHead) -> Posted
    ensures { MeansHead head.now result }
{
    if head.status() != CREATED {
        return Posted::Refused {
            status: head.status(),
        };
    }
    match head.value(b"location") {
        Found::One(place) => match Text::of(alloc, place) {
            Ok(place) => Posted::Created { place },
            Err(_) => Posted::Memory,
        },
        _ => Posted::Malformed,
    }
}

// what the outcome of asking for a status resource means
pub(crate) fn polled_of(alloc: Global, outcome: &Outcome) -> Polled
    ensures { MeansOutcome outcome.now result }
{
    match outcome {
        Outcome::Got(got) => {
            if got.status() != OK {
                return Polled::Unreadable;
            }
            match far_of(alloc, got.body().bytes()) {
                Ok(Some(far)) => Polled::Status(far),
                Ok(None) => Polled::Unreadable,
                Err(_) => Polled::Memory,
            }
        }
        Outcome::Failed => Polled::Failed,
        Outcome::Memory => Polled::Memory,
        _ => Polled::Unreadable,
    }
}
