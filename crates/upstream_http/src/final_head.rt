//! The head of the final answer, behind those of the interim answers (RFC 9110, section 15.2).

ghost use Rattle.std.specs.Prelude.{◌≡◌, ◌≤◌, [], length};
ghost use Rattle.upstream_http.specs.FinalHead.{ReadsFinal, HasFinalCause};

use edge_base::Source;
use http_wire::{HeadRead, Inbox, ResponseHead, read_response_head};
use std::alloc::Global;

/// The most interim answers that are skipped.
pub const INTERIM_MAX: usize = 16;

/// The least status of a final answer (RFC 9110, section 15).
pub const FINAL_MIN: u16 = 200;

// what reading the head of the final answer gave
#[derive(Drop)]
pub(crate) enum FinalRead {
    // the head, and how many bytes it and those before it have
    Head(ResponseHead, u64),
    // no such head, noticed when so many bytes had come
    Malformed { taken: u64 },
    // the source ended before the end of the head, after so many bytes
    Cut { taken: u64 },
    // the source failed
    Failed,
    // want of memory
    Memory,
}

// reads heads until that of a final answer comes, which is the 17th at the latest
pub(crate) fn read_final<S: Source>(alloc: Global, source: &mut S, inbox: &mut Inbox) -> FinalRead
    requires { inbox.old ≡ [] }
    ensures bytes { ReadsFinal (S.left source.old) (S.left source.new) inbox.new result }
    ensures cause { HasFinalCause (S.faults source.old) (S.faults source.new) result }
{
    let mut taken = 0u64;
    let mut skipped = 0;
    'heads: loop {
        match read_response_head(alloc, source, inbox) {
            HeadRead::Head(head) => {
                taken += head.size() as u64;
                if head.status() >= FINAL_MIN {
                    return FinalRead::Head(head, taken);
                }
                if skipped == INTERIM_MAX {
                    return FinalRead::Malformed {
                        taken: taken.saturating_add(inbox.bytes().len() as u64),
                    };
                }
                skipped += 1;
            }
            HeadRead::Ended => return FinalRead::Cut { taken },
            HeadRead::CutShort { taken: more } => return FinalRead::Cut {
                taken: taken.saturating_add(more),
            },
            HeadRead::BadHead { taken: more } => return FinalRead::Malformed {
                taken: taken.saturating_add(more),
            },
            HeadRead::ReadFault => return FinalRead::Failed,
            HeadRead::Memory => return FinalRead::Memory,
        }
    }
}
