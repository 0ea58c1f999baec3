//! Refreshing the metadata before a request is admitted.

ghost use Rattle.std.specs.Prelude.{◌≡◌, ◌≤◌, None};
ghost use Rattle.session_base.specs.Doing.{Any, Does, Doing};
ghost use Rattle.content_request.specs.Refresh.{Refreshes};

use cdni_base::{Moment, Target};
use edge_base::Clock;
use history::{Call, Reply};
use node_core::Home;
use session_base::{end_refresh, gather};
use std::alloc::Global;
use std::sync::Wait;
use std::thread::Threads;
use upstream_gate::Gate;

/// How a refresh went.
#[derive(Clone, Copy, Debug, PartialEq, Eq)]
pub enum Refreshed {
    /// The request can be admitted.
    Ready,
    /// A limit is reached, which is this number.
    Full(u64),
    /// Want of memory.
    Memory,
}

/// Begins a refresh, and where it is due gathers the metadata and ends it.
pub fn refresh<R: Threads + Wait + Sync, H: Home, G: Gate, C: Clock>(
    rt: &R,
    alloc: Global,
    home: &mut H,
    gate: &mut G,
    clock: &mut C,
    root: &Target,
    moment: Moment,
) -> Refreshed
    ensures who { H.who home.new ≡ H.who home.old }
    ensures stays { H.stays home.old home.new }
    ensures later { G.faults gate.old ≤ G.faults gate.new }
    ensures does { (d : Doing) × Refreshes root.now moment d result
        × Does (H.who home.old) Any (H.has_seen home.old) (H.has_seen home.new) (C.given clock.old) (C.given clock.new)
        (G.exchanges gate.old) (G.exchanges gate.new) None None d }
{
    match home.call(rt, alloc, Call::RefreshBegin { moment }) {
        Ok(Reply::NotDue { next: _ }) => Refreshed::Ready,
        Ok(Reply::Full { count }) => Refreshed::Full(count),
        Ok(Reply::Due { refresh }) => match gather(alloc, gate, root) {
            Ok(tree) => {
                end_refresh(rt, alloc, home, clock, refresh, tree);
                Refreshed::Ready
            }
            Err(_) => {
                end_refresh(rt, alloc, home, clock, refresh, None);
                Refreshed::Memory
            }
        },
        Ok(_) => unreachable!(),
        Err(_) => Refreshed::Memory,
    }
}
