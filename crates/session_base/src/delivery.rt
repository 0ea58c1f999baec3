//! Calls that end what is open.

ghost use Rattle.std.specs.Prelude.{◌≡◌, ℕ, [], ◌∷◌};
ghost use Rattle.std.specs.Option.{option_map};
ghost use Rattle.edge_base.specs.Clock.{Grows};
ghost use Rattle.history.specs.Event.{event_of, Finish as Finishes, FetchEnd as EndsFetch, RefreshEnd as EndsRefresh};
ghost use Rattle.history.specs.declared.reply.Reply.{Reply as Answer};
ghost use Rattle.metadata_objects.specs.Tree.{tree_view};
ghost use Rattle.session_base.specs.Doing.{Makes};
ghost use Rattle.session_base.specs.Open.{NeedsOpen, OpenDelivery, OpenFetch, OpenRefresh};
ghost use Rattle.session_base.specs.Moment.{capped};

use crate::clock::read_clock;
use crate::send::Sent;
use edge_base::Clock;
use history::Call;
use metadata_objects::Tree;
use node_core::Home;
use std::alloc::Global;
use std::sync::Wait;
use std::thread::Threads;
use upstream_gate::Outcome;

/// Ends what this pass has open, which takes no memory.
pub fn end_open<R: Threads + Wait + Sync, H: Home>(rt: &R, alloc: Global, home: &mut H, call: Call)
    ensures who { H.who home.new ≡ H.who home.old }
    ensures stays { H.stays home.old home.new }
    ensures made { (line : Answer) × Makes (H.who home.old) (NeedsOpen (H.who home.old) (event_of call))
        (H.has_seen home.old) (H.has_seen home.new) ((event_of call, line) ∷ []) }
{
    match home.call(rt, alloc, call) {
        Ok(_) => {}
        Err(_) => {}
    }
}

/// Enters that a delivery ended, of which so much was written.
pub fn finish<R: Threads + Wait + Sync, H: Home, C: Clock>(
    rt: &R,
    alloc: Global,
    home: &mut H,
    clock: &mut C,
    delivery: u64,
    sent: &Sent,
)
    ensures who { H.who home.new ≡ H.who home.old }
    ensures stays { H.stays home.old home.new }
    ensures made { (at : ℕ) × (line : Answer) × Grows (C.given clock.old) (C.given clock.new) (at ∷ [])
        × Makes (H.who home.old) (OpenDelivery (H.who home.old) delivery) (H.has_seen home.old) (H.has_seen home.new)
        ((Finishes delivery sent.now.status sent.now.taken sent.now.entity (capped at), line) ∷ []) }
{
    let moment = read_clock(clock);
    let call = Call::Finish {
        delivery,
        status: sent.status,
        total: sent.taken,
        entity: sent.entity,
        moment,
    };
    end_open(rt, alloc, home, call);
}

/// Enters that a fetch ended.
pub fn end_fetch<R: Threads + Wait + Sync, H: Home, C: Clock>(
    rt: &R,
    alloc: Global,
    home: &mut H,
    clock: &mut C,
    fetch: u64,
    outcome: Outcome,
)
    ensures who { H.who home.new ≡ H.who home.old }
    ensures stays { H.stays home.old home.new }
    ensures made { (at : ℕ) × (line : Answer) × Grows (C.given clock.old) (C.given clock.new) (at ∷ [])
        × Makes (H.who home.old) (OpenFetch (H.who home.old) fetch) (H.has_seen home.old) (H.has_seen home.new)
        ((EndsFetch fetch outcome (capped at), line) ∷ []) }
{
    let moment = read_clock(clock);
    let call = Call::FetchEnd {
        fetch,
        outcome,
        moment,
    };
    end_open(rt, alloc, home, call);
}

/// Enters that a refresh ended.
pub fn end_refresh<R: Threads + Wait + Sync, H: Home, C: Clock>(
    rt: &R,
    alloc: Global,
    home: &mut H,
    clock: &mut C,
    refresh: u64,
    tree: Option<Tree>,
)
    ensures who { H.who home.new ≡ H.who home.old }
    ensures stays { H.stays home.old home.new }
    ensures made { (at : ℕ) × (line : Answer) × Grows (C.given clock.old) (C.given clock.new) (at ∷ [])
        × Makes (H.who home.old) (OpenRefresh (H.who home.old) refresh) (H.has_seen home.old) (H.has_seen home.new)
        ((EndsRefresh refresh (option_map tree_view tree) (capped at), line) ∷ []) }
{
    let moment = read_clock(clock);
    let call = Call::RefreshEnd {
        refresh,
        tree,
        moment,
    };
    end_open(rt, alloc, home, call);
}
