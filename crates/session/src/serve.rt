//! A whole connection.

ghost use Rattle.std.specs.Prelude.{◌≡◌, ◌≤◌, ◌++◌, ℕ, [], List, IfOk};
ghost use Rattle.std.specs.Io.KnownBytes.{Consumes};
ghost use Rattle.edge_base.specs.Causes.{Rose};
ghost use Rattle.history.specs.Event.{History};
ghost use Rattle.session_base.specs.Doing.{Any, Does, Doing};
ghost use Rattle.session_base.specs.GateFaults.{CountsFaults};
ghost use Rattle.session.specs.Law.{KeepsTheLaw};
ghost use Rattle.session.specs.Session.{Leaves, Session};

use crate::full_law::a_reached_limit_is_answered;
use crate::law::{
    a_bad_gateway_comes_of_nothing_else, a_fetch_that_brings_nothing_is_a_bad_gateway,
    a_request_for_content_is_answered_whole, each_delivery_of_a_session_has_its_row,
    the_end_of_a_delivery_tells_what_was_written, the_last_turn_ends_a_session,
    what_is_opened_is_ended,
};
use crate::turn::serve_one;
use edge_base::{Clock, Sink, Source};
use http_wire::Inbox;
use node_core::{Home, every_answer_is_lawful};
use session_base::{AnswerRoom, Ending, Next, Peer, Settings, fall_short};
use std::alloc::{AllocError, Global};
use std::sync::Wait;
use std::thread::Threads;
use upstream_gate::Gate;

/// The most requests of a connection.
pub const TURNS_MAX: u64 = 10_000;

/// Serves one connection (RFC 9112): reads its requests one after the other, 10,000 at most, and answers each, with the
/// home's calls in between. Each delivery that is admitted is finished, and each fetch and refresh that is begun is ended.
///
/// * `Ended`: the source gave its end with no byte of a next request taken.
/// * `Closed`: the last request says that the connection closes, and fewer than 10,000 were answered.
/// * `BadHead`: so many bytes begin no head within the limits, and were answered 400.
/// * `CutShort`: the source ended within a head or a body, after so many bytes of it.
/// * `ReadFault`, `WriteFault`: only where that object's count of faults rose; the first fault ends the session.
/// * `Turns`: exactly where 10,000 requests were answered.
/// * `Memory`: want of memory.
pub fn serve_session<R: Threads + Wait + Sync, H: Home, S: Source, K: Sink, G: Gate, C: Clock>(
    rt: &R,
    alloc: Global,
    home: &mut H,
    peer: &Peer,
    source: &mut S,
    sink: &mut K,
    gate: &mut G,
    clock: &mut C,
    settings: &Settings,
) -> Ending
    ensures who { H.who home.new ≡ H.who home.old }
    ensures stays { H.stays home.old home.new }
    ensures session { (d : Doing) × (rest : List ℕ) × Session settings.now peer.now.place d result
        × Consumes (S.left source.old) (S.left source.new) (d.bytes ++ rest)
        × Leaves (S.left source.new) rest result
        × Does (H.who home.old) Any (H.has_seen home.old) (H.has_seen home.new) (C.given clock.old) (C.given clock.new)
        (G.exchanges gate.old) (G.exchanges gate.new) (K.held sink.old) (K.held sink.new) d
        × CountsFaults (G.faults gate.old) (G.faults gate.new) d.calls }
    ensures law { (h : History) → H.has_seen home.new h → KeepsTheLaw (H.who home.new).made h }
    ensures write_later { K.faults sink.old ≤ K.faults sink.new }
    ensures write { result ≡ Ending.WriteFault → Rose (K.faults sink.old) (K.faults sink.new) }
    ensures read_later { S.faults source.old ≤ S.faults source.new }
    ensures read { result ≡ Ending.ReadFault → Rose (S.faults source.old) (S.faults source.new) }
{
    every_answer_is_lawful();
    what_is_opened_is_ended();
    the_end_of_a_delivery_tells_what_was_written();
    a_fetch_that_brings_nothing_is_a_bad_gateway();
    a_bad_gateway_comes_of_nothing_else();
    a_request_for_content_is_answered_whole();
    the_last_turn_ends_a_session();
    each_delivery_of_a_session_has_its_row();
    a_reached_limit_is_answered();
    let Ok((mut inbox, mut room)) = make_room(alloc) else {
        return match fall_short(sink) {
            Next::Stops(ending) => ending,
            Next::GoesOn => unreachable!(),
        };
    };
    'turns: for turn in 0..TURNS_MAX {
        let last = turn == TURNS_MAX - 1;
        match serve_one(
            rt, alloc, home, peer.place, source, sink, gate, clock, settings, &mut inbox,
            &mut room, last,
        ) {
            Next::GoesOn => {}
            Next::Stops(ending) => return ending,
        }
    }
    Ending::Turns
}

// what a connection needs, taken once
fn make_room(alloc: Global) -> Result<(Inbox, AnswerRoom), AllocError>
    ensures { IfOk result (λ made. made.0 ≡ []) }
{
    let inbox = Inbox::new(alloc)?;
    let room = AnswerRoom::new(alloc)?;
    Ok((inbox, room))
}
