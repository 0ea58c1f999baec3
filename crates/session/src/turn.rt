//! One request of a connection.

ghost use Rattle.std.specs.Prelude.{◌≡◌, ◌≤◌, ◌<◌, ℕ, List, false, not};
ghost use Rattle.cdni_base.specs.declared.date.TheConstants.{DATE_END};
ghost use Rattle.edge_base.specs.Causes.{Rose};
ghost use Rattle.http_wire.specs.Moves.{Moves};
ghost use Rattle.http_wire.specs.Head.{Spells};
ghost use Rattle.session_base.specs.Answer.{IsConstant, Says};
ghost use Rattle.session_base.specs.Doing.{Any, Does, Doing};
ghost use Rattle.session_base.specs.Ending.{next_of};
ghost use Rattle.session_base.specs.GateFaults.{CountsFaults};
ghost use Rattle.session.specs.Session.{LeavesNext};
ghost use Rattle.session.specs.Turn.{Answers, Turn, TurnBehind, bad_next};

use cdni_base::{Asked, Moment};
use content_request::content::content;
use control_request::serve_control;
use edge_base::{Clock, Sink, Source};
use http_wire::{BodyRead, Head, HeadRead, Inbox, body_of, read_head};
use location_acl::Place;
use node_core::Home;
use session_base::{
    AnswerRoom, Constant, Ending, Manner, Next, Sent, Settings, fall_short, next_of, read_clock,
    read_request, refuse,
};
use std::alloc::Global;
use std::sync::Wait;
use std::thread::Threads;
use upstream_gate::Gate;

/// The most bytes of the body of a request.
pub const BODY_LIMIT: u64 = 1_048_576;

// reads the next request and answers it
pub(crate) fn serve_one<R: Threads + Wait + Sync, H: Home, S: Source, K: Sink, G: Gate, C: Clock>(
    rt: &R,
    alloc: Global,
    home: &mut H,
    place: Place,
    source: &mut S,
    sink: &mut K,
    gate: &mut G,
    clock: &mut C,
    settings: &Settings,
    inbox: &mut Inbox,
    room: &mut AnswerRoom,
    last: bool,
) -> Next
    ensures who { H.who home.new ≡ H.who home.old }
    ensures stays { H.stays home.old home.new }
    ensures does { (d : Doing) × Turn settings.now place last d result
        × Moves (S.left source.old) (S.left source.new) inbox.old inbox.new d.bytes
        × LeavesNext (S.left source.new) inbox.new result
        × Does (H.who home.old) Any (H.has_seen home.old) (H.has_seen home.new) (C.given clock.old) (C.given clock.new)
        (G.exchanges gate.old) (G.exchanges gate.new) (K.held sink.old) (K.held sink.new) d
        × CountsFaults (G.faults gate.old) (G.faults gate.new) d.calls }
    ensures later { K.faults sink.old ≤ K.faults sink.new }
    ensures write { result ≡ Next.Stops Ending.WriteFault → Rose (K.faults sink.old) (K.faults sink.new) }
    ensures read_later { S.faults source.old ≤ S.faults source.new }
    ensures read { result ≡ Next.Stops Ending.ReadFault → Rose (S.faults source.old) (S.faults source.new) }
{
    match read_head(alloc, source, inbox) {
        HeadRead::Head(head) => serve_head(
            rt, alloc, home, place, source, sink, gate, clock, settings, inbox, room, &head, last,
        ),
        HeadRead::Ended => Next::Stops(Ending::Ended),
        HeadRead::CutShort { taken } => {
            inbox.clear();
            Next::Stops(Ending::CutShort { taken })
        }
        HeadRead::BadHead { taken } => {
            inbox.clear();
            refuse_head(sink, taken)
        }
        HeadRead::ReadFault => Next::Stops(Ending::ReadFault),
        HeadRead::Memory => fall_short(sink),
    }
}

// answers bytes that begin no head
fn refuse_head<K: Sink>(sink: &mut K, taken: u64) -> Next
    ensures says { (sent : Sent) × Says (IsConstant Constant.BadRequest) (K.held sink.old) (K.held sink.new) sent
        × (result ≡ bad_next taken sent.fault) }
    ensures later { K.faults sink.old ≤ K.faults sink.new }
    ensures write { result ≡ Next.Stops Ending.WriteFault → Rose (K.faults sink.old) (K.faults sink.new) }
{
    let sent = refuse(sink, Constant::BadRequest);
    if sent.fault {
        Next::Stops(Ending::WriteFault)
    } else {
        Next::Stops(Ending::BadHead { taken })
    }
}

// answers a request with this head
fn serve_head<R: Threads + Wait + Sync, H: Home, S: Source, K: Sink, G: Gate, C: Clock>(
    rt: &R,
    alloc: Global,
    home: &mut H,
    place: Place,
    source: &mut S,
    sink: &mut K,
    gate: &mut G,
    clock: &mut C,
    settings: &Settings,
    inbox: &mut Inbox,
    room: &mut AnswerRoom,
    head: &Head,
    last: bool,
) -> Next
    ensures who { H.who home.new ≡ H.who home.old }
    ensures stays { H.stays home.old home.new }
    ensures does { (front : List ℕ) → Spells front head.now
        → (d : Doing) × TurnBehind front settings.now place last d result
        × Moves (S.left source.old) (S.left source.new) inbox.old inbox.new d.bytes
        × LeavesNext (S.left source.new) inbox.new result
        × Does (H.who home.old) Any (H.has_seen home.old) (H.has_seen home.new) (C.given clock.old) (C.given clock.new)
        (G.exchanges gate.old) (G.exchanges gate.new) (K.held sink.old) (K.held sink.new) d
        × CountsFaults (G.faults gate.old) (G.faults gate.new) d.calls }
    ensures later { K.faults sink.old ≤ K.faults sink.new }
    ensures write { result ≡ Next.Stops Ending.WriteFault → Rose (K.faults sink.old) (K.faults sink.new) }
    ensures read_later { S.faults source.old ≤ S.faults source.new }
    ensures read { result ≡ Next.Stops Ending.ReadFault → Rose (S.faults source.old) (S.faults source.new) }
{
    let moment = read_clock(clock);
    match read_request(
        alloc,
        head,
        settings.protocol,
        &settings.fields,
        moment,
        last,
    ) {
        Ok(Some((asked, manner))) => match body_of(alloc, source, inbox, head, BODY_LIMIT) {
            BodyRead::Body(body) => serve_whole(
                rt,
                alloc,
                home,
                place,
                sink,
                gate,
                clock,
                settings,
                room,
                asked,
                body.bytes(),
                &manner,
            ),
            BodyRead::Coded => refuse_request(sink, Constant::LengthRequired, last),
            BodyRead::BadLength { taken: _ } => refuse_request(sink, Constant::BadRequest, last),
            BodyRead::TooLarge { len: _ } => refuse_request(sink, Constant::ContentTooLarge, last),
            BodyRead::CutShort { taken } => Next::Stops(Ending::CutShort { taken }),
            BodyRead::ReadFault => Next::Stops(Ending::ReadFault),
            BodyRead::Memory => fall_short(sink),
        },
        Ok(None) => refuse_request(sink, Constant::BadRequest, last),
        Err(_) => fall_short(sink),
    }
}

// answers that the request is refused
fn refuse_request<K: Sink>(sink: &mut K, which: Constant, last: bool) -> Next
    ensures says { (sent : Sent) × Says (IsConstant which) (K.held sink.old) (K.held sink.new) sent
        × (result ≡ next_of (not last) false sent.fault) }
    ensures later { K.faults sink.old ≤ K.faults sink.new }
    ensures write { result ≡ Next.Stops Ending.WriteFault → Rose (K.faults sink.old) (K.faults sink.new) }
{
    let sent = refuse(sink, which);
    next_of(!last, false, sent.fault)
}

// answers a request that was read whole
fn serve_whole<R: Threads + Wait + Sync, H: Home, K: Sink, G: Gate, C: Clock>(
    rt: &R,
    alloc: Global,
    home: &mut H,
    place: Place,
    sink: &mut K,
    gate: &mut G,
    clock: &mut C,
    settings: &Settings,
    room: &mut AnswerRoom,
    asked: Asked,
    body: &[u8],
    manner: &Manner,
) -> Next
    requires { manner.now.moment < DATE_END }
    ensures who { H.who home.new ≡ H.who home.old }
    ensures stays { H.stays home.old home.new }
    ensures does { (d : Doing) × Answers settings.now place asked body.now manner.now d result
        × Does (H.who home.old) Any (H.has_seen home.old) (H.has_seen home.new) (C.given clock.old) (C.given clock.new)
        (G.exchanges gate.old) (G.exchanges gate.new) (K.held sink.old) (K.held sink.new) d
        × CountsFaults (G.faults gate.old) (G.faults gate.new) d.calls }
    ensures later { K.faults sink.old ≤ K.faults sink.new }
    ensures write { result ≡ Next.Stops Ending.WriteFault → Rose (K.faults sink.old) (K.faults sink.new) }
{
    if asked.target.host == settings.control {
        return serve_control(
            rt, alloc, home, sink, gate, clock, settings, room, &asked, body, manner,
        );
    }
    content(
        rt,
        alloc,
        home,
        sink,
        gate,
        clock,
        &settings.root,
        place,
        room,
        asked,
        manner,
    )
}
