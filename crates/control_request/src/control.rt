//! A request of the upstream CDN.

ghost use Rattle.std.specs.Prelude.{◌≡◌, ◌≤◌, ◌<◌, ◌↔◌, IfOk, IfSome, IsTrue, None, is_none};
ghost use Rattle.std.specs.Option.{option_map};
ghost use Rattle.answer_head.specs.Answer.{is_answer_status};
ghost use Rattle.cdni_base.specs.declared.date.TheConstants.{DATE_END};
ghost use Rattle.edge_base.specs.Causes.{Rose};
ghost use Rattle.edge_base.specs.Write.{HasCause};
ghost use Rattle.history.specs.Event.{event_of};
ghost use Rattle.control_request.specs.Control.{CallsOnce, IsReplied, IsTold, Serves, event_at, full_count, uncalled};
ghost use Rattle.session_base.specs.Answer.{Says};
ghost use Rattle.session_base.specs.Doing.{Any, Does, Doing};
ghost use Rattle.session_base.specs.GateFaults.{CountsFaults};
ghost use Rattle.session_base.specs.declared.ending.Ending.{Ending};

use crate::answer::{advertised, answer_to, empty};
use crate::command::command;
use cdni_base::{Asked, Moment};
use control_table::{ControlAsk, control_ask};
use edge_base::{Clock, Sink};
use history::{Call, Reply};
use node_core::Home;
use session_base::{
    AnswerRoom, Constant, ControlAnswer, Manner, Next, Sent, Settings, next_of, refuse,
};
use std::alloc::{AllocError, Global};
use std::sync::Wait;
use std::thread::Threads;
use upstream_gate::Gate;

/// Serves a request of the upstream CDN with this body: makes its one call and answers with the reply, or answers without a
/// call. A new trigger is answered first, and then makes its steps.
pub fn serve_control<R: Threads + Wait + Sync, H: Home, K: Sink, G: Gate, C: Clock>(
    rt: &R,
    alloc: Global,
    home: &mut H,
    sink: &mut K,
    gate: &mut G,
    clock: &mut C,
    settings: &Settings,
    room: &mut AnswerRoom,
    asked: &Asked,
    body: &[u8],
    manner: &Manner,
) -> Next
    requires { manner.now.moment < DATE_END }
    ensures who { H.who home.new ≡ H.who home.old }
    ensures stays { H.stays home.old home.new }
    ensures does { (d : Doing) × Serves settings.now asked.now body.now manner.now d result
        × Does (H.who home.old) Any (H.has_seen home.old) (H.has_seen home.new) (C.given clock.old) (C.given clock.new)
        (G.exchanges gate.old) (G.exchanges gate.new) (K.held sink.old) (K.held sink.new) d
        × CountsFaults (G.faults gate.old) (G.faults gate.new) d.calls }
    ensures later { K.faults sink.old ≤ K.faults sink.new }
    ensures write { result ≡ Next.Stops Ending.WriteFault → Rose (K.faults sink.old) (K.faults sink.new) }
{
    let which = control_ask(asked.method.bytes(), asked.target.path.bytes());
    if is_command(which) {
        return command(
            rt, alloc, home, sink, gate, clock, settings, room, body, manner,
        );
    }
    match call_of(which, manner.moment) {
        Some(call) => answer_call(rt, alloc, home, sink, settings, room, call, manner),
        None => {
            let answer = uncalled(alloc, settings, which).ok();
            let told = answer_with(sink, settings, room, answer, manner);
            next_of(manner.leaves, told.short, told.sent.fault)
        }
    }
}

fn is_command(which: ControlAsk) -> bool
    ensures { IsTrue result ↔ (which ≡ ControlAsk.Command) }
{
    matches!(which, ControlAsk::Command)
}

// the one call of a request that is no command, where it has one
fn call_of(which: ControlAsk, moment: Moment) -> Option<Call>
    ensures { option_map event_of result ≡ event_at which moment }
{
    match which {
        ControlAsk::List { filter } => Some(Call::List { filter }),
        ControlAsk::Status { id } => Some(Call::ReadStatus { id }),
        ControlAsk::Delete { id } => Some(Call::Delete { id }),
        ControlAsk::Cut => Some(Call::Cut { moment }),
        ControlAsk::ListLogs => Some(Call::ListLogs),
        ControlAsk::ReadLog { number } => Some(Call::LogFile { number }),
        ControlAsk::DropLog { number } => Some(Call::DropLog { number }),
        ControlAsk::Absent
        | ControlAsk::WrongMethod
        | ControlAsk::Command
        | ControlAsk::Advertise => None,
    }
}

// the answer to a request that has no call
fn uncalled(
    alloc: Global,
    settings: &Settings,
    which: ControlAsk,
) -> Result<ControlAnswer, AllocError>
    ensures answer { IfOk result (λ answer. answer ≡ uncalled settings.now which) }
    ensures status { IfOk result (λ answer. IsTrue (is_answer_status answer.status)) }
{
    match which {
        ControlAsk::Advertise => advertised(alloc, settings),
        ControlAsk::WrongMethod => empty(alloc, 405),
        _ => empty(alloc, 404),
    }
}

// What was written of an answer.
#[derive(Clone, Copy, Debug, PartialEq, Eq)]
pub(crate) struct Told {
    pub sent: Sent,
    // whether no memory was found, and that was answered
    pub short: bool,
}

// writes an answer, or that no memory was found for it
pub(crate) fn answer_with<K: Sink>(
    sink: &mut K,
    settings: &Settings,
    room: &mut AnswerRoom,
    answer: Option<ControlAnswer>,
    manner: &Manner,
) -> Told
    requires moment { manner.now.moment < DATE_END }
    requires status { IfSome answer (λ a. IsTrue (is_answer_status a.status)) }
    ensures says { Says (IsTold settings.now manner.now answer) (K.held sink.old) (K.held sink.new) result.sent }
    ensures short { result.short ≡ is_none answer }
    ensures cause { HasCause (K.faults sink.old) (K.faults sink.new) result.sent.fault }
{
    match answer {
        Some(answer) => {
            let sent = room.answer_control(sink, manner, &settings.control, &answer);
            Told { sent, short: false }
        }
        None => {
            let sent = refuse(sink, Constant::Unavailable);
            Told { sent, short: true }
        }
    }
}

// writes the answer to the reply of the one call, or that no memory was found for it
fn answer_reply<K: Sink>(
    alloc: Global,
    sink: &mut K,
    settings: &Settings,
    room: &mut AnswerRoom,
    reply: Reply,
    manner: &Manner,
) -> Told
    requires { manner.now.moment < DATE_END }
    ensures says { Says (IsReplied settings.now manner.now reply result.short) (K.held sink.old) (K.held sink.new) result.sent }
    ensures cause { HasCause (K.faults sink.old) (K.faults sink.new) result.sent.fault }
{
    show_reply(alloc, sink, settings, room, &reply, manner)
}

// the same, of a reply that is kept
fn show_reply<K: Sink>(
    alloc: Global,
    sink: &mut K,
    settings: &Settings,
    room: &mut AnswerRoom,
    reply: &Reply,
    manner: &Manner,
) -> Told
    requires { manner.now.moment < DATE_END }
    ensures says { Says (IsReplied settings.now manner.now reply.now result.short) (K.held sink.old) (K.held sink.new) result.sent }
    ensures cause { HasCause (K.faults sink.old) (K.faults sink.new) result.sent.fault }
{
    match full_count(reply) {
        Some(count) => {
            let sent = room.turn_away(sink, manner, count);
            Told { sent, short: false }
        }
        None => {
            let answer = answer_to(alloc, settings, reply).ok();
            answer_with(sink, settings, room, answer, manner)
        }
    }
}

// the limit that is reached, if one is
fn full_count(reply: &Reply) -> Option<u64>
    ensures { result ≡ full_count reply.now }
{
    match reply {
        Reply::Full { count } => Some(*count),
        _ => None,
    }
}

// makes the one call of a request, and answers with the reply
pub(crate) fn answer_call<R: Threads + Wait + Sync, H: Home, K: Sink>(
    rt: &R,
    alloc: Global,
    home: &mut H,
    sink: &mut K,
    settings: &Settings,
    room: &mut AnswerRoom,
    call: Call,
    manner: &Manner,
) -> Next
    requires { manner.now.moment < DATE_END }
    ensures who { H.who home.new ≡ H.who home.old }
    ensures stays { H.stays home.old home.new }
    ensures does { (d : Doing) × CallsOnce settings.now (event_of call) manner.now d result
        × Does (H.who home.old) Any (H.has_seen home.old) (H.has_seen home.new) None None None None (K.held sink.old) (K.held sink.new) d }
    ensures later { K.faults sink.old ≤ K.faults sink.new }
    ensures write { result ≡ Next.Stops Ending.WriteFault → Rose (K.faults sink.old) (K.faults sink.new) }
{
    match home.call(rt, alloc, call) {
        Ok(reply) => {
            let told = answer_reply(alloc, sink, settings, room, reply, manner);
            next_of(manner.leaves, told.short, told.sent.fault)
        }
        Err(_) => {
            let sent = refuse(sink, Constant::Unavailable);
            next_of(manner.leaves, true, sent.fault)
        }
    }
}
