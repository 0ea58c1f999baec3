//! Trigger commands (RFC 8007, section 4.1).

ghost use Rattle.std.specs.Prelude.{◌≡◌, ◌≤◌, ◌<◌, ◌↔◌, ℕ, IfSome, IsTrue};
ghost use Rattle.cdni_base.specs.declared.date.TheConstants.{DATE_END};
ghost use Rattle.edge_base.specs.Causes.{Rose};
ghost use Rattle.edge_base.specs.Write.{HasCause};
ghost use Rattle.answer_head.specs.Answer.{is_answer_status};
ghost use Rattle.control_request.specs.Answer.{IsMadeWith, created};
ghost use Rattle.control_request.specs.Control.{Acts, Commands, IsCreated, next_behind};
ghost use Rattle.session_base.specs.Answer.{Says};
ghost use Rattle.session_base.specs.Doing.{Any, Does, Doing};
ghost use Rattle.session_base.specs.GateFaults.{CountsFaults};
ghost use Rattle.trigger_command.specs.Spec.{SpecParts};

use crate::advance::{Step, advance_all};
use crate::answer::{made_with, refused, resource_of};
use crate::control::{Told, answer_call, answer_with};
use cdni_base::Text;
use edge_base::{Clock, Sink};
use history::{Call, Reply};
use node_core::Home;
use session_base::{
    AnswerRoom, Constant, ControlAnswer, Ending, Manner, Next, Settings, next_of, refuse,
};
use std::alloc::Global;
use std::sync::Wait;
use std::thread::Threads;
use trigger_command::{Act, Command, CommandFault, Spec};
use upstream_gate::Gate;

// reads a command of this text, and does what it says or refuses it
pub(crate) fn command<R: Threads + Wait + Sync, H: Home, K: Sink, G: Gate, C: Clock>(
    rt: &R,
    alloc: Global,
    home: &mut H,
    sink: &mut K,
    gate: &mut G,
    clock: &mut C,
    settings: &Settings,
    room: &mut AnswerRoom,
    body: &[u8],
    manner: &Manner,
) -> Next
    requires { manner.now.moment < DATE_END }
    ensures who { H.who home.new ≡ H.who home.old }
    ensures stays { H.stays home.old home.new }
    ensures does { (d : Doing) × Commands settings.now body.now manner.now d result
        × Does (H.who home.old) Any (H.has_seen home.old) (H.has_seen home.new) (C.given clock.old) (C.given clock.new)
        (G.exchanges gate.old) (G.exchanges gate.new) (K.held sink.old) (K.held sink.new) d
        × CountsFaults (G.faults gate.old) (G.faults gate.new) d.calls }
    ensures later { K.faults sink.old ≤ K.faults sink.new }
    ensures write { result ≡ Next.Stops Ending.WriteFault → Rose (K.faults sink.old) (K.faults sink.new) }
{
    match Command::read(alloc, body, &settings.own, &settings.control) {
        Ok(command) => act(
            rt,
            alloc,
            home,
            sink,
            gate,
            clock,
            settings,
            room,
            command.act,
            manner,
        ),
        Err(fault) if is_memory(&fault) => {
            let sent = refuse(sink, Constant::Unavailable);
            next_of(manner.leaves, true, sent.fault)
        }
        Err(fault) => {
            let answer = refused(alloc, &fault).ok();
            let told = answer_with(sink, settings, room, answer, manner);
            next_of(manner.leaves, told.short, told.sent.fault)
        }
    }
}

fn is_memory(fault: &CommandFault) -> bool
    ensures { IsTrue result ↔ (fault.now ≡ CommandFault.Memory) }
{
    matches!(fault, CommandFault::Memory)
}

// makes a trigger, or cancels some
fn act<R: Threads + Wait + Sync, H: Home, K: Sink, G: Gate, C: Clock>(
    rt: &R,
    alloc: Global,
    home: &mut H,
    sink: &mut K,
    gate: &mut G,
    clock: &mut C,
    settings: &Settings,
    room: &mut AnswerRoom,
    act: Act,
    manner: &Manner,
) -> Next
    requires { manner.now.moment < DATE_END }
    ensures who { H.who home.new ≡ H.who home.old }
    ensures stays { H.stays home.old home.new }
    ensures does { (d : Doing) × Acts settings.now act manner.now d result
        × Does (H.who home.old) Any (H.has_seen home.old) (H.has_seen home.new) (C.given clock.old) (C.given clock.new)
        (G.exchanges gate.old) (G.exchanges gate.new) (K.held sink.old) (K.held sink.new) d
        × CountsFaults (G.faults gate.old) (G.faults gate.new) d.calls }
    ensures later { K.faults sink.old ≤ K.faults sink.new }
    ensures write { result ≡ Next.Stops Ending.WriteFault → Rose (K.faults sink.old) (K.faults sink.new) }
{
    match act {
        Act::Trigger(spec) => trigger(
            rt, alloc, home, sink, gate, clock, settings, room, spec, manner,
        ),
        Act::Cancel(ids) => {
            let call = Call::Cancel {
                ids,
                moment: manner.moment,
            };
            answer_call(rt, alloc, home, sink, settings, room, call, manner)
        }
    }
}

// makes a trigger, answers, and makes its steps
fn trigger<R: Threads + Wait + Sync, H: Home, K: Sink, G: Gate, C: Clock>(
    rt: &R,
    alloc: Global,
    home: &mut H,
    sink: &mut K,
    gate: &mut G,
    clock: &mut C,
    settings: &Settings,
    room: &mut AnswerRoom,
    spec: Spec,
    manner: &Manner,
) -> Next
    requires { manner.now.moment < DATE_END }
    ensures who { H.who home.new ≡ H.who home.old }
    ensures stays { H.stays home.old home.new }
    ensures does { (d : Doing) × Acts settings.now (Act.Trigger spec) manner.now d result
        × Does (H.who home.old) Any (H.has_seen home.old) (H.has_seen home.new) (C.given clock.old) (C.given clock.new)
        (G.exchanges gate.old) (G.exchanges gate.new) (K.held sink.old) (K.held sink.new) d
        × CountsFaults (G.faults gate.old) (G.faults gate.new) d.calls }
    ensures later { K.faults sink.old ≤ K.faults sink.new }
    ensures write { result ≡ Next.Stops Ending.WriteFault → Rose (K.faults sink.old) (K.faults sink.new) }
{
    let moment = manner.moment;
    let (text, spec) = resource_of(alloc, spec, moment);
    match home.call(rt, alloc, Call::Command { spec, moment }) {
        Ok(Reply::Created { id }) => {
            let told = tell_created(alloc, sink, settings, room, id, text, manner);
            let last = advance_all(rt, alloc, home, sink, gate, clock, settings, manner, id);
            next_behind(last, next_of(manner.leaves, told.short, told.sent.fault))
        }
        Ok(Reply::Full { count }) => {
            let sent = room.turn_away(sink, manner, count);
            next_of(manner.leaves, false, sent.fault)
        }
        Ok(_) => unreachable!(),
        Err(_) => {
            let sent = refuse(sink, Constant::Unavailable);
            next_of(manner.leaves, true, sent.fault)
        }
    }
}

// what follows the steps of a trigger
fn next_behind(last: Step, next: Next) -> Next
    ensures { result ≡ next_behind last next }
{
    match last {
        Step::Goes | Step::Rests => next,
        Step::Memory => Next::Stops(Ending::Memory),
    }
}

// answers where a new trigger stands, with its resource; or that no memory was found for it
fn tell_created<K: Sink>(
    alloc: Global,
    sink: &mut K,
    settings: &Settings,
    room: &mut AnswerRoom,
    id: u64,
    text: Option<Text>,
    manner: &Manner,
) -> Told
    requires { manner.now.moment < DATE_END }
    ensures says { (spec : SpecParts) → IfSome text (λ t. t ≡ (created id spec manner.now.moment).text)
        → Says (IsCreated settings.now manner.now id spec result.short) (K.held sink.old) (K.held sink.new) result.sent }
    ensures cause { HasCause (K.faults sink.old) (K.faults sink.new) result.sent.fault }
{
    let answer = resource_answer(alloc, id, text);
    answer_with(sink, settings, room, answer, manner)
}

// the answer with this resource, where memory was found for both
fn resource_answer(alloc: Global, id: u64, text: Option<Text>) -> Option<ControlAnswer>
    ensures answer { IsMadeWith id text result }
    ensures status { IfSome result (λ answer. IsTrue (is_answer_status answer.status)) }
{
    match text {
        Some(text) => match made_with(alloc, id, text) {
            Ok(answer) => Some(answer),
            Err(_) => None,
        },
        None => None,
    }
}
