//! The connections of a worker, one after the other.

ghost use Rattle.std.specs.Prelude.{◌≡◌, ◌≢◌, ◌≤◌, ◌-◌, List, length, false, true, None, Some};
ghost use Rattle.std.specs.Option.{option_map};
ghost use Rattle.edge_base.specs.Causes.{Rose};
ghost use Rattle.edge_base.specs.Clock.{Grows};
ghost use Rattle.history.specs.Event.{History};
ghost use Rattle.session_base.specs.Doing.{Any, Makes};
ghost use Rattle.session.specs.Law.{KeepsTheLaw};
ghost use Rattle.doors.specs.Door.{Shuts};
ghost use Rattle.doors.specs.Ended.{EndsSince};
ghost use Rattle.doors.specs.Served.{HasGivenLast, HasServedAll};
ghost use Rattle.doors.specs.Visit.{IsEndOf, IsStep, IsVisit, Serves, Visit};

use crate::door::{Accepted, Door};
use crate::law::what_visits_open_is_ended;
use crate::outside::Worker;
use edge_base::Clock;
use location_acl::{Ip, PlaceTable};
use node_core::{Home, every_answer_is_lawful};
use session::{Peer, Settings, serve_session};
use std::alloc::Global;
use std::sync::Wait;
use std::thread::Threads;
use upstream_gate::Gate;

/// How the serving of a door ended.
#[derive(Clone, Copy, Debug, PartialEq, Eq)]
pub enum DoorEnd {
    /// The door has no connection left.
    Closed,
    /// As many connections were served as were asked for.
    Served,
    /// The door failed.
    Failed,
    /// Want of memory.
    Memory,
}

// What became of the next connection: it was served, or why there is none.
#[derive(Clone, Copy, PartialEq, Eq)]
pub(crate) enum Step {
    Served,
    Closed,
    Failed,
    Memory,
}

/// Serves the connections of a worker's door, one after the other, each by one session, with the place of its address, and
/// closes each before the next, whatever its session's ending is. It may wait, and need not return: in a run that does not
/// end too, each connection is served and closed before the door is asked for the next one.
///
/// * `Closed`: only where the door has none left.
/// * `Served`: exactly where as many were accepted as `connections` says.
/// * `Failed`: only where the door's count of faults rose.
/// * `Memory`: want of memory.
pub fn serve_door<R: Threads + Wait + Sync, H: Home, D: Door, G: Gate, C: Clock>(
    rt: &R,
    alloc: Global,
    home: &mut H,
    worker: &mut Worker<D, G, C>,
    places: &PlaceTable,
    settings: &Settings,
    connections: Option<u64>,
) -> DoorEnd
    requires { HasServedAll (D.book worker.old.door) }
    ensures served { HasServedAll (D.book worker.new.door) }
    ensures who { H.who home.new ≡ H.who home.old }
    ensures stays { H.stays home.old home.new }
    ensures visits { (visits : List Visit) × Serves settings.now places.now (H.who home.old)
        (H.has_seen home.old) (H.has_seen home.new) (C.given worker.old.clock) (C.given worker.new.clock)
        (G.exchanges worker.old.gate) (G.exchanges worker.new.gate) (D.book worker.old.door) (D.book worker.new.door) visits
        × IsEndOf connections (length visits) (D.book worker.new.door) result }
    ensures ended { (h : History) → H.has_seen home.old h → EndsSince (H.who home.old) h (H.has_seen home.new) }
    ensures law { (h : History) → H.has_seen home.new h → KeepsTheLaw (H.who home.new).made h }
    ensures later { D.faults worker.old.door ≤ D.faults worker.new.door }
    ensures failed { result ≡ DoorEnd.Failed → Rose (D.faults worker.old.door) (D.faults worker.new.door) }
{
    every_answer_is_lawful();
    what_visits_open_is_ended();
    let mut left = connections;
    'serving: for _ in rt.forever() {
        if has_run_out(left) {
            return DoorEnd::Served;
        }
        match serve_next(rt, alloc, home, worker, places, settings) {
            Step::Served => left = one_less(left),
            Step::Closed => return DoorEnd::Closed,
            Step::Failed => return DoorEnd::Failed,
            Step::Memory => return DoorEnd::Memory,
        }
    }
    unreachable!()
}

// whether none of so many are left
fn has_run_out(left: Option<u64>) -> bool
    ensures yes { result ≡ true → left ≡ Some 0 }
    ensures no { result ≡ false → left ≢ Some 0 }
{
    match left {
        Some(number) => number == 0,
        None => false,
    }
}

// one less of so many
fn one_less(left: Option<u64>) -> Option<u64>
    requires { left ≢ Some 0 }
    ensures { result ≡ option_map (λ number. number - 1) left }
{
    match left {
        Some(number) => Some(number - 1),
        None => None,
    }
}

// serves the next connection, where the door gives one
fn serve_next<R: Threads + Wait + Sync, H: Home, D: Door, G: Gate, C: Clock>(
    rt: &R,
    alloc: Global,
    home: &mut H,
    worker: &mut Worker<D, G, C>,
    places: &PlaceTable,
    settings: &Settings,
) -> Step
    requires { HasServedAll (D.book worker.old.door) }
    ensures served { HasServedAll (D.book worker.new.door) }
    ensures who { H.who home.new ≡ H.who home.old }
    ensures stays { H.stays home.old home.new }
    ensures visits { (visits : List Visit) × Serves settings.now places.now (H.who home.old)
        (H.has_seen home.old) (H.has_seen home.new) (C.given worker.old.clock) (C.given worker.new.clock)
        (G.exchanges worker.old.gate) (G.exchanges worker.new.gate) (D.book worker.old.door) (D.book worker.new.door) visits
        × IsStep (D.book worker.new.door) result (length visits) }
    ensures later { D.faults worker.old.door ≤ D.faults worker.new.door }
    ensures failed { result ≡ Step.Failed → Rose (D.faults worker.old.door) (D.faults worker.new.door) }
{
    match worker.door.accept(rt, alloc) {
        Accepted::One { ip, source, sink } => {
            serve_given(rt, alloc, home, worker, places, settings, ip, source, sink);
            Step::Served
        }
        Accepted::Closed => Step::Closed,
        Accepted::Failed => Step::Failed,
        Accepted::Memory => Step::Memory,
    }
}

// serves a connection that was given, and closes it
fn serve_given<R: Threads + Wait + Sync, H: Home, D: Door, G: Gate, C: Clock>(
    rt: &R,
    alloc: Global,
    home: &mut H,
    worker: &mut Worker<D, G, C>,
    places: &PlaceTable,
    settings: &Settings,
    ip: Ip,
    source: D::S,
    sink: D::K,
)
    requires read_fresh { D.S.faults source ≡ 0 }
    requires write_fresh { D.K.faults sink ≡ 0 }
    requires last { HasGivenLast (D.book worker.old.door)
        (record { ip = ip; left = D.S.left source; held = D.K.held sink }) }
    ensures served { HasServedAll (D.book worker.new.door) }
    ensures who { H.who home.new ≡ H.who home.old }
    ensures stays { H.stays home.old home.new }
    ensures visit { (v : Visit) × IsVisit settings.now places.now v
        × (v.given ≡ record { ip = ip; left = D.S.left source; held = D.K.held sink })
        × Shuts (D.book worker.old.door) (D.book worker.new.door) v.shut
        × Grows (C.given worker.old.clock) (C.given worker.new.clock) v.doing.moments
        × Grows (G.exchanges worker.old.gate) (G.exchanges worker.new.gate) v.doing.exchanges
        × Makes (H.who home.old) Any (H.has_seen home.old) (H.has_seen home.new) v.doing.calls }
    ensures later { D.faults worker.old.door ≤ D.faults worker.new.door }
{
    let mut source = source;
    let mut sink = sink;
    let peer = Peer {
        place: places.place_of(ip),
    };
    serve_session(
        rt,
        alloc,
        home,
        &peer,
        &mut source,
        &mut sink,
        &mut worker.gate,
        &mut worker.clock,
        settings,
    );
    worker.door.close(source, sink);
}
