//! The door over TCP.

ghost use Rattle.std.specs.Prelude.{◌≡◌, ◌≤◌, IfOk, IfSome, Some};
ghost use Rattle.std.specs.Arc.{arc_value};
ghost use Rattle.edge_base.specs.Causes.{Rose};
ghost use Rattle.doors.specs.Door.{HaveNoFaults, IsFailed};
ghost use Rattle.tcp_door.specs.Door.{GivesIp};

use crate::sink::ClientSink;
use crate::source::{Left, Run, SocketSource};
use client_hub::{Hub, Look, Parked, Taken, Task, Waiting};
use doors::{Accepted, Door};
use sockets::{Link, Pace, Room, SocketSink};
use std::alloc::{AllocError, Global};
use std::net::{Shutdown, TcpStream};
use std::sync::{Arc, Wait};
use std::thread::Threads;
use std::time::Clock;

/// How many bytes are read at most of a client that has not sent all, before its connection is closed.
const LINGER_BYTES: usize = 8_388_608;

/// Gives the connections of a TCP listener. It tells nothing of them.
///
/// All doors of a listener share the connections that no worker has. Such a connection is given to a worker where a
/// whole head came with its body, or bytes that never become one: that is so where no head begins so (RFC 9112), and for 66
/// line feeds, for 16,384 bytes, and for bytes behind which the client sends no more. Before that it has no worker. A body
/// that is longer than 1,048,576 bytes, or whose length is not told, is not waited for so. A client
/// that sends no more, and no byte before, is closed. So is a connection without a byte of a next request after 60
/// seconds, one with a part of a head ten seconds after the first byte of that head, and one with a part of a body ten
/// seconds after its head, and one second more for each 65,536 bytes that came. Where what came of bodies takes more than
/// 64 MiB, those are closed that have waited longest. A client that waits for word before it sends its body has it at once
/// (RFC 9110, section 10.1.1).
///
/// A worker keeps its connection between two requests where no other one is open, or where it was given sixteen times in a
/// row and no other one since. Else the connection goes back to the others and may be given again, to any worker. So a
/// connection of a door is one run of requests: of one client at a time that is one TCP connection, and of several it may be
/// a part of one, whose requests count anew towards the most of a connection.
///
/// One door at a time waits for clients, and serves what came one after the other; those of the other workers sleep. One of
/// them is called before this one may wait for an origin or a client, and where what came has waited for a millisecond.
///
/// Where no worker is left for clients that ask, whoever waits longest for a client or an origin gives that up: [`ClientSink`]
/// and [`crate::WorkerGate`] say after how long. Else all wait as long as they may.
///
/// A client over IPv6 whose address holds an IPv4 address is given with that. Errors of accepting are passed over, but
/// for those that say that the listener is none; where no descriptor is left, connections that wait for a second are
/// closed. A connection that ends before its client has sent all is closed for writing, and up to 8,388,608 bytes of it
/// are read for ten seconds at most, without a worker, so that its last answer arrives.
#[derive(Drop)]
pub struct TcpDoor<W: Wait + Clock + Clone + Drop> {
    hub: Arc<Hub, Global>,
    rt: W,
    alloc: Global,
    room: Option<Room>,
    faults: u64,
}

impl<W: Wait + Clock + Clone + Drop> TcpDoor<W> {
    // a door that gave no connection yet
    pub(crate) fn new(hub: Arc<Hub, Global>, rt: W, alloc: Global) -> TcpDoor<W>
        ensures { result.faults ≡ 0 }
    {
        TcpDoor {
            hub,
            rt,
            alloc,
            room: None,
            faults: 0,
        }
    }

    /// How many of its calls failed, up to 2^64 - 1.
    pub fn faults(&self) -> u64
        ensures { result ≡ self.now.faults }
    {
        self.faults
    }

    /// The next connection, as `accept` gives it. Code that knows this door by its type, as a test of its sockets does, owes
    /// no session for it.
    pub fn next_client<R: Wait>(
        &mut self,
        rt: &R,
        alloc: Global,
    ) -> Accepted<SocketSource<W>, ClientSink<W>>
        ensures fresh { HaveNoFaults (λ source. source.faults) (λ sink. sink.sink.faults) result }
        ensures later { self.old.faults ≤ self.new.faults }
        ensures cause { IsFailed result → Rose self.old.faults self.new.faults }
        ensures address { GivesIp (λ source. source.ip) result }
    {
        let mut room = match self.room.take() {
            Some(room) => room,
            None => match Room::new(alloc) {
                Ok(room) => room,
                Err(_) => return Accepted::Memory,
            },
        };
        let Some(taken) = self.wait(rt, alloc, &mut room) else {
            self.faults = self.faults.saturating_add(1);
            return Accepted::Failed;
        };
        let (ip, token) = (taken.ip, taken.token);
        match self.ends(alloc, taken, room) {
            Ok((source, sink)) => Accepted::One { ip, source, sink },
            Err(_) => {
                self.hub.forget(&self.rt, token);
                Accepted::Memory
            }
        }
    }

    /// Closes a connection, as `close` does, or parks it.
    pub fn close_client(&mut self, source: SocketSource<W>, sink: ClientSink<W>)
        ensures later { self.old.faults ≤ self.new.faults }
    {
        let room = self.shut(source, sink);
        self.room = Some(room);
    }

    // waits for the next connection; none where the listener is broken
    fn wait<R: Wait>(&self, rt: &R, alloc: Global, room: &mut Room) -> Option<Taken> {
        for _ in rt.forever() {
            let look = match self.hub.next_task(&self.rt) {
                Task::Accept => self.hub.accept(&self.rt, alloc, room),
                Task::Read(parked) => self.hub.read(&self.rt, alloc, parked, room),
            };
            match look {
                Look::Given(taken) => return Some(taken),
                Look::Fault => return None,
                Look::Nothing => {}
            }
        }
        unreachable!()
    }

    // both ends of a connection
    fn ends(
        &self,
        alloc: Global,
        taken: Taken,
        room: Room,
    ) -> Result<(SocketSource<W>, ClientSink<W>), AllocError>
        ensures faults { IfOk result (λ ends. (ends.0.faults ≡ 0) × (ends.1.sink.faults ≡ 0)) }
        ensures client { IfOk result (λ ends. (ends.0.ip ≡ taken.ip) × (ends.0.token ≡ taken.token)) }
        ensures room { IfOk result (λ ends. ends.0.room ≡ room) }
        ensures source { IfOk result (λ ends. (arc_value ends.0.link).stream ≡ taken.stream) }
        ensures sink { IfOk result (λ ends. (arc_value ends.1.sink.link).stream ≡ taken.stream) }
    {
        let Taken {
            stream,
            ip,
            token,
            rest,
        } = taken;
        let link = Arc::new(alloc, Link::new(stream))?;
        let other = Arc::try_clone(&link)?;
        let hub = Arc::try_clone(&self.hub)?;
        let pace = Pace::of_client(&self.hub.waits);
        let sink = SocketSink::new(other, self.rt.clone()?, pace);
        let sink = ClientSink::new(Arc::try_clone(&self.hub)?, self.rt.clone()?, sink);
        let source = SocketSource::new(hub, link, self.rt.clone()?, ip, token, room, rest, pace);
        Ok((source, sink))
    }

    // ends a connection whose run is over, or parks it
    fn shut(&self, source: SocketSource<W>, sink: ClientSink<W>) -> Room {
        let broken = sink.faults() > 0;
        let Left {
            link,
            ip,
            mut room,
            since,
            born,
            token,
            run,
            unread,
        } = source.into_left();
        drop(sink);
        let Some(stream) = stream_of(link) else {
            self.hub.forget(&self.rt, token);
            return room;
        };
        let parked = Parked {
            stream,
            ip,
            waiting: Waiting::Head,
            got: Vec::new(self.alloc),
            since,
            born,
            token,
        };
        if run == Run::Yielded && !broken {
            self.hub.park_again(&self.rt, self.alloc, parked, &room);
        } else if run == Run::Going && !broken && unread {
            let _ = parked.stream.shutdown(Shutdown::Write);
            self.hub.let_end(&self.rt, parked, LINGER_BYTES);
        } else {
            self.hub.forget(&self.rt, token);
        }
        room.clear();
        room
    }
}

// the connection of both ends, where no other one has a share of it
fn stream_of(link: Arc<Link, Global>) -> Option<TcpStream>
    ensures { IfSome result (λ stream. stream ≡ (arc_value link).stream) }
{
    match Arc::into_inner(link) {
        Some(
            Link {
                stream,
                messages: _,
            },
        ) => Some(stream),
        None => None,
    }
}

impl<W: Wait + Clock + Clone + Send + Drop> Door for TcpDoor<W> {
    ghost use Rattle.std.specs.Prelude.{◌≡◌, ◌≤◌, None};
    ghost use Rattle.edge_base.specs.Causes.{Rose};
    ghost use Rattle.doors.specs.Door.{HaveNoFaults, IsFailed};

    type S = SocketSource<W>;

    type K = ClientSink<W>;

    ghost book = { λ _. None };

    ghost faults = { λ d. d.faults };

    fn accept<R: Threads + Wait + Sync>(
        &mut self,
        rt: &R,
        alloc: Global,
    ) -> Accepted<SocketSource<W>, ClientSink<W>> {
        self.next_client(rt, alloc)
    }

    fn close(&mut self, source: SocketSource<W>, sink: ClientSink<W>) {
        self.close_client(source, sink);
    }
}
