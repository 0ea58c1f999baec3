//! The sink of a client's connection.

ghost use Rattle.std.specs.Prelude.{◌≡◌, ◌<◌, length};
ghost use Rattle.edge_base.specs.Sink.{IsPutCount, HasWriteCause};
ghost use Rattle.tcp_door.specs.Sink.{late_after};

use client_hub::Hub;
use edge_base::{Put, Sink};
use sockets::{SocketSink, WAIT_STEP, clock_of};
use std::alloc::Global;
use std::sync::{Arc, Wait};
use std::time::Clock;

/// How many bytes a client takes in a millisecond that is not slow.
const QUICK_BYTES: u64 = 1_024;

/// How often a wait is begun again at most.
const MOST_WAITS: u64 = u64::MAX;

/// Writes to a client's connection as [`SocketSink`] does. Before it waits for one that reads slowly, another worker waits
/// for the others in place of this one. Where no worker is left for them, and clients ask, it gives up a client that it
/// waited for a second longer than one that takes 1,024 bytes in a millisecond, where no worker waits longer.
#[derive(Drop)]
pub struct ClientSink<W: Wait + Clock + Drop> {
    hub: Arc<Hub, Global>,
    rt: W,
    sink: SocketSink<W>,
    // how many milliseconds more its client was waited for than one that is not slow
    late: u64,
}

impl<W: Wait + Clock + Drop> ClientSink<W> {
    // a sink that took nothing yet
    pub(crate) fn new(hub: Arc<Hub, Global>, rt: W, sink: SocketSink<W>) -> ClientSink<W>
        ensures { result.sink ≡ sink }
    {
        ClientSink {
            hub,
            rt,
            sink,
            late: 0,
        }
    }

    /// How many of its calls failed, up to 2^64 - 1.
    pub fn faults(&self) -> u64
        ensures { result ≡ self.now.sink.faults }
    {
        self.sink.faults()
    }

    // waits for room, and writes what there is room for
    fn wait_and_write(&mut self, piece: &[u8]) -> Put
        requires { 0 < length piece.now }
        ensures count { IsPutCount (length piece.now) result }
        ensures cause { HasWriteCause self.old.sink.faults self.new.sink.faults result }
    {
        let start = clock_of(&self.rt);
        let since = start.saturating_sub(self.late);
        let number = self.hub.begin_wait(&self.rt, since);
        let put = self.write_in_steps(piece, since);
        self.hub.end_wait(&self.rt, number);
        let took = clock_of(&self.rt).saturating_sub(start);
        if let Put::Some(count) = put {
            self.late = late_after(self.late, took, count);
        }
        put
    }

    // waits in steps, as long as the client is not given up
    fn write_in_steps(&mut self, piece: &[u8], since: u64) -> Put
        requires { 0 < length piece.now }
        ensures count { IsPutCount (length piece.now) result }
        ensures cause { HasWriteCause self.old.sink.faults self.new.sink.faults result }
    {
        for _ in 0..MOST_WAITS {
            if let Some(put) = self.sink.write_within_step(piece, WAIT_STEP) {
                return put;
            }
            if self.hub.gives_up(&self.rt, since) {
                break;
            }
        }
        self.sink.give_up()
    }
}

// how late a client is that was so late, was waited for so long, and took so many bytes then
fn late_after(late: u64, took: u64, count: usize) -> u64
    ensures { result ≡ late_after late took count }
{
    late.saturating_add(took)
        .saturating_sub(count as u64 / QUICK_BYTES)
}

impl<W: Wait + Clock + Drop> Sink for ClientSink<W> {
    ghost use Rattle.std.specs.Prelude.{◌<◌, length, None};
    ghost use Rattle.edge_base.specs.Sink.{IsPutCount, Writes, HasWriteCause};

    ghost held = { λ _. None };

    ghost faults = { λ s. s.sink.faults };

    fn write(&mut self, piece: &[u8]) -> Put {
        match self.sink.write_soon(piece) {
            Some(put) => put,
            None => {
                self.hub.hand_over(&self.rt);
                self.wait_and_write(piece)
            }
        }
    }
}
