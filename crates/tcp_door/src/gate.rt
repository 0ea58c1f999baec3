//! The gate of a worker.

ghost use Rattle.std.specs.Prelude.{◌≡◌};

use client_hub::Hub;
use sockets::{Patience, TcpGate};
use std::alloc::{AllocError, Global};
use std::net::{Net, TcpListener, TcpStream};
use std::sync::{Arc, Wait};
use std::time::Clock;
use upstream_gate::{Ask, Gate, Outcome};

/// The number of no bytes, and by what a number is multiplied with each byte (the hash of Fowler, Noll and Vo).
const FIRST_NUMBER: u64 = 14_695_981_039_346_656_037;

const NUMBER_STEP: u64 = 1_099_511_628_211;

/// Asks origins as [`TcpGate`] does. Before it waits for one, another worker waits for the clients in place of this one. Where
/// no worker is left for them, and clients ask, it gives up an origin that sent nothing for three seconds, where no worker
/// waits longer. From then on until that origin answers, it is given up after a second, and not asked at all, while no worker
/// is left for clients that ask. Else it has as long as any.
#[derive(Drop)]
pub struct WorkerGate<N: Net + Wait + Clock + Clone + Drop> {
    hub: Arc<Hub, Global>,
    rt: N,
    gate: TcpGate<N>,
}

impl<N: Net<Listener = TcpListener, Stream = TcpStream> + Wait + Clock + Clone + Drop> WorkerGate<
    N,
> {
    // a gate that made no exchange yet
    pub(crate) fn new(hub: Arc<Hub, Global>, rt: N, gate: TcpGate<N>) -> WorkerGate<N> {
        WorkerGate { hub, rt, gate }
    }

    // its patience with an origin
    fn patience(&self, origin: u64) -> Result<WorkerPatience<N>, AllocError> {
        Ok(WorkerPatience {
            hub: Arc::try_clone(&self.hub)?,
            rt: self.rt.clone()?,
            origin,
        })
    }

    /// How many of its exchanges failed, up to 2^64 - 1.
    pub fn faults(&self) -> u64
        ensures { result ≡ self.now.gate.faults }
    {
        self.gate.faults()
    }
}

impl<N: Net<Listener = TcpListener, Stream = TcpStream> + Wait + Clock + Clone + Drop> Gate
    for WorkerGate<N> {
    ghost use Rattle.std.specs.Prelude.{None};

    ghost exchanges = { λ _. None };

    ghost faults = { λ g. g.gate.faults };

    fn fetch(&mut self, alloc: Global, ask: &Ask) -> Outcome {
        let origin = number_of(ask);
        self.hub.hand_over(&self.rt);
        if !self.hub.admits(&self.rt, origin) {
            return self.gate.give_up();
        }
        let patience = match self.patience(origin) {
            Ok(patience) => patience,
            Err(_) => return Outcome::Memory,
        };
        let outcome = self.gate.fetch_patiently(alloc, ask, patience);
        let answered = !matches!(&outcome, Outcome::Failed);
        self.hub.note_answer(&self.rt, origin, answered);
        outcome
    }
}

// A number for the endpoint of an ask. Two may have the same one: then what is doubted of one is doubted of both.
fn number_of(ask: &Ask) -> u64 {
    let mut number = FIRST_NUMBER;
    for byte in ask.endpoint.host.bytes() {
        number = (number ^ u64::from(*byte)).wrapping_mul(NUMBER_STEP);
    }
    (number ^ u64::from(ask.endpoint.port.unwrap_or(0))).wrapping_mul(NUMBER_STEP)
}

// the patience of a worker: it gives an origin up where no worker is left for clients that ask
#[derive(Drop)]
struct WorkerPatience<N: Wait + Clock + Drop> {
    hub: Arc<Hub, Global>,
    rt: N,
    // the number of the origin
    origin: u64,
}

impl<N: Wait + Clock + Drop> Patience for WorkerPatience<N> {
    fn begin(&self, since: u64) -> Option<u64> {
        self.hub.begin_wait(&self.rt, since)
    }

    fn is_over(&self, since: u64) -> bool {
        self.hub.gives_origin_up(&self.rt, self.origin, since)
    }

    fn end(&self, number: Option<u64>) {
        self.hub.end_wait(&self.rt, number);
    }
}
