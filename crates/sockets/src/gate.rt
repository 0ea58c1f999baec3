//! The gate to the origins over TCP.

ghost use Rattle.std.specs.Prelude.{◌≡◌, IfSome};
ghost use Rattle.sockets.specs.Peer.{IsPeer};
ghost use Rattle.upstream_gate.specs.Outcome.{HasGateCause};
ghost use Rattle.upstream_http.specs.Exchange.{Answers, Sends};
ghost use Rattle.upstream_http.specs.Request.{request_text};

use crate::dial::{connect, patient_ends};
use crate::patience::{Endless, Patience};
use crate::peer::{Peer, peer_of};
use crate::waits::Waits;
use edge_base::{Sink, Source};
use std::alloc::Global;
use std::net::{Net, TcpListener, TcpStream};
use std::time::Clock;
use upstream_gate::{Ask, BODY_MAX, Gate, Outcome};
use upstream_http::exchange;

/// Asks origins over TCP, with a connection of its own for each exchange (RFC 9112, section 9.6). It does not tell its
/// exchanges.
///
/// The host is looked up for each exchange, and its addresses are tried in order, for three seconds in all; the time of
/// the look-up is apart and is the system's own. From then on the exchange fails where the origin sends and takes
/// nothing for 30 seconds, or where the reads after its first byte, or the writes, take more than ten seconds and one
/// second more for each 65,536 bytes that moved. Each exchange that fails counts a fault.
#[derive(Drop)]
pub struct TcpGate<N: Net + Clock + Clone + Drop> {
    net: N,
    waits: Waits,
    faults: u64,
}

impl<N: Net<Listener = TcpListener, Stream = TcpStream> + Clock + Clone + Drop> TcpGate<N> {
    /// A gate that made no exchange yet.
    pub fn new(net: N, waits: Waits) -> TcpGate<N>
        ensures { result ≡ record { net = net; waits = waits; faults = 0 } }
    {
        TcpGate {
            net,
            waits,
            faults: 0,
        }
    }

    /// How many of its exchanges failed, up to 2^64 - 1.
    pub fn faults(&self) -> u64
        ensures { result ≡ self.now.faults }
    {
        self.faults
    }

    /// Makes an exchange as `fetch` does, where `patience` says how long may be waited for the bytes of the origin.
    pub fn fetch_patiently<P: Patience + Drop>(
        &mut self,
        alloc: Global,
        ask: &Ask,
        patience: P,
    ) -> Outcome
        ensures cause { HasGateCause self.old.faults self.new.faults result }
    {
        let outcome = self.ask(alloc, ask, patience);
        if matches!(&outcome, Outcome::Failed) {
            self.faults = self.faults.saturating_add(1);
        }
        outcome
    }

    /// Makes no exchange, as one that fails.
    pub fn give_up(&mut self) -> Outcome
        ensures cause { HasGateCause self.old.faults self.new.faults result }
    {
        self.faults = self.faults.saturating_add(1);
        Outcome::Failed
    }

    // makes the exchange
    fn ask<P: Patience + Drop>(&self, alloc: Global, ask: &Ask, patience: P) -> Outcome {
        let Some(peer) = peer_of_ask(ask) else {
            return Outcome::Failed;
        };
        let Some(stream) = connect(&self.net, &self.waits, &peer) else {
            return Outcome::Failed;
        };
        match patient_ends(alloc, &self.net, &self.waits, stream, patience) {
            Ok((mut source, mut sink)) => ask_over(alloc, &mut source, &mut sink, ask),
            Err(_) => Outcome::Memory,
        }
    }
}

// the peer that an ask is for
fn peer_of_ask(ask: &Ask) -> Option<Peer<'_>>
    ensures { IfSome result (λ peer. IsPeer ask.now.endpoint.host ask.now.endpoint.port peer) }
{
    peer_of(ask.endpoint.host.bytes(), ask.endpoint.port)
}

// makes this exchange over both ends
fn ask_over<S: Source, K: Sink>(alloc: Global, source: &mut S, sink: &mut K, ask: &Ask) -> Outcome
    ensures sent { Sends (K.held sink.old) (K.held sink.new) (request_text ask.now) result }
    ensures answer { Answers BODY_MAX (S.left source.old) (S.left source.new) result }
{
    exchange(alloc, source, sink, ask, BODY_MAX as u64)
}

impl<N: Net<Listener = TcpListener, Stream = TcpStream> + Clock + Clone + Drop> Gate
    for TcpGate<N> {
    ghost use Rattle.std.specs.Prelude.{None};

    ghost exchanges = { λ _. None };

    ghost faults = { λ g. g.faults };

    fn fetch(&mut self, alloc: Global, ask: &Ask) -> Outcome {
        self.fetch_patiently(alloc, ask, Endless)
    }
}
