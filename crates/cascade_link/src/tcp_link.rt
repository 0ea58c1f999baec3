//! The link to further CDNs over TCP.

ghost use Rattle.std.specs.Prelude.{◌≡◌, IfSome, Some};
ghost use Rattle.sockets.specs.Peer.{IsPeer};

use crate::wire::{poll_over, post_over};
use cdni_base::Target;
use sockets::{Peer, Waits, connect, origin_ends, peer_of};
use std::alloc::Global;
use std::net::{Net, TcpListener, TcpStream};
use std::time::Clock;
use trigger_cascade::{Link, Polled, Posted, http_target};

/// Asks further CDNs over TCP, with a connection of its own for each exchange. It does not tell its calls.
///
/// The host is looked up for each exchange, and its addresses are tried in order, for three seconds in all; the time of the
/// look-up is apart and is the system's own. From then on the exchange fails where the far CDN sends and takes nothing for 30
/// seconds, or where the reads after its first byte, or the writes, take more than ten seconds and one second more for each
/// 65,536 bytes that moved. Each exchange that fails counts a fault. A place that is no absolute URL of the scheme `http` is
/// unreadable, and nothing is asked.
#[derive(Drop)]
pub struct TcpLink<N: Net + Clock + Clone + Drop> {
    net: N,
    waits: Waits,
    faults: u64,
}

impl<N: Net<Listener = TcpListener, Stream = TcpStream> + Clock + Clone + Drop> TcpLink<N> {
    /// A link that made no exchange yet.
    pub fn new(net: N, waits: Waits) -> TcpLink<N>
        ensures { result ≡ record { net = net; waits = waits; faults = 0 } }
    {
        TcpLink {
            net,
            waits,
            faults: 0,
        }
    }

    /// How many of its exchanges failed, up to 2^64 - 1.
    pub fn faults(&self) -> u64
        ensures { result ≡ self.now.faults }
    {
        self.faults
    }

    // a connection to the endpoint of a target
    fn connect(&self, to: &Target) -> Option<TcpStream> {
        connect(&self.net, &self.waits, &peer_of_target(to)?)
    }

    // posts a command
    fn send(&self, alloc: Global, to: &Target, body: &[u8]) -> Posted {
        let Some(stream) = self.connect(to) else {
            return Posted::Failed;
        };
        match origin_ends(alloc, &self.net, &self.waits, stream) {
            Ok((mut source, mut sink)) => post_over(alloc, &mut source, &mut sink, to, body),
            Err(_) => Posted::Memory,
        }
    }

    // asks for the status resource at this target
    fn ask(&self, alloc: Global, place: &Target) -> Polled {
        let Some(stream) = self.connect(place) else {
            return Polled::Failed;
        };
        match origin_ends(alloc, &self.net, &self.waits, stream) {
            Ok((mut source, mut sink)) => poll_over(alloc, &mut source, &mut sink, place),
            Err(_) => Polled::Memory,
        }
    }

    // asks for the status resource at this place
    fn ask_at(&self, alloc: Global, place: &[u8]) -> Polled {
        match http_target(alloc, place) {
            Ok(Some(target)) => self.ask(alloc, &target),
            Ok(None) => Polled::Unreadable,
            Err(_) => Polled::Memory,
        }
    }
}

// the peer that a target is at
fn peer_of_target(to: &Target) -> Option<Peer<'_>>
    ensures { IfSome result (λ peer. IsPeer to.now.host (Some to.now.port) peer) }
{
    peer_of(to.host.bytes(), Some(to.port))
}

impl<N: Net<Listener = TcpListener, Stream = TcpStream> + Clock + Clone + Drop> Link
    for TcpLink<N> {
    ghost use Rattle.std.specs.Prelude.{None};

    ghost calls = { λ _. None };

    ghost faults = { λ l. l.faults };

    fn post(&mut self, alloc: Global, to: &Target, body: &[u8]) -> Posted {
        let answer = self.send(alloc, to, body);
        if matches!(&answer, Posted::Failed) {
            self.faults = self.faults.saturating_add(1);
        }
        answer
    }

    fn poll(&mut self, alloc: Global, place: &[u8]) -> Polled {
        let answer = self.ask_at(alloc, place);
        if answer == Polled::Failed {
            self.faults = self.faults.saturating_add(1);
        }
        answer
    }
}
