//! Connections to other servers.

ghost use Rattle.std.specs.Prelude.{◌≡◌, IfOk, IfSome, Ok};
ghost use Rattle.std.specs.Arc.{arc_value};
ghost use Rattle.std.specs.Iterator.{IsFinite};

use crate::link::Link;
use crate::origin_source::OriginSource;
use crate::pace::Pace;
use crate::patience::{Endless, Patience};
use crate::peer::{Peer, PeerName};
use crate::ready::clock_of;
use crate::sink::SocketSink;
use crate::waits::Waits;
use std::alloc::{AllocError, Global};
use std::net::{Net, SocketAddr, TcpListener, TcpStream, ToSocketAddrs};
use std::sync::Arc;
use std::time::{Clock, Duration};

/// A connection to the first address of this peer that takes one; none where there is none, or where no address takes one
/// within the milliseconds of `waits.connect`, over all addresses. A name is looked up first, and the time of that is
/// apart and is the system's own.
pub fn connect<N: Net<Listener = TcpListener, Stream = TcpStream> + Clock>(
    net: &N,
    waits: &Waits,
    peer: &Peer<'_>,
) -> Option<TcpStream> {
    match peer.name {
        PeerName::Ip(ip) => connect_each(net, waits.connect, (ip, peer.port)),
        PeerName::Host(host) => connect_each(net, waits.connect, (host, peer.port)),
    }
}

// a connection to the first address that takes one, within so many milliseconds
fn connect_each<N: Net<Listener = TcpListener, Stream = TcpStream> + Clock, A: ToSocketAddrs>(
    net: &N,
    time: u64,
    name: A,
) -> Option<TcpStream> {
    let addrs = addrs_of(net, &name)?;
    let mut left = time;
    for addr in addrs {
        if left == 0 {
            return None;
        }
        let start = clock_of(net);
        match connect_within(net, &addr, left) {
            Some(stream) => return Some(stream),
            None => {}
        }
        let took = clock_of(net).saturating_sub(start);
        left = left.saturating_sub(took.max(1));
    }
    None
}

// the addresses of a name
fn addrs_of<N: Net, A: ToSocketAddrs>(net: &N, name: &A) -> Option<A::Iter>
    ensures gives { IfSome result (λ addrs. A.to_socket_addrs_gives name.now (Ok addrs)) }
    ensures ends { IfSome result (λ addrs.
        A.Iter.Iterator.can_next addrs × IsFinite (A.Iter.Iterator.remaining addrs)) }
{
    name.to_socket_addrs(net).ok()
}

// a connection to this address, within so many milliseconds
fn connect_within<N: Net<Stream = TcpStream>>(
    net: &N,
    addr: &SocketAddr,
    time: u64,
) -> Option<TcpStream> {
    match TcpStream::connect_timeout(net, addr, Duration::from_millis(time)) {
        Ok(stream) => Some(stream),
        Err(_) => None,
    }
}

/// Both ends of this connection to an origin, or to another server that is asked like one. `waits` says how slowly bytes
/// may move.
///
/// # Errors
/// Want of memory.
pub fn origin_ends<C: Clock + Clone + Drop>(
    alloc: Global,
    clock: &C,
    waits: &Waits,
    stream: TcpStream,
) -> Result<(OriginSource<C, Endless>, SocketSink<C>), AllocError>
    ensures faults { IfOk result (λ ends. (ends.0.faults ≡ 0) × (ends.1.faults ≡ 0)) }
    ensures source { IfOk result (λ ends. (arc_value ends.0.link).stream ≡ stream) }
    ensures sink { IfOk result (λ ends. (arc_value ends.1.link).stream ≡ stream) }
{
    patient_ends(alloc, clock, waits, stream, Endless)
}

/// The same, where `patience` says how long may be waited for the bytes of the origin.
///
/// # Errors
/// Want of memory.
pub fn patient_ends<C: Clock + Clone + Drop, P: Patience + Drop>(
    alloc: Global,
    clock: &C,
    waits: &Waits,
    stream: TcpStream,
    patience: P,
) -> Result<(OriginSource<C, P>, SocketSink<C>), AllocError>
    ensures faults { IfOk result (λ ends. (ends.0.faults ≡ 0) × (ends.1.faults ≡ 0)) }
    ensures source { IfOk result (λ ends. (arc_value ends.0.link).stream ≡ stream) }
    ensures sink { IfOk result (λ ends. (arc_value ends.1.link).stream ≡ stream) }
{
    let link = Arc::new(alloc, Link::new(stream))?;
    let other = Arc::try_clone(&link)?;
    let pace = Pace::of_origin(waits);
    let source = OriginSource::new(link, clock.clone()?, pace, patience);
    let sink = SocketSink::new(other, clock.clone()?, pace);
    Ok((source, sink))
}
