//! The outside over TCP and the clock of the machine.

ghost use Rattle.std.specs.Prelude.{◌≡◌, ◌≤◌, None, IfOk};
ghost use Rattle.edge_base.specs.Causes.{next_count};

use crate::door::TcpDoor;
use crate::gate::WorkerGate;
use crate::place_file::read_file;
use client_hub::Hub;
use doors::{Outside, OutsideFault, Worker, read_address};
use edge_base::WallClock;
use listing::Text;
use location_acl::Ip;
use sockets::{TcpGate, Waits};
use std::alloc::{AllocError, Global};
use std::net::{IpAddr, Ipv4Addr, Ipv6Addr, Net, SocketAddr, TcpListener, TcpStream};
use std::rt::Files;
use std::sync::{Arc, Wait};
use std::thread::Threads;
use std::time::Clock;

/// Listens over TCP and gives workers with doors of one listener, gates over TCP, and the clock of the machine. It tells
/// nothing of them.
#[derive(Drop)]
pub struct StdOutside<N: Net + Wait + Clock + Clone + Drop> {
    net: N,
    waits: Waits,
    hub: Option<Arc<Hub, Global>>,
    returned: u64,
    faults: u64,
}

impl<N: Net<Listener = TcpListener, Stream = TcpStream> + Wait + Clock + Clone + Drop> StdOutside<
    N,
> {
    /// An outside that listens nowhere yet.
    pub fn new(net: N, waits: Waits) -> StdOutside<N>
        ensures faults { result.faults ≡ 0 }
        ensures returned { result.returned ≡ 0 }
    {
        StdOutside {
            net,
            waits,
            hub: None,
            returned: 0,
            faults: 0,
        }
    }

    /// How many of its calls failed, and workers were given back whose doors had failed, up to 2^64 - 1.
    pub fn faults(&self) -> u64
        ensures { result ≡ self.now.faults }
    {
        self.faults
    }

    /// How many workers were given back, up to 2^64 - 1.
    pub fn returned(&self) -> u64
        ensures { result ≡ self.now.returned }
    {
        self.returned
    }

    /// The address where it listens, if it does.
    pub fn local_addr(&self) -> Option<SocketAddr> {
        match &self.hub {
            Some(hub) => hub.local_addr().ok(),
            None => None,
        }
    }

    // counts a fault
    fn fault(&mut self) -> OutsideFault
        ensures answer { result ≡ OutsideFault.Failed }
        ensures faults { self.new.faults ≡ next_count self.old.faults }
        ensures later { self.old.faults ≤ self.new.faults }
        ensures returned { self.new.returned ≡ self.old.returned }
    {
        self.faults = self.faults.saturating_add(1);
        OutsideFault::Failed
    }

    // a worker with a door of this hub
    fn worker_of(
        &self,
        alloc: Global,
        hub: &Arc<Hub, Global>,
    ) -> Result<Worker<TcpDoor<N>, WorkerGate<N>, WallClock<N>>, AllocError>
        ensures { IfOk result (λ worker. worker.door.faults ≡ 0) }
    {
        let door = TcpDoor::new(Arc::try_clone(hub)?, self.net.clone()?, alloc);
        let gate = TcpGate::new(self.net.clone()?, self.waits);
        let gate = WorkerGate::new(Arc::try_clone(hub)?, self.net.clone()?, gate);
        let clock = WallClock::new(self.net.clone()?);
        Ok(Worker { door, gate, clock })
    }
}

// a hub that listens at this address and waits so; none where that fails
fn open<N: Net<Listener = TcpListener, Stream = TcpStream> + Files>(
    net: &N,
    waits: Waits,
    alloc: Global,
    ip: Ip,
    port: u16,
) -> Option<Hub> {
    let listener = TcpListener::bind(net, address(ip, port)).ok()?;
    Hub::new(net, alloc, listener, waits).ok()
}

// the address and the port
fn address(ip: Ip, port: u16) -> SocketAddr {
    match ip {
        Ip::V4(number) => SocketAddr::new(IpAddr::V4(Ipv4Addr::from_bits(number)), port),
        Ip::V6(number) => SocketAddr::new(IpAddr::V6(Ipv6Addr::from_bits(number)), port),
    }
}

impl<
    N: Net<Listener = TcpListener, Stream = TcpStream> + Wait + Clock + Files + Clone + Send + Drop,
> Outside for StdOutside<N> {
    ghost use Rattle.std.specs.Prelude.{◌+◌, ◌-◌, ◌^◌, ◌<◌, ◌≤◌, ◌≡◌, ◌≢◌, ◌↔◌, [], ◌∷◌, None, Err, length, min, IfOk, is_ok};
    ghost use Rattle.edge_base.specs.Causes.{Rose};
    ghost use Rattle.doors.specs.Outside.{HasFaultCause, IsNew, tells_of};
    ghost use Rattle.tcp_door.specs.declared.place_file.TheConstants.{PLACES_MAX};

    type D = TcpDoor<N>;

    type G = WorkerGate<N>;

    type C = WallClock<N>;

    ghost faults = { λ o. o.faults };

    ghost returned = { λ o. o.returned };

    ghost diary = { λ _. None };

    fn listen<R: Threads + Wait + Sync>(
        &mut self,
        _rt: &R,
        alloc: Global,
        address: &[u8],
    ) -> Result<(), OutsideFault> {
        let Some((ip, port)) = read_address(address) else {
            return Err(OutsideFault::BadAddress);
        };
        let Some(hub) = open(&self.net, self.waits, alloc, ip, port) else {
            return Err(self.fault());
        };
        match Arc::new(alloc, hub) {
            Ok(hub) => {
                self.hub = Some(hub);
                Ok(())
            }
            Err(_) => Err(OutsideFault::Memory),
        }
    }

    fn worker<R: Threads + Wait + Sync>(
        &mut self,
        _rt: &R,
        alloc: Global,
    ) -> Result<Worker<TcpDoor<N>, WorkerGate<N>, WallClock<N>>, OutsideFault> {
        let made = match &self.hub {
            Some(hub) => self.worker_of(alloc, hub),
            None => return Err(self.fault()),
        };
        match made {
            Ok(worker) => Ok(worker),
            Err(_) => Err(OutsideFault::Memory),
        }
    }

    /// The text of the file of this name, which has at most 67,108,864 bytes: where it cannot be read or has more, a fault.
    fn places<R: Threads + Wait + Sync>(
        &mut self,
        _rt: &R,
        alloc: Global,
        path: &[u8],
    ) -> Result<Text, OutsideFault>
        ensures most { IfOk result (λ text. length text ≤ PLACES_MAX) }
        ensures returned { self.new.returned ≡ self.old.returned }
        ensures later { self.old.faults ≤ self.new.faults }
        ensures cause { HasFaultCause self.old.faults self.new.faults result }
        ensures address { result ≢ Err OutsideFault.BadAddress }
    {
        match read_file(&self.net, alloc, path) {
            Ok(text) => Ok(text),
            Err(OutsideFault::Failed) => Err(self.fault()),
            Err(other) => Err(other),
        }
    }

    fn give_back(&mut self, worker: Worker<TcpDoor<N>, WorkerGate<N>, WallClock<N>>)
        ensures returned { self.new.returned ≡ min (self.old.returned + 1) (2 ^ 64 - 1) }
        ensures later { self.old.faults ≤ self.new.faults }
        ensures cause { 0 < worker.door.faults → Rose self.old.faults self.new.faults }
    {
        self.returned = self.returned.saturating_add(1);
        if worker.door.faults() > 0 {
            self.faults = self.faults.saturating_add(1);
        }
    }
}
