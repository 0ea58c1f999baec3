//! `serve_main` with several workers at once, over an outside whose first worker waits for the second and then reads what the
//! second one's request left.

ghost use Rattle.std.specs.Prelude.{◌≡◌, IfOk};

use cdni_base::{Body, TypeName};
use doors::{Accepted, Door, Outside, OutsideFault, Worker, read_address};
use edge_base::{Clock, MemorySink, MemorySource, Status};
use http_node::serve_main;
use listing::{Moment, Text};
use location_acl::Ip;
use log_audit::audit;
use std::alloc::{AllocError, Global};
use std::sync::atomic::{AtomicU64, Ordering};
use std::sync::{Arc, Wait};
use std::test::Fail;
use std::thread::Threads;
use upstream_gate::{Ask, Gate, Got, Outcome};

const REQUEST: &[u8] = b"GET /a HTTP/1.1\r\nHost: v.example\r\nConnection: close\r\n\r\n";

const OTHER: &[u8] = b"GET /b HTTP/1.1\r\nHost: v.example\r\nConnection: close\r\n\r\n";

const DOCUMENT: &[u8] =
    b"{\"hosts\":[{\"host\":\"v.example\",\"host-metadata\":{\"metadata\":[{\"generic-metadata-type\":\"MI.SourceMetadata\",\"generic-metadata-value\":{\"sources\":[{\"endpoints\":[\"o.example\"],\"protocol\":\"http/1.1\"}]}}]}}]}";

// the first worker's second connection: a log file is cut and read
const LOGS: &[u8] =
    b"POST /logs HTTP/1.1\r\nHost: control.example\r\n\r\nGET /logs/1 HTTP/1.1\r\nHost: control.example\r\nConnection: close\r\n\r\n";

// the row of the second worker's request, from its URL on
const ROW: &[u8] = b"\thttp://v.example/b\thttp://v.example/b\tHTTP/1.1\t200\t";

// how often the first worker's gate looks whether the second request is answered
const TURNS: u64 = 1_000_000_000;

// what the workers share: whether the second request is answered, how many requests were answered with 200, and whether the
// log file that the first worker read has the second one's row and is accepted
#[derive(Drop)]
struct Shared {
    answered: AtomicU64,
    good: AtomicU64,
    recorded: AtomicU64,
}

// waits until the second request is answered; false at the limit
fn wait(shared: &Shared) -> bool {
    for _ in 0..TURNS {
        if shared.answered.load(Ordering::SeqCst) > 0 {
            return true;
        }
    }
    false
}

// a door that gives the requests of its connections, one a connection
#[derive(Drop)]
struct HeldDoor {
    alloc: Global,
    shared: Arc<Shared, Global>,
    first: bool,
    given: u64,
}

// what comes over the connection of this number
fn request_of(first: bool, number: u64) -> Option<&'static [u8]> {
    match (first, number) {
        (true, 0) => Some(REQUEST),
        (true, 1) => Some(LOGS),
        (false, 0) => Some(OTHER),
        _ => None,
    }
}

// the bytes from the first place on where they are so; none where they are nowhere
fn from<'b>(bytes: &'b [u8], part: &[u8]) -> Option<&'b [u8]> {
    for start in 0..bytes.len() {
        if bytes[start..].starts_with(part) {
            return Some(&bytes[start..]);
        }
    }
    None
}

// whether a log file ends the bytes that has the second one's row, and that whoever receives it accepts
fn has_record(alloc: Global, bytes: &[u8]) -> bool {
    from(bytes, ROW).is_some()
        && from(bytes, b"#version:").is_some_and(|file| audit(alloc, file).is_ok())
}

// the ends of the connection
fn ends(alloc: Global, request: &[u8]) -> Result<(MemorySource, MemorySink), AllocError>
    ensures { IfOk result (λ ends. (ends.0.faults ≡ 0) × (ends.1.faults ≡ 0)) }
{
    Ok((
        MemorySource::new(alloc, request, &[])?,
        MemorySink::new(alloc, &[])?,
    ))
}

impl Door for HeldDoor {
    ghost use Rattle.std.specs.Prelude.{None};

    type S = MemorySource;

    type K = MemorySink;

    ghost book = { λ _. None };

    ghost faults = { λ _. 0 };

    fn accept<R: Threads + Wait + Sync>(
        &mut self,
        _rt: &R,
        alloc: Global,
    ) -> Accepted<MemorySource, MemorySink> {
        let Some(request) = request_of(self.first, self.given) else {
            return Accepted::Closed;
        };
        self.given = self.given.saturating_add(1);
        match ends(alloc, request) {
            Ok((source, sink)) => Accepted::One {
                ip: Ip::V4(3_221_225_991),
                source,
                sink,
            },
            Err(_) => Accepted::Memory,
        }
    }

    fn close(&mut self, _source: MemorySource, sink: MemorySink) {
        if sink.held().starts_with(b"HTTP/1.1 200 OK\r\n") {
            self.shared.good.fetch_add(1, Ordering::SeqCst);
        }
        if has_record(self.alloc, sink.held()) {
            self.shared.recorded.store(1, Ordering::SeqCst);
        }
        if !self.first {
            self.shared.answered.store(1, Ordering::SeqCst);
        }
    }
}

// a gate that holds each fetch of content of the first worker
#[derive(Drop)]
struct HeldGate {
    shared: Arc<Shared, Global>,
    first: bool,
    faults: u64,
}

// content with this body; none for want of memory
fn content(alloc: Global, kind: &[u8], body: &[u8]) -> Option<Got> {
    let kind = TypeName::of(alloc, kind).ok()??;
    Got::new(200, kind, Body::of(alloc, body).ok()?)
}

impl Gate for HeldGate {
    ghost use Rattle.std.specs.Prelude.{None};

    ghost exchanges = { λ _. None };

    ghost faults = { λ g. g.faults };

    fn fetch(&mut self, alloc: Global, ask: &Ask) -> Outcome {
        let found = if ask.target.is(b"/i") {
            content(alloc, b"application/json", DOCUMENT)
        } else if !self.first || wait(&self.shared) {
            content(alloc, b"text/plain", b"hello")
        } else {
            self.faults = self.faults.saturating_add(1);
            return Outcome::Failed;
        };
        match found {
            Some(got) => Outcome::Got(got),
            None => Outcome::Memory,
        }
    }
}

// a clock that stands still
#[derive(Drop)]
struct StillClock;

impl Clock for StillClock {
    ghost use Rattle.std.specs.Prelude.{None};

    ghost given = { λ _. None };

    fn now(&mut self) -> Moment {
        1_000
    }
}

// an outside whose first worker waits for the second
#[derive(Drop)]
struct HeldOutside {
    shared: Arc<Shared, Global>,
    hired: u64,
    returned: u64,
    faults: u64,
}

impl HeldOutside {
    fn make(&mut self, alloc: Global) -> Result<Worker<HeldDoor, HeldGate, StillClock>, AllocError>
        ensures faults { IfOk result (λ worker. worker.gate.faults ≡ 0) }
        ensures returned { self.new.returned ≡ self.old.returned }
        ensures counted { self.new.faults ≡ self.old.faults }
    {
        let first = self.hired == 0;
        self.hired = self.hired.saturating_add(1);
        Ok(Worker {
            door: HeldDoor {
                alloc,
                shared: Arc::try_clone(&self.shared)?,
                first,
                given: 0,
            },
            gate: HeldGate {
                shared: Arc::try_clone(&self.shared)?,
                first,
                faults: 0,
            },
            clock: StillClock,
        })
    }
}

impl Outside for HeldOutside {
    ghost use Rattle.std.specs.Prelude.{None, ◌≡◌, ◌≤◌, ◌<◌, ◌+◌, ◌-◌, ◌^◌, min};
    ghost use Rattle.edge_base.specs.Causes.{Rose};

    type D = HeldDoor;

    type G = HeldGate;

    type C = StillClock;

    ghost faults = { λ o. o.faults };

    ghost returned = { λ o. o.returned };

    ghost diary = { λ _. None };

    fn listen<R: Threads + Wait + Sync>(
        &mut self,
        _rt: &R,
        _alloc: Global,
        address: &[u8],
    ) -> Result<(), OutsideFault> {
        match read_address(address) {
            Some(_) => Ok(()),
            None => Err(OutsideFault::BadAddress),
        }
    }

    fn worker<R: Threads + Wait + Sync>(
        &mut self,
        _rt: &R,
        alloc: Global,
    ) -> Result<Worker<HeldDoor, HeldGate, StillClock>, OutsideFault> {
        match self.make(alloc) {
            Ok(worker) => Ok(worker),
            Err(_) => Err(OutsideFault::Memory),
        }
    }

    fn places<R: Threads + Wait + Sync>(
        &mut self,
        _rt: &R,
        alloc: Global,
        _path: &[u8],
    ) -> Result<Text, OutsideFault> {
        match Text::of(alloc, b"") {
            Ok(text) => Ok(text),
            Err(_) => Err(OutsideFault::Memory),
        }
    }

    fn give_back(&mut self, _worker: Worker<HeldDoor, HeldGate, StillClock>)
        ensures returned { self.new.returned ≡ min (self.old.returned + 1) (2 ^ 64 - 1) }
        ensures later { self.old.faults ≤ self.new.faults }
        ensures cause { 0 < 0 → Rose self.old.faults self.new.faults }
    {
        self.returned = self.returned.saturating_add(1);
    }
}

fn words_of(alloc: Global, texts: &[&str]) -> Result<Vec<String>, Fail> {
    let mut words: Vec<String> = Vec::new(alloc);
    for text in texts {
        words.push(String::from_str(alloc, text)?)?;
    }
    Ok(words)
}

#[test]
fn a_worker_is_served_while_another_waits(rt: HostRuntime) -> Result<(), Fail> {
    let alloc = rt.alloc();
    let shared = Arc::new(
        alloc,
        Shared {
            answered: AtomicU64::new(0),
            good: AtomicU64::new(0),
            recorded: AtomicU64::new(0),
        },
    )?;
    let mut outside = HeldOutside {
        shared: Arc::try_clone(&shared)?,
        hired: 0,
        returned: 0,
        faults: 0,
    };
    let mut notes = MemorySink::new(alloc, &[])?;
    let words = words_of(
        alloc,
        &[
            "serve",
            "--listen",
            "127.0.0.1:0",
            "--metadata=http://up.example/i",
            "--workers",
            "2",
        ],
    )?;
    let status = serve_main(&rt, alloc, &words, &mut outside, &mut notes);
    assert_eq!(rt; status, Status::Done);
    assert_eq!(rt; shared.good.load(Ordering::SeqCst), 2);
    assert_eq!(rt; shared.recorded.load(Ordering::SeqCst), 1);
    assert_eq!(rt; outside.returned, 2);
    Ok(())
}
