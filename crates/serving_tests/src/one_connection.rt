//! One connection of a client that is the upstream CDN too, with a gate in memory whose metadata is split over documents.

ghost use Rattle.std.specs.Prelude.{◌≡◌};

use crate::tests::{home, settings_at};
use cdni_base::{Body, TypeName};
use edge_base::{ListClock, MemorySource, Put, Sink};
use location_acl::{Ip, Place};
use log_audit::audit;
use node_core::OneHome;
use session::{Ending, Peer, Settings, serve_session};
use std::alloc::Global;
use std::sync::atomic::{AtomicU64, Ordering};
use std::sync::{Arc, Wait};
use std::test::Fail;
use std::thread::Threads;
use upstream_gate::{Ask, Gate, Got, Outcome};

const ROOT: &[u8] =
    b"{\"hosts\":[{\"host\":\"video.example\",\"host-metadata\":{\"type\":\"MI.HostMetadata\",\"href\":\"http://up.example/video\"}},{\"host\":\"www.example\",\"host-metadata\":{\"type\":\"MI.HostMetadata\",\"href\":\"http://up.example/www\"}}]}";

const VIDEO: &[u8] =
    b"{\"metadata\":[{\"generic-metadata-type\":\"MI.SourceMetadata\",\"generic-metadata-value\":{\"sources\":[{\"endpoints\":[\"o.example\"],\"protocol\":\"http/1.1\"}]}},{\"generic-metadata-type\":\"MI.LocationACL\",\"generic-metadata-value\":{\"locations\":[{\"action\":\"allow\",\"footprints\":[{\"footprint-type\":\"countrycode\",\"footprint-value\":[\"us\",\"de\"]}]}]}}],\"paths\":[{\"path-pattern\":{\"pattern\":\"/seg/*\"},\"path-metadata\":{\"metadata\":[{\"generic-metadata-type\":\"MI.Cache\",\"generic-metadata-value\":{\"ignore-query-string\":[\"session\"]}}]}}]}";

const WWW: &[u8] =
    b"{\"metadata\":[{\"generic-metadata-type\":\"MI.SourceMetadata\",\"generic-metadata-value\":{\"sources\":[{\"endpoints\":[\"o.example\"],\"protocol\":\"http/1.1\"}]}}]}";

// a range of a segment twice, of which the second is kept; the segments are taken back; the range once more; and the log file
// of the three
const REQUESTS: &[u8] =
    b"GET /seg/1.ts?session=9 HTTP/1.1\r\nHost: video.example\r\nRange: bytes=1048576-2097151\r\n\r\nGET /seg/1.ts?session=10 HTTP/1.1\r\nHost: video.example\r\nRange: bytes=1048576-2097151\r\n\r\nPOST /triggers HTTP/1.1\r\nHost: control.example\r\nContent-Length: 120\r\n\r\n{\"trigger\":{\"type\":\"invalidate\",\"content.patterns\":[{\"pattern\":\"http://video.example/seg/*\"}]},\"cdn-path\":[\"AS64500:1\"]}GET /triggers/1 HTTP/1.1\r\nHost: control.example\r\n\r\nGET /seg/1.ts?session=10 HTTP/1.1\r\nHost: video.example\r\nRange: bytes=1048576-2097151\r\n\r\nPOST /logs HTTP/1.1\r\nHost: control.example\r\n\r\nGET /logs/1 HTTP/1.1\r\nHost: control.example\r\nConnection: close\r\n\r\n";

// a request that is denied, for which the metadata is fetched; then content is to be fetched before it is asked for
const PREPOSITION: &[u8] =
    b"GET / HTTP/1.1\r\nHost: other.example\r\n\r\nPOST /triggers HTTP/1.1\r\nHost: control.example\r\nConnection: close\r\nContent-Length: 108\r\n\r\n{\"trigger\":{\"type\":\"preposition\",\"content.urls\":[\"http://video.example/seg/1.ts\"]},\"cdn-path\":[\"AS64500:1\"]}";

// how long a segment is
const SEGMENT: usize = 4_194_304;

// the range that is asked for
const FIRST: usize = 1_048_576;

const BEHIND: usize = 2_097_152;

// what the sink and the gate of a connection tell of it
#[derive(Drop)]
struct Shared {
    // how many answers were written that something was created
    created: AtomicU64,
    // how many documents were asked for
    documents: AtomicU64,
    // how many segments were asked for, and how many of them after such an answer
    segments: AtomicU64,
    behind: AtomicU64,
}

// a sink that keeps all bytes, and counts such answers where others see it
#[derive(Drop)]
struct CountingSink {
    shared: Arc<Shared, Global>,
    held: Vec<u8>,
}

impl Sink for CountingSink {
    ghost use Rattle.std.specs.Prelude.{◌≡◌, ◌<◌, length, None};
    ghost use Rattle.edge_base.specs.Sink.{IsPutCount, HasWriteCause};

    ghost held = { λ _. None };

    ghost faults = { λ _. 0 };

    fn write(&mut self, piece: &[u8]) -> Put
        requires { 0 < length piece.now }
        ensures answer { result ≡ Put.Some (length piece.now) }
        ensures count { IsPutCount (length piece.now) result }
        ensures cause { HasWriteCause 0 0 result }
    {
        // where no memory is found the bytes are missed by the test
        let _ = self.held.extend_from_slice(piece);
        if piece.starts_with(b"HTTP/1.1 201 Created\r\n") {
            self.shared.created.fetch_add(1, Ordering::SeqCst);
        }
        Put::Some(piece.len())
    }
}

// a gate over the documents and the segment
#[derive(Drop)]
struct TableGate {
    shared: Arc<Shared, Global>,
    segment: Vec<u8>,
}

// an answer of this kind and body; none for want of memory
fn got(alloc: Global, kind: &[u8], body: &[u8]) -> Option<Got> {
    let kind = TypeName::of(alloc, kind).ok()??;
    Got::new(200, kind, Body::of(alloc, body).ok()?)
}

// the document at this path
fn document(ask: &Ask) -> Option<&'static [u8]> {
    if ask.target.is(b"/i") {
        Some(ROOT)
    } else if ask.target.is(b"/video") {
        Some(VIDEO)
    } else if ask.target.is(b"/www") {
        Some(WWW)
    } else {
        None
    }
}

impl TableGate {
    // counts a segment that is asked for
    fn count(&self) {
        self.shared.segments.fetch_add(1, Ordering::SeqCst);
        if self.shared.created.load(Ordering::SeqCst) > 0 {
            self.shared.behind.fetch_add(1, Ordering::SeqCst);
        }
    }
}

impl Gate for TableGate {
    ghost use Rattle.std.specs.Prelude.{None};

    ghost exchanges = { λ _. None };

    ghost faults = { λ _. 0 };

    fn fetch(&mut self, alloc: Global, ask: &Ask) -> Outcome {
        let found = match document(ask) {
            Some(text) => {
                self.shared.documents.fetch_add(1, Ordering::SeqCst);
                got(alloc, b"application/json", text)
            }
            None => {
                self.count();
                got(alloc, b"video/mp2t", self.segment.as_slice())
            }
        };
        match found {
            Some(got) => Outcome::Got(got),
            None => Outcome::Memory,
        }
    }
}

// an answer, and the bytes behind it
#[derive(Clone, Copy)]
struct Answer<'a> {
    head: &'a [u8],
    body: &'a [u8],
    rest: &'a [u8],
}

// where the bytes have these first
fn position(bytes: &[u8], part: &[u8]) -> Option<usize> {
    for start in 0..bytes.len() {
        if bytes[start..].starts_with(part) {
            return Some(start);
        }
    }
    None
}

// the number that the bytes begin with
fn leading_number(bytes: &[u8]) -> usize {
    let mut number = 0usize;
    for byte in bytes {
        if !byte.is_ascii_digit() {
            return number;
        }
        number = number
            .saturating_mul(10)
            .saturating_add(usize::from(*byte) % 16);
    }
    number
}

// the first answer of these bytes
fn next_answer(bytes: &[u8]) -> Option<Answer<'_>> {
    let end = position(bytes, b"\r\n\r\n")?.checked_add(4)?;
    let (head, behind) = bytes.split_at_checked(end)?;
    let at = position(head, b"Content-Length: ")?.checked_add(16)?;
    let length = leading_number(head.get(at..)?);
    let (body, rest) = behind.split_at_checked(length)?;
    Some(Answer { head, body, rest })
}

// whether the answer begins so and has this in its head
fn says(answer: &Answer<'_>, start: &[u8], part: &[u8]) -> bool {
    answer.head.starts_with(start) && position(answer.head, part).is_some()
}

// whether the answer is the range of the segment
fn is_range(answer: &Answer<'_>, segment: &[u8]) -> bool {
    says(
        answer,
        b"HTTP/1.1 206 Partial Content\r\n",
        b"\r\nContent-Range: bytes 1048576-2097151/4194304\r\n",
    ) && segment.get(FIRST..BEHIND) == Some(answer.body)
}

// how many records of that range a log file has, and how many others
fn records(file: &[u8]) -> (u64, u64) {
    let mut ranges = 0u64;
    let mut others = 0u64;
    for line in file.split(|byte| *byte == 10) {
        let line: &[u8] = line;
        if line.is_empty() || line.starts_with(b"#") {
            continue;
        }
        if position(line, b"\t206\t").is_some() && position(line, b"\t1048576\t").is_some() {
            ranges = ranges.saturating_add(1);
        } else {
            others = others.saturating_add(1);
        }
    }
    (ranges, others)
}

// how many of the seven answers are right, the first ones up to the first that is not; the last one is a log file that whoever
// receives it accepts
fn right_answers(alloc: Global, bytes: &[u8], segment: &[u8]) -> u64 {
    let mut rest = bytes;
    let mut right = 0u64;
    for number in 0..7 {
        let Some(answer) = next_answer(rest) else {
            return right;
        };
        let is_right = match number {
            0 | 1 | 4 => is_range(&answer, segment),
            2 => says(
                &answer,
                b"HTTP/1.1 201 Created\r\n",
                b"\r\nLocation: http://control.example/triggers/1\r\n",
            ),
            3 => {
                says(
                    &answer,
                    b"HTTP/1.1 200 OK\r\n",
                    b"ptype=ci-trigger-status\r\n",
                ) && position(answer.body, b"\"status\":\"complete\"").is_some()
            }
            5 => says(
                &answer,
                b"HTTP/1.1 201 Created\r\n",
                b"\r\nLocation: http://control.example/logs/1\r\n",
            ),
            _ => {
                says(&answer, b"HTTP/1.1 200 OK\r\n", b"ptype=logging-file\r\n")
                    && records(answer.body) == (3, 0)
                    && audit(alloc, answer.body).is_ok()
            }
        };
        if !is_right {
            return right;
        }
        right = right.saturating_add(1);
        rest = answer.rest;
    }
    if rest.is_empty() { right } else { 0 }
}

fn make_shared(alloc: Global) -> Result<Arc<Shared, Global>, Fail> {
    Ok(Arc::new(
        alloc,
        Shared {
            created: AtomicU64::new(0),
            documents: AtomicU64::new(0),
            segments: AtomicU64::new(0),
            behind: AtomicU64::new(0),
        },
    )?)
}

// the bytes of the segment: a count that begins anew after 251 bytes
fn segment(alloc: Global) -> Result<Vec<u8>, Fail> {
    let mut bytes = Vec::with_capacity(alloc, SEGMENT)?;
    for number in 0..SEGMENT {
        bytes.push((number % 251) as u8)?;
    }
    Ok(bytes)
}

// serves the connection of a client in the United States
fn connect<R: Threads + Wait + Sync>(
    rt: &R,
    alloc: Global,
    home: &mut OneHome,
    source: &mut MemorySource,
    sink: &mut CountingSink,
    gate: &mut TableGate,
    clock: &mut ListClock,
    settings: &Settings,
) -> Ending {
    let place = Place {
        ip: Ip::V4(3_221_225_991),
        asn: None,
        country: Some((b'u', b's')),
    };
    let peer = Peer { place };
    serve_session(rt, alloc, home, &peer, source, sink, gate, clock, settings)
}

// the ends of a connection over which these bytes come, with what they share
fn ends(
    alloc: Global,
    shared: &Arc<Shared, Global>,
    requests: &[u8],
) -> Result<(MemorySource, CountingSink, TableGate), Fail> {
    Ok((
        MemorySource::new(alloc, requests, &[])?,
        CountingSink {
            shared: Arc::try_clone(shared)?,
            held: Vec::new(alloc),
        },
        TableGate {
            shared: Arc::try_clone(shared)?,
            segment: segment(alloc)?,
        },
    ))
}

// serves a connection over which these bytes come: how it ends, and the sink and the gate then
fn serve_bytes<R: Threads + Wait + Sync>(
    rt: &R,
    alloc: Global,
    shared: &Arc<Shared, Global>,
    requests: &[u8],
) -> Result<(Ending, CountingSink, TableGate), Fail> {
    let settings = settings_at(alloc, b"http://up.example/i")?;
    let (mut source, mut sink, mut gate) = ends(alloc, shared, requests)?;
    let mut clock = ListClock::new(alloc, &[])?;
    let mut home = home(alloc)?;
    let ending = connect(
        rt,
        alloc,
        &mut home,
        &mut source,
        &mut sink,
        &mut gate,
        &mut clock,
        &settings,
    );
    Ok((ending, sink, gate))
}

#[test]
fn a_range_is_served_taken_back_and_served_anew(rt: HostRuntime) -> Result<(), Fail> {
    let shared = make_shared(rt.alloc())?;
    let (ending, sink, gate) = serve_bytes(&rt, rt.alloc(), &shared, REQUESTS)?;
    assert_eq!(rt;
        right_answers(rt.alloc(), sink.held.as_slice(), gate.segment.as_slice()),
        7
    );
    assert_eq!(rt; ending, Ending::Closed);
    assert_eq!(rt; shared.documents.load(Ordering::SeqCst), 3);
    assert_eq!(rt; shared.segments.load(Ordering::SeqCst), 2);
    Ok(())
}

#[test]
fn a_new_trigger_is_answered_before_its_steps(rt: HostRuntime) -> Result<(), Fail> {
    let shared = make_shared(rt.alloc())?;
    let (ending, sink, _) = serve_bytes(&rt, rt.alloc(), &shared, PREPOSITION)?;
    assert_eq!(rt; ending, Ending::Closed);
    assert_eq!(rt;
        position(sink.held.as_slice(), b"HTTP/1.1 201 Created\r\n").is_some(),
        true
    );
    assert_eq!(rt; shared.segments.load(Ordering::SeqCst), 1);
    assert_eq!(rt; shared.behind.load(Ordering::SeqCst), 1);
    Ok(())
}
