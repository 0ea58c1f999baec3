//! `serve_door` over TCP: clients, a node with its door and its gate, and an origin, all in one process.

ghost use Rattle.doors.specs.Served.{HasServedAll};

use cdni_base::{Endpoint, Limits, Protocol, ProviderId, Target, Text, TextList};
use cdni_log::default_fields;
use doors::{Door, DoorEnd, Outside, Worker, serve_door};
use edge_base::{Clock, MemorySink, Status, WallClock};
use http_node::serve_main;
use location_acl::PlaceTable;
use node_core::{Node, OneHome};
use session::{AdvertSettings, Settings};
use std::alloc::Global;
use std::io::{Read, Write};
use std::net::{Net, Shutdown, SocketAddr, TcpListener, TcpStream};
use std::rt::Files;
use std::sync::Wait;
use std::sync::atomic::{AtomicU64, Ordering};
use std::test::Fail;
use std::thread::{Threads, join};
use std::time::Duration;
use std::{io, thread, time};
use tcp_door::{StdOutside, TcpDoor, WAITS, Waits, WorkerGate};
use upstream_gate::Gate;

const GET: &[u8] = b"GET /a HTTP/1.1\r\nHost: v.example\r\n\r\n";

const LAST: &[u8] = b"GET /a HTTP/1.1\r\nHost: v.example\r\nConnection: close\r\n\r\n";

const BODY: &[u8] = b"0123456789";

// the length of the content at `/large`
const LARGE: usize = 1_000_000;

// how long things may take where clients are slow
const SHORT: Waits = Waits {
    idle: 5_000,
    head: 2_000,
    floor: 1_000,
    step: 1,
    linger: 500,
    connect: 1_000,
    quiet: 2_000,
    tick: 50,
};

// who connects
#[derive(Clone, Copy)]
enum Crowd {
    // kept, pipelined, in pieces, half closed, no heads, a large body, and a hundred that say nothing
    Mixed,
    // a slow body, and one that does not read
    Slow,
    // one by IPv6
    Six,
}

// a worker over TCP
type TcpWorker<R> = Worker<TcpDoor<R>, WorkerGate<R>, WallClock<R>>;

// where clients connect, and where the origin is
#[derive(Clone, Copy)]
struct Ends {
    door: SocketAddr,
    origin: SocketAddr,
}

// what came of a crowd: how the serving ended, how many of its clients got what they waited for, and how many requests the
// origin got
#[derive(Clone, Copy, Debug, PartialEq, Eq)]
struct Seen {
    end: DoorEnd,
    good: u64,
    asked: u64,
}

// the same, with the faults of the door, of the gate and of the outside
#[derive(Clone, Copy, Debug, PartialEq, Eq)]
struct Served {
    seen: Seen,
    door_faults: u64,
    gate_faults: u64,
    faults: u64,
}

// served without a fault
const fn well(good: u64, asked: u64) -> Served {
    Served {
        seen: Seen {
            end: DoorEnd::Served,
            good,
            asked,
        },
        door_faults: 0,
        gate_faults: 0,
        faults: 0,
    }
}

// a connection to the address, whose reads wait for two seconds
fn dial<N: Net<Stream = TcpStream>>(net: &N, addr: SocketAddr) -> io::Result<TcpStream> {
    let stream = TcpStream::connect(net, addr)?;
    stream.set_read_timeout(Some(Duration::from_millis(2_000)))?;
    stream.set_nodelay(true)?;
    Ok(stream)
}

// sends the bytes
fn say(stream: &TcpStream, bytes: &[u8]) -> io::Result<()> {
    let mut to = stream;
    to.write_all(bytes)
}

// so many bytes that come next, or fewer where the end comes or nothing for two seconds
fn hear(stream: &TcpStream, alloc: Global, count: usize) -> io::Result<Vec<u8>> {
    let mut heard = Vec::new(alloc);
    let mut byte = [0u8; 1];
    let mut from = stream;
    for _ in 0..count {
        match from.read(&mut byte) {
            Ok(1) => heard.extend_from_slice(&byte)?,
            _ => return Ok(heard),
        }
    }
    Ok(heard)
}

// the bytes up to the next empty line
fn hear_head(stream: &TcpStream, alloc: Global) -> io::Result<Vec<u8>> {
    let mut heard = Vec::new(alloc);
    for _ in 0..10_000 {
        let next = hear(stream, alloc, 1)?;
        heard.extend_from_slice(next.as_slice())?;
        if next.is_empty() || heard.as_slice().ends_with(b"\r\n\r\n") {
            return Ok(heard);
        }
    }
    Ok(heard)
}

// one where an answer comes next that begins so and has this body
fn hears(stream: &TcpStream, alloc: Global, start: &[u8], body: &[u8]) -> u64 {
    let Ok(head) = hear_head(stream, alloc) else {
        return 0;
    };
    let Ok(heard) = hear(stream, alloc, body.len()) else {
        return 0;
    };
    u64::from(head.as_slice().starts_with(start) && heard.as_slice() == body)
}

// one where the content comes next
fn gets(stream: &TcpStream, alloc: Global) -> u64 {
    hears(stream, alloc, b"HTTP/1.1 200 OK\r\n", BODY)
}

// an origin that answers each request, until a connection brings none; how many it answered
fn origin(alloc: Global, listener: &TcpListener, document: &[u8]) -> io::Result<u64> {
    let mut count = 0u64;
    let mut large = Vec::new(alloc);
    large.resize(LARGE, 98u8)?;
    let large = large.as_slice();
    for _ in 0..1_000 {
        let (stream, _) = listener.accept()?;
        stream.set_read_timeout(Some(Duration::from_millis(2_000)))?;
        let head = hear_head(&stream, alloc)?;
        if head.is_empty() {
            return Ok(count);
        }
        count = count.saturating_add(1);
        let body = if head.as_slice().starts_with(b"GET /i ") {
            document
        } else if head.as_slice().starts_with(b"GET /large ") {
            large
        } else {
            BODY
        };
        let length = body.len();
        let answer = format!(in alloc; "HTTP/1.1 200 OK\r\nContent-Length: {length}\r\n\r\n")?;
        say(&stream, answer.as_bytes())?;
        say(&stream, body)?;
    }
    Ok(count)
}

// the settings of a node whose metadata is at this URL
pub(crate) fn settings_at(alloc: Global, root: &[u8]) -> Result<Settings, Fail> {
    Ok(Settings {
        protocol: Protocol::Http,
        control: Endpoint::read(alloc, b"control.example")
            .ok()
            .ok_or("host")?
            .host,
        root: Target::read(alloc, root, None, false).ok().ok_or("URL")?,
        own: ProviderId::read(alloc, b"AS64496:0").ok().ok_or("id")?,
        advert: AdvertSettings::new(
            Protocol::Http,
            TextList::new(alloc),
            default_fields(alloc)?,
        ).ok_or("footprints")?,
        fields: default_fields(alloc)?,
    })
}

// the settings of a node whose metadata is at the origin
fn settings_of(alloc: Global, origin: SocketAddr) -> Result<Settings, Fail> {
    let port = origin.port();
    let root = format!(in alloc; "http://127.0.0.1:{port}/i")?;
    settings_at(alloc, root.as_bytes())
}

// serves, and then lets the clients and the origin end
fn serve<R: Threads + Wait + Sync, N: Net<Stream = TcpStream>, D: Door, G: Gate, C: Clock>(
    rt: &R,
    net: &N,
    alloc: Global,
    home: &mut OneHome,
    worker: &mut Worker<D, G, C>,
    places: &PlaceTable,
    settings: &Settings,
    origin: SocketAddr,
    connections: u64,
    ended: &AtomicU64,
) -> DoorEnd
    requires { HasServedAll (D.book worker.old.door) }
{
    let end = serve_door(rt, alloc, home, worker, places, settings, Some(connections));
    ended.store(1, Ordering::SeqCst);
    drop(dial(net, origin));
    end
}

// one where these bytes are sent, and the content comes next
fn asks(stream: &TcpStream, alloc: Global, bytes: &[u8]) -> u64 {
    match say(stream, bytes) {
        Ok(()) => gets(stream, alloc),
        Err(_) => 0,
    }
}

// a connection that is kept: requests one by one, at once and in pieces
fn kept_client<N: Net<Stream = TcpStream> + time::Clock>(
    net: &N,
    alloc: Global,
    addr: SocketAddr,
) -> io::Result<u64> {
    let mut good = 0u64;
    let kept = dial(net, addr)?;
    for _ in 0..3 {
        good = good.saturating_add(asks(&kept, alloc, GET));
    }
    for _ in 0..3 {
        say(&kept, GET)?;
    }
    for _ in 0..3 {
        good = good.saturating_add(gets(&kept, alloc));
    }
    say(&kept, &GET[..10])?;
    thread::sleep(net, Duration::from_millis(20));
    good = good.saturating_add(asks(&kept, alloc, &GET[10..]));
    Ok(good.saturating_add(asks(&kept, alloc, LAST)))
}

// a request that is half closed
fn half_client<N: Net<Stream = TcpStream>>(
    net: &N,
    alloc: Global,
    addr: SocketAddr,
) -> io::Result<u64> {
    let half = dial(net, addr)?;
    say(&half, GET)?;
    half.shutdown(Shutdown::Write)?;
    Ok(gets(&half, alloc))
}

// bytes that are no head
fn odd_client<N: Net<Stream = TcpStream>>(
    net: &N,
    alloc: Global,
    addr: SocketAddr,
) -> io::Result<u64> {
    let odd = dial(net, addr)?;
    say(&odd, b"(")?;
    Ok(hears(&odd, alloc, b"HTTP/1.1 400 ", b""))
}

// a body that is too large
fn large_client<N: Net<Stream = TcpStream> + time::Clock>(
    net: &N,
    alloc: Global,
    addr: SocketAddr,
) -> io::Result<u64> {
    let large = dial(net, addr)?;
    say(
        &large,
        b"POST /a HTTP/1.1\r\nHost: v.example\r\nContent-Length: 1048577\r\n\r\n",
    )?;
    for _ in 0..60 {
        say(&large, &[97u8; 1000])?;
        thread::sleep(net, Duration::from_millis(1));
    }
    Ok(hears(&large, alloc, b"HTTP/1.1 413 ", b""))
}

// one that asks beside a crowd that says nothing
fn crowded_client<N: Net<Stream = TcpStream>>(
    net: &N,
    alloc: Global,
    addr: SocketAddr,
) -> io::Result<u64> {
    let mut others = Vec::new(alloc);
    for _ in 0..100 {
        if others.push(dial(net, addr)?).is_err() {
            return Ok(0);
        }
    }
    let asking = dial(net, addr)?;
    Ok(asks(&asking, alloc, LAST))
}

// how many bytes come until the end, or until nothing comes for two seconds
fn hear_all(stream: &TcpStream) -> u64 {
    let mut count = 0u64;
    let mut piece = [0u8; 4096];
    let mut from = stream;
    for _ in 0..1_000_000 {
        match from.read(&mut piece) {
            Ok(0) => return count,
            Ok(more) => count = count.saturating_add(more as u64),
            Err(_) => return count,
        }
    }
    count
}

// a body that comes a byte every ten milliseconds
fn slow_client<N: Net<Stream = TcpStream> + time::Clock>(
    net: &N,
    addr: SocketAddr,
) -> io::Result<u64> {
    let slow = dial(net, addr)?;
    say(
        &slow,
        b"POST /a HTTP/1.1\r\nHost: v.example\r\nContent-Length: 100000\r\n\r\n",
    )?;
    for _ in 0..500 {
        if say(&slow, b"a").is_err() {
            return Ok(1);
        }
        thread::sleep(net, Duration::from_millis(10));
    }
    Ok(0)
}

// a client that asks for much and does not read
fn deaf_client<N: Net<Stream = TcpStream> + time::Clock>(
    net: &N,
    addr: SocketAddr,
) -> io::Result<u64> {
    let deaf = dial(net, addr)?;
    for _ in 0..30 {
        say(&deaf, b"GET /large HTTP/1.1\r\nHost: v.example\r\n\r\n")?;
    }
    thread::sleep(net, Duration::from_millis(3_000));
    let heard = hear_all(&deaf);
    Ok(u64::from(heard > 0 && heard < 30 * LARGE as u64))
}

// a client that reads
fn fast_client<N: Net<Stream = TcpStream>>(
    net: &N,
    alloc: Global,
    addr: SocketAddr,
) -> io::Result<u64> {
    let fast = dial(net, addr)?;
    say(
        &fast,
        b"GET /large HTTP/1.1\r\nHost: v.example\r\nConnection: close\r\n\r\n",
    )?;
    let head = hear_head(&fast, alloc)?;
    let heard = hear_all(&fast);
    let is_good = head.as_slice().starts_with(b"HTTP/1.1 200 OK\r\n") && heard == LARGE as u64;
    Ok(u64::from(is_good))
}

// one request over IPv6
fn six_clients<N: Net<Stream = TcpStream>>(
    net: &N,
    alloc: Global,
    addr: SocketAddr,
) -> io::Result<u64> {
    let six = dial(net, addr)?;
    say(&six, LAST)?;
    Ok(u64::from(addr.is_ipv6()).saturating_add(gets(&six, alloc)))
}

// asks over new connections until the worker has served enough
fn more_clients<N: Net<Stream = TcpStream>>(
    net: &N,
    alloc: Global,
    addr: SocketAddr,
    ended: &AtomicU64,
) -> io::Result<()> {
    for _ in 0..100 {
        if ended.load(Ordering::SeqCst) > 0 {
            return Ok(());
        }
        let more = dial(net, addr)?;
        say(&more, LAST)?;
        let _ = gets(&more, alloc);
    }
    Ok(())
}

// the clients of this crowd; how many got what they asked for
fn clients<N: Net<Stream = TcpStream> + time::Clock>(
    net: &N,
    alloc: Global,
    addr: SocketAddr,
    crowd: Crowd,
    ended: &AtomicU64,
) -> u64 {
    let good = match crowd {
        Crowd::Mixed => kept_client(net, alloc, addr)
            .unwrap_or(0)
            .saturating_add(half_client(net, alloc, addr).unwrap_or(0))
            .saturating_add(odd_client(net, alloc, addr).unwrap_or(0))
            .saturating_add(large_client(net, alloc, addr).unwrap_or(0))
            .saturating_add(crowded_client(net, alloc, addr).unwrap_or(0)),
        Crowd::Slow => slow_client(net, addr)
            .unwrap_or(0)
            .saturating_add(deaf_client(net, addr).unwrap_or(0))
            .saturating_add(fast_client(net, alloc, addr).unwrap_or(0)),
        Crowd::Six => six_clients(net, alloc, addr).unwrap_or(0),
    };
    let _ = more_clients(net, alloc, addr, ended);
    good
}

// the metadata of a node whose content is at this port
fn document_of(alloc: Global, port: u16) -> Result<String, Fail> {
    Ok(format!(in alloc;
        "{{\"hosts\":[{{\"host\":\"v.example\",\"host-metadata\":{{\"metadata\":[{{\"generic-metadata-type\":\"MI.SourceMetadata\",\"generic-metadata-value\":{{\"sources\":[{{\"endpoints\":[\"127.0.0.1:{port}\"],\"protocol\":\"http/1.1\"}}]}}}}]}}}}]}}"
    )?)
}

// a home over a node of its own
pub(crate) fn home(alloc: Global) -> Result<OneHome, Fail> {
    let origin = Text::of(alloc, b"dcdn.example")?;
    let fields = default_fields(alloc)?;
    let node = Node::new(alloc, &Limits::standard(), origin, fields)?;
    Ok(OneHome { node, number: 0 })
}

// what came of all of this at once: the clients, the origin and the worker
fn serve_at_once<
    R: Threads
        + Wait
        + Sync
        + Net<Listener = TcpListener, Stream = TcpStream>
        + time::Clock
        + Clone
        + Send
        + Drop,
>(
    rt: &R,
    alloc: Global,
    home: &mut OneHome,
    worker: &mut TcpWorker<R>,
    places: &PlaceTable,
    settings: &Settings,
    listener: &TcpListener,
    document: &[u8],
    ends: Ends,
    crowd: Crowd,
    connections: u64,
) -> Seen {
    let ended = AtomicU64::new(0);
    let (good, (asked, end)) = join(
        rt,
        || clients(rt, alloc, ends.door, crowd, &ended),
        || {
            join(
                rt,
                || origin(alloc, listener, document).unwrap_or(0),
                || {
                    serve(
                        rt,
                        rt,
                        alloc,
                        home,
                        worker,
                        places,
                        settings,
                        ends.origin,
                        connections,
                        &ended,
                    )
                },
            )
        },
    );
    Seen { end, good, asked }
}

// serves with a worker, over a node of its own
fn serve_worker<
    R: Threads
        + Wait
        + Sync
        + Net<Listener = TcpListener, Stream = TcpStream>
        + time::Clock
        + Clone
        + Send
        + Drop,
>(
    rt: &R,
    alloc: Global,
    worker: &mut TcpWorker<R>,
    listener: &TcpListener,
    ends: Ends,
    crowd: Crowd,
    connections: u64,
) -> Result<Seen, Fail> {
    let document = document_of(alloc, ends.origin.port())?;
    let settings = settings_of(alloc, ends.origin)?;
    let places = PlaceTable::read(alloc, b"").ok().ok_or("places")?;
    let mut home = home(alloc)?;
    Ok(serve_at_once(
        rt,
        alloc,
        &mut home,
        worker,
        &places,
        &settings,
        listener,
        document.as_bytes(),
        ends,
        crowd,
        connections,
    ))
}

// serves so many connections, of which a crowd makes the first, over a door at this address
fn serve_crowd<
    R: Threads
        + Wait
        + Sync
        + Net<Listener = TcpListener, Stream = TcpStream>
        + time::Clock
        + Files
        + Clone
        + Send
        + Drop,
>(
    rt: &R,
    alloc: Global,
    waits: Waits,
    at: &[u8],
    crowd: Crowd,
    connections: u64,
) -> Result<Served, Fail> {
    let listener = TcpListener::bind(rt, "127.0.0.1:0")?;
    let origin = listener.local_addr()?;
    let mut outside = StdOutside::new(rt.clone()?, waits);
    outside.listen(rt, alloc, at).ok().ok_or("listen")?;
    let door = outside.local_addr().ok_or("address")?;
    let mut worker = outside.worker(rt, alloc).ok().ok_or("worker")?;
    let ends = Ends { door, origin };
    let seen = serve_worker(rt, alloc, &mut worker, &listener, ends, crowd, connections)?;
    let door_faults = worker.door.faults();
    let gate_faults = worker.gate.faults();
    outside.give_back(worker);
    Ok(Served {
        seen,
        door_faults,
        gate_faults,
        faults: outside.faults(),
    })
}

#[test]
fn a_node_serves_clients_over_tcp(rt: HostRuntime) -> Result<(), Fail> {
    let served = serve_crowd(&rt, rt.alloc(), WAITS, b"127.0.0.1:0", Crowd::Mixed, 8)?;
    assert_eq!(rt; served, well(12, 2));
    Ok(())
}

#[test]
fn slow_clients_are_given_up(rt: HostRuntime) -> Result<(), Fail> {
    let served = serve_crowd(&rt, rt.alloc(), SHORT, b"127.0.0.1:0", Crowd::Slow, 4)?;
    assert_eq!(rt; served, well(3, 3));
    Ok(())
}

#[test]
fn a_client_is_served_over_ipv6(rt: HostRuntime) -> Result<(), Fail> {
    let served = serve_crowd(&rt, rt.alloc(), WAITS, b"[::1]:0", Crowd::Six, 1)?;
    assert_eq!(rt; served, well(2, 2));
    Ok(())
}

// ---- many workers

// one client of many workers: asks over new connections until the workers have ended; how many answers were right, and how
// many were not
fn asking_client<N: Net<Stream = TcpStream> + time::Clock>(
    net: &N,
    alloc: Global,
    addr: SocketAddr,
    ended: &AtomicU64,
) -> (u64, u64) {
    let mut right = 0u64;
    let mut wrong = 0u64;
    for _ in 0..10_000 {
        if ended.load(Ordering::SeqCst) > 0 {
            return (right, wrong);
        }
        let Ok(stream) = dial(net, addr) else {
            thread::sleep(net, Duration::from_millis(5));
            continue;
        };
        if say(&stream, LAST).is_err() {
            continue;
        }
        if gets(&stream, alloc) > 0 {
            right = right.saturating_add(1);
        } else if ended.load(Ordering::SeqCst) == 0 {
            wrong = wrong.saturating_add(1);
        }
    }
    (right, wrong)
}

// the words of a node with so many workers, of which each serves two connections
fn words_of(
    alloc: Global,
    door: SocketAddr,
    origin: SocketAddr,
    workers: &str,
) -> Result<Vec<String>, Fail> {
    let listen = door.port();
    let from = origin.port();
    let mut words: Vec<String> = Vec::new(alloc);
    words.push(String::from_str(alloc, "serve")?)?;
    words.push(format!(in alloc; "--listen=127.0.0.1:{listen}")?)?;
    words.push(format!(in alloc; "--metadata=http://127.0.0.1:{from}/i")?)?;
    words.push(format!(in alloc; "--workers={workers}")?)?;
    words.push(String::from_str(alloc, "--connections=2")?)?;
    Ok(words)
}

// serves as the words say, and then lets the clients and the origin end
fn serve_all<
    R: Threads + Wait + Sync,
    W: Net<Listener = TcpListener, Stream = TcpStream>
        + Wait
        + time::Clock
        + Files
        + Clone
        + Send
        + Drop,
>(
    rt: &R,
    alloc: Global,
    words: &[String],
    outside: &mut StdOutside<W>,
    notes: &mut MemorySink,
    net: &W,
    origin: SocketAddr,
    ended: &AtomicU64,
) -> Status {
    let status = serve_main(rt, alloc, words, outside, notes);
    ended.store(1, Ordering::SeqCst);
    drop(dial(net, origin));
    status
}

// what came of many workers: how the serving ended, and the answers of both clients that were not right
fn serve_many<
    R: Threads
        + Wait
        + Sync
        + Net<Listener = TcpListener, Stream = TcpStream>
        + time::Clock
        + Files
        + Clone
        + Send
        + Drop,
>(rt: &R, alloc: Global, workers: &str, least: u64) -> Result<(Status, u64, bool), Fail> {
    let listener = TcpListener::bind(rt, "127.0.0.1:0")?;
    let from = listener.local_addr()?;
    let door = TcpListener::bind(rt, "127.0.0.1:0")?.local_addr()?;
    let document = document_of(alloc, from.port())?;
    let document = document.as_bytes();
    let words = words_of(alloc, door, from, workers)?;
    let mut outside = StdOutside::new(rt.clone()?, WAITS);
    let mut notes = MemorySink::new(alloc, &[])?;
    let ended = AtomicU64::new(0);
    let ((one, other), (_, status)) = join(
        rt,
        || {
            join(
                rt,
                || asking_client(rt, alloc, door, &ended),
                || asking_client(rt, alloc, door, &ended),
            )
        },
        || {
            join(
                rt,
                || origin(alloc, &listener, document).unwrap_or(0),
                || serve_all(
                    rt,
                    alloc,
                    &words,
                    &mut outside,
                    &mut notes,
                    rt,
                    from,
                    &ended,
                ),
            )
        },
    );
    let right = one.0.saturating_add(other.0);
    Ok((status, one.1.saturating_add(other.1), right >= least))
}

#[test]
fn four_workers_serve_two_clients_at_once(rt: HostRuntime) -> Result<(), Fail> {
    let served = serve_many(&rt, rt.alloc(), "4", 8)?;
    assert_eq!(rt; served, (Status::Done, 0, true));
    Ok(())
}

#[test]
fn sixty_four_workers_serve_two_clients_at_once(rt: HostRuntime) -> Result<(), Fail> {
    let served = serve_many(&rt, rt.alloc(), "64", 128)?;
    assert_eq!(rt; served, (Status::Done, 0, true));
    Ok(())
}
