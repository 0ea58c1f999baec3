//! Each adapter over real sockets of this machine, with both ends in one process.

use doors::{Accepted, Door, Outside, OutsideFault};
use edge_base::{Sink, Source, write_counted};
use http_wire::{BodyRead, Found, Head, HeadRead, Inbox, body_of, read_head};
use location_acl::Ip;
use std::alloc::{AllocError, Global};
use std::io::{Read, Write};
use std::net::{IpAddr, Ipv4Addr, Ipv6Addr, Net, Shutdown, SocketAddr, TcpListener, TcpStream};
use std::rt::Files;
use std::sync::Wait;
use std::sync::atomic::{AtomicU64, Ordering};
use std::test::Fail;
use std::thread::{Threads, join};
use std::time::{Clock, Duration};
use std::{env, fs, io, thread};
use tcp_door::{StdOutside, TcpDoor, WAITS, Waits};

const OK: &[u8] = b"HTTP/1.1 200 OK\r\nContent-Length: 2\r\n\r\nok";

const BAD: &[u8] = b"HTTP/1.1 400 Bad Request\r\nContent-Length: 0\r\n\r\n";

const LARGE: &[u8] = b"HTTP/1.1 413 Content Too Large\r\nContent-Length: 0\r\n\r\n";

const GET: &[u8] = b"GET / HTTP/1.1\r\nHost: v.example\r\n\r\n";

const LAST: &[u8] = b"GET / HTTP/1.1\r\nHost: v.example\r\nConnection: close\r\n\r\n";

// a connection to the address, whose reads wait for two seconds
fn dial<N: Net<Stream = TcpStream>>(net: &N, addr: SocketAddr) -> io::Result<TcpStream> {
    let stream = TcpStream::connect(net, addr)?;
    stream.set_read_timeout(Some(Duration::from_millis(2_000)))?;
    stream.set_nodelay(true)?;
    Ok(stream)
}

// sends the bytes
fn say(stream: &TcpStream, bytes: &[u8]) -> io::Result<()> {
    let mut to = stream;
    to.write_all(bytes)
}

// so many bytes that come next, or fewer where the end comes or nothing for two seconds
fn hear(stream: &TcpStream, alloc: Global, count: usize) -> io::Result<Vec<u8>> {
    let mut heard = Vec::new(alloc);
    let mut buf = [0u8; 4096];
    let mut from = stream;
    for _ in 0..100_000 {
        if heard.len() >= count {
            return Ok(heard);
        }
        let most = count.saturating_sub(heard.len()).min(4096);
        match from.read(&mut buf[..most]) {
            Ok(0) => return Ok(heard),
            Ok(got) => heard.extend_from_slice(&buf[..got.min(most)])?,
            Err(_) => return Ok(heard),
        }
    }
    Ok(heard)
}

// whether the bytes that come next are these
fn hears(stream: &TcpStream, alloc: Global, bytes: &[u8]) -> bool {
    match hear(stream, alloc, bytes.len()) {
        Ok(heard) => heard.as_slice() == bytes,
        Err(_) => false,
    }
}

// one more where it holds
fn one_if(holds: bool) -> u64 {
    u64::from(holds)
}

// one where these bytes are sent, and this answer comes next
fn asks(stream: &TcpStream, alloc: Global, bytes: &[u8], answer: &[u8]) -> u64 {
    match say(stream, bytes) {
        Ok(()) => one_if(hears(stream, alloc, answer)),
        Err(_) => 0,
    }
}

// whether the end comes next, within two seconds
fn ends(stream: &TcpStream) -> bool {
    let mut buf = [0u8; 16];
    let mut from = stream;
    match from.read(&mut buf) {
        Ok(count) => count == 0,
        Err(_) => false,
    }
}

fn says_close(head: &Head) -> bool {
    match head.value(b"connection") {
        Found::One(value) => value == b"close".as_slice(),
        _ => false,
    }
}

// serves one run of requests: each is answered by `answer`, and what is none by a 400
fn serve_run<S: Source, K: Sink>(
    alloc: Global,
    source: &mut S,
    sink: &mut K,
    answer: &[u8],
) -> Result<u64, AllocError> {
    let mut inbox = Inbox::new(alloc)?;
    let mut count = 0u64;
    for _ in 0..1000 {
        match read_head(alloc, source, &mut inbox) {
            HeadRead::Head(head) => {
                match body_of(alloc, source, &mut inbox, &head, 1_048_576) {
                    BodyRead::Body(_) => {}
                    BodyRead::TooLarge { len: _ } => {
                        write_counted(sink, LARGE);
                        return Ok(count);
                    }
                    _ => return Ok(count),
                }
                count = count.saturating_add(1);
                if write_counted(sink, answer).fault || says_close(&head) {
                    return Ok(count);
                }
            }
            HeadRead::BadHead { taken: _ } => {
                write_counted(sink, BAD);
                return Ok(count);
            }
            _ => return Ok(count),
        }
    }
    Ok(count)
}

// what serving some runs gave
#[derive(Clone, Copy, Debug, PartialEq, Eq)]
struct Served {
    requests: u64,
    read_faults: u64,
    write_faults: u64,
    door_faults: u64,
}

const NOTHING: Served = Served {
    requests: 0,
    read_faults: 0,
    write_faults: 0,
    door_faults: 0,
};

impl Served {
    fn sum(&self) -> u64 {
        self.requests
            .saturating_add(self.read_faults)
            .saturating_add(self.write_faults)
    }
}

// serves runs of requests of the door until there were so many requests and faults together
fn serve_until<R: Threads + Wait + Sync, W: Wait + Clock + Clone + Send + Drop>(
    rt: &R,
    alloc: Global,
    door: &mut TcpDoor<W>,
    most: u64,
    answer: &[u8],
) -> Served {
    let mut served = NOTHING;
    for _ in 0..10_000 {
        if served.sum() >= most {
            break;
        }
        serve_one(rt, alloc, door, answer, &mut served);
    }
    served.door_faults = door.faults();
    served
}

// serves one run of requests
fn serve_one<R: Threads + Wait + Sync, W: Wait + Clock + Clone + Send + Drop>(
    rt: &R,
    alloc: Global,
    door: &mut TcpDoor<W>,
    answer: &[u8],
    served: &mut Served,
) {
    match door.next_client(rt, alloc) {
        Accepted::One {
            ip: _,
            mut source,
            mut sink,
        } => {
            if let Ok(count) = serve_run(alloc, &mut source, &mut sink, answer) {
                served.requests = served.requests.saturating_add(count);
            }
            served.read_faults = served.read_faults.saturating_add(source.faults());
            served.write_faults = served.write_faults.saturating_add(sink.faults());
            door.close_client(source, sink);
        }
        Accepted::Closed => {}
        Accepted::Failed => {}
        Accepted::Memory => {}
    }
}

// what the first client does: kept alive, pipelined, and in pieces
fn first_client<N: Net<Stream = TcpStream> + Clock>(
    net: &N,
    alloc: Global,
    addr: SocketAddr,
) -> io::Result<u64> {
    let mut good = 0u64;
    let kept = dial(net, addr)?;
    for _ in 0..3 {
        good = good.saturating_add(asks(&kept, alloc, GET, OK));
    }
    for _ in 0..3 {
        say(&kept, GET)?;
    }
    for _ in 0..3 {
        good = good.saturating_add(one_if(hears(&kept, alloc, OK)));
    }
    good = good.saturating_add(pieces(net, alloc, &kept)?);
    good = good.saturating_add(asks(&kept, alloc, LAST, OK));
    Ok(good.saturating_add(one_if(ends(&kept))))
}

// a head and a body in pieces
fn pieces<N: Clock>(net: &N, alloc: Global, kept: &TcpStream) -> io::Result<u64> {
    say(kept, &GET[..10])?;
    thread::sleep(net, Duration::from_millis(20));
    say(kept, &GET[10..20])?;
    thread::sleep(net, Duration::from_millis(20));
    let head = asks(kept, alloc, &GET[20..], OK);
    say(kept, b"POST / HTTP/1.1\r\nContent-Length: 5\r\n\r\nab")?;
    thread::sleep(net, Duration::from_millis(20));
    Ok(head.saturating_add(asks(kept, alloc, b"cde", OK)))
}

// what the second client does: bytes that are no head, and connections that are half closed
fn second_client<N: Net<Stream = TcpStream>>(
    net: &N,
    alloc: Global,
    addr: SocketAddr,
) -> io::Result<u64> {
    let odd = dial(net, addr)?;
    let mut good = asks(&odd, alloc, b"(", BAD);
    good = good.saturating_add(one_if(ends(&odd)));
    let nothing = dial(net, addr)?;
    nothing.shutdown(Shutdown::Write)?;
    good = good.saturating_add(one_if(ends(&nothing)));
    let feeds = dial(net, addr)?;
    good = good.saturating_add(asks(&feeds, alloc, &[10u8; 70], BAD));
    Ok(good.saturating_add(half_client(net, alloc, addr)?))
}

// a request that is half closed
fn half_client<N: Net<Stream = TcpStream>>(
    net: &N,
    alloc: Global,
    addr: SocketAddr,
) -> io::Result<u64> {
    let half = dial(net, addr)?;
    say(&half, GET)?;
    half.shutdown(Shutdown::Write)?;
    let good = one_if(hears(&half, alloc, OK));
    Ok(good.saturating_add(one_if(ends(&half))))
}

// an outside that listens on this machine, and where
fn listening<
    N: Net<Listener = TcpListener, Stream = TcpStream>
        + Threads
        + Wait
        + Sync
        + Clock
        + Files
        + Clone
        + Send
        + Drop,
>(rt: &N, alloc: Global, waits: Waits) -> Result<(StdOutside<N>, SocketAddr), Fail> {
    let mut outside = StdOutside::new(rt.clone()?, waits);
    outside
        .listen(rt, alloc, b"127.0.0.1:0")
        .ok()
        .ok_or("listen")?;
    let addr = outside.local_addr().ok_or("address")?;
    Ok((outside, addr))
}

#[test]
fn serves_clients_one_after_the_other(rt: HostRuntime) -> Result<(), Fail> {
    let alloc = rt.alloc();
    let (mut outside, addr) = listening(&rt, alloc, WAITS)?;
    let mut worker = outside.worker(&rt, alloc).ok().ok_or("worker")?;
    let door = &mut worker.door;
    let (served, good) = join(
        &rt,
        || serve_until(&rt, alloc, door, 10, OK),
        || {
            let second = second_client(&rt, alloc, addr).unwrap_or(0);
            let first = first_client(&rt, alloc, addr).unwrap_or(0);
            (first, second)
        },
    );
    assert_eq!(rt; good, (10, 6));
    assert_eq!(rt;
        served,
        Served {
            requests: 10,
            read_faults: 0,
            write_faults: 0,
            door_faults: 0
        }
    );
    outside.give_back(worker);
    assert_eq!(rt; outside.returned(), 1);
    assert_eq!(rt; outside.faults(), 0);
    Ok(())
}

const QUICK: Waits = Waits {
    idle: 300,
    head: 200,
    floor: 200,
    step: 1,
    linger: 500,
    connect: 1_000,
    quiet: 200,
    tick: 50,
};

// half-sent heads take no worker, and a kept connection makes way for another
fn shy_clients<N: Net<Stream = TcpStream> + Clock>(
    net: &N,
    alloc: Global,
    addr: SocketAddr,
) -> io::Result<u64> {
    let shy = dial(net, addr)?;
    say(&shy, &GET[..5])?;
    thread::sleep(net, Duration::from_millis(30));
    let kept = dial(net, addr)?;
    let mut good = asks(&kept, alloc, GET, OK);
    say(&shy, &GET[5..10])?;
    thread::sleep(net, Duration::from_millis(30));
    good = good.saturating_add(asks(&kept, alloc, GET, OK));
    good = good.saturating_add(asks(&shy, alloc, &GET[10..], OK));
    for _ in 0..20 {
        good = good.saturating_add(asks(&kept, alloc, GET, OK));
        good = good.saturating_add(asks(&shy, alloc, GET, OK));
    }
    good = good.saturating_add(asks(&kept, alloc, LAST, OK));
    Ok(good.saturating_add(asks(&shy, alloc, LAST, OK)))
}

#[test]
fn parks_what_may_become_a_head(rt: HostRuntime) -> Result<(), Fail> {
    let alloc = rt.alloc();
    let (mut outside, addr) = listening(&rt, alloc, WAITS)?;
    let mut worker = outside.worker(&rt, alloc).ok().ok_or("worker")?;
    let door = &mut worker.door;
    let (served, good) = join(
        &rt,
        || serve_until(&rt, alloc, door, 45, OK),
        || shy_clients(&rt, alloc, addr).unwrap_or(0),
    );
    assert_eq!(rt; good, 45);
    assert_eq!(rt;
        served,
        Served {
            requests: 45,
            ..NOTHING
        }
    );
    outside.give_back(worker);
    Ok(())
}

// A hundred connections that send nothing, or a part of a head, and then one that asks. Where the process may not open
// so many, half of those that it opened are closed before that.
fn crowd<N: Net<Stream = TcpStream> + Clock>(
    net: &N,
    alloc: Global,
    addr: SocketAddr,
) -> io::Result<u64> {
    let mut others = Vec::new(alloc);
    for i in 0..100u32 {
        let Ok(other) = dial(net, addr) else {
            thread::sleep(net, Duration::from_millis(100));
            others.truncate(others.len() / 2);
            break;
        };
        if i % 2 == 0 {
            say(&other, &GET[..20])?;
        }
        if others.push(other).is_err() {
            break;
        }
    }
    let asking = dial(net, addr)?;
    say(&asking, LAST)?;
    Ok(one_if(hears(&asking, alloc, OK)))
}

#[test]
fn idle_connections_take_no_worker(rt: HostRuntime) -> Result<(), Fail> {
    let alloc = rt.alloc();
    let (mut outside, addr) = listening(&rt, alloc, WAITS)?;
    let mut worker = outside.worker(&rt, alloc).ok().ok_or("worker")?;
    let door = &mut worker.door;
    let (served, good) = join(
        &rt,
        || serve_until(&rt, alloc, door, 1, OK),
        || crowd(&rt, alloc, addr).unwrap_or(0),
    );
    assert_eq!(rt; good, 1);
    assert_eq!(rt;
        served,
        Served {
            requests: 1,
            ..NOTHING
        }
    );
    outside.give_back(worker);
    Ok(())
}

// connections that wait too long while another asks all the time
fn late_clients<N: Net<Stream = TcpStream> + Clock>(
    net: &N,
    alloc: Global,
    addr: SocketAddr,
) -> io::Result<u64> {
    let mut good = 0u64;
    let idle = dial(net, addr)?;
    let half = dial(net, addr)?;
    say(&half, &GET[..20])?;
    let busy = dial(net, addr)?;
    for _ in 0..200 {
        good = good.saturating_add(asks(&busy, alloc, GET, OK));
        thread::sleep(net, Duration::from_millis(3));
    }
    idle.set_nonblocking(true)?;
    half.set_nonblocking(true)?;
    good = good.saturating_add(one_if(ends(&idle)));
    good = good.saturating_add(one_if(ends(&half)));
    Ok(good.saturating_add(one_if(ends(&busy))))
}

// connections that wait too long while none asks
fn waiting_clients<N: Net<Stream = TcpStream>>(net: &N, addr: SocketAddr) -> io::Result<u64> {
    let idle = dial(net, addr)?;
    let half = dial(net, addr)?;
    say(&half, &GET[..20])?;
    let good = one_if(ends(&idle));
    Ok(good.saturating_add(one_if(ends(&half))))
}

// a head that comes a byte every two milliseconds
fn dripping_client<N: Net<Stream = TcpStream> + Clock>(
    net: &N,
    alloc: Global,
    addr: SocketAddr,
) -> io::Result<u64> {
    let dripping = dial(net, addr)?;
    let good = asks(&dripping, alloc, GET, OK);
    say(&dripping, &GET[..20])?;
    for _ in 0..300 {
        if say(&dripping, b"a").is_err() {
            return Ok(good.saturating_add(1));
        }
        thread::sleep(net, Duration::from_millis(2));
    }
    Ok(good)
}

// a client whose connection this request ends
fn last_client<N: Net<Stream = TcpStream>>(
    net: &N,
    alloc: Global,
    addr: SocketAddr,
    answer: &[u8],
) -> io::Result<u64> {
    let last = dial(net, addr)?;
    Ok(asks(&last, alloc, LAST, answer))
}

#[test]
fn late_connections_are_closed(rt: HostRuntime) -> Result<(), Fail> {
    let alloc = rt.alloc();
    let (mut outside, addr) = listening(&rt, alloc, QUICK)?;
    let mut worker = outside.worker(&rt, alloc).ok().ok_or("worker")?;
    let door = &mut worker.door;
    let (served, good) = join(
        &rt,
        || serve_until(&rt, alloc, door, 202, OK),
        || late_clients(&rt, alloc, addr)
            .unwrap_or(0)
            .saturating_add(waiting_clients(&rt, addr).unwrap_or(0))
            .saturating_add(dripping_client(&rt, alloc, addr).unwrap_or(0))
            .saturating_add(last_client(&rt, alloc, addr, OK).unwrap_or(0)),
    );
    assert_eq!(rt; good, 208);
    assert_eq!(rt;
        served,
        Served {
            requests: 202,
            ..NOTHING
        }
    );
    outside.give_back(worker);
    Ok(())
}

// a client that sends a body slowly
fn slow_client<N: Net<Stream = TcpStream> + Clock>(net: &N, addr: SocketAddr) -> io::Result<u64> {
    let slow = dial(net, addr)?;
    say(&slow, b"POST / HTTP/1.1\r\nContent-Length: 100000\r\n\r\n")?;
    for _ in 0..100 {
        if say(&slow, b"a").is_err() {
            return Ok(1);
        }
        thread::sleep(net, Duration::from_millis(10));
    }
    Ok(0)
}

// a client whose body is too large
fn large_client<N: Net<Stream = TcpStream> + Clock>(
    net: &N,
    alloc: Global,
    addr: SocketAddr,
) -> io::Result<u64> {
    let large = dial(net, addr)?;
    say(
        &large,
        b"POST / HTTP/1.1\r\nContent-Length: 1048577\r\n\r\n",
    )?;
    for _ in 0..60 {
        say(&large, &[97u8; 1000])?;
        thread::sleep(net, Duration::from_millis(1));
    }
    let good = one_if(hears(&large, alloc, LARGE));
    Ok(good.saturating_add(one_if(ends(&large))))
}

// a client that does not read
fn deaf_client<N: Net<Stream = TcpStream> + Clock>(
    net: &N,
    alloc: Global,
    addr: SocketAddr,
    answer: &[u8],
) -> io::Result<u64> {
    let deaf = dial(net, addr)?;
    say(&deaf, GET)?;
    thread::sleep(net, Duration::from_millis(1_000));
    let heard = hear(&deaf, alloc, answer.len())?;
    Ok(one_if(heard.len() < answer.len()))
}

#[test]
fn slow_clients_are_given_up(rt: HostRuntime) -> Result<(), Fail> {
    let alloc = rt.alloc();
    let (mut outside, addr) = listening(&rt, alloc, QUICK)?;
    let mut worker = outside.worker(&rt, alloc).ok().ok_or("worker")?;
    let door = &mut worker.door;
    let mut answer = Vec::new(alloc);
    answer.resize(16_000_000, 98u8)?;
    let answer = answer.as_slice();
    let (served, good) = join(
        &rt,
        || serve_until(&rt, alloc, door, 3, answer),
        || slow_client(&rt, addr)
            .unwrap_or(0)
            .saturating_add(large_client(&rt, alloc, addr).unwrap_or(0))
            .saturating_add(deaf_client(&rt, alloc, addr, answer).unwrap_or(0))
            .saturating_add(last_client(&rt, alloc, addr, answer).unwrap_or(0)),
    );
    assert_eq!(rt; good, 5);
    assert_eq!(rt;
        served,
        Served {
            requests: 2,
            read_faults: 0,
            write_faults: 1,
            door_faults: 0
        }
    );
    outside.give_back(worker);
    Ok(())
}

// the address that the door tells of a client at this one
fn told_address<
    R: Threads + Wait + Sync,
    W: Net<Stream = TcpStream> + Wait + Clock + Clone + Send + Drop,
>(
    rt: &R,
    net: &W,
    alloc: Global,
    door: &mut TcpDoor<W>,
    addr: SocketAddr,
) -> io::Result<Option<Ip>> {
    let client = dial(net, addr)?;
    say(&client, LAST)?;
    match door.next_client(rt, alloc) {
        Accepted::One { ip, source, sink } => {
            door.close_client(source, sink);
            Ok(Some(ip))
        }
        Accepted::Closed => Ok(None),
        Accepted::Failed => Ok(None),
        Accepted::Memory => Ok(None),
    }
}

#[test]
fn addresses_are_told(rt: HostRuntime) -> Result<(), Fail> {
    let alloc = rt.alloc();
    let mut outside = StdOutside::new(rt.clone()?, QUICK);
    assert_eq!(rt;
        outside.listen(&rt, alloc, b"127.0.0.1"),
        Err(OutsideFault::BadAddress)
    );
    assert_eq!(rt;
        outside.listen(&rt, alloc, b"192.0.2.1:1"),
        Err(OutsideFault::Failed)
    );
    assert_eq!(rt; outside.faults(), 1);
    outside.listen(&rt, alloc, b"[::]:0").ok().ok_or("listen")?;
    let port = outside.local_addr().ok_or("address")?.port();
    let mut worker = outside.worker(&rt, alloc).ok().ok_or("worker")?;
    let six = SocketAddr::new(IpAddr::V6(Ipv6Addr::LOCALHOST), port);
    let four = SocketAddr::new(IpAddr::V4(Ipv4Addr::LOCALHOST), port);
    assert_eq!(rt;
        told_address(&rt, &rt, alloc, &mut worker.door, six)?,
        Some(Ip::V6(1))
    );
    assert_eq!(rt;
        told_address(&rt, &rt, alloc, &mut worker.door, four)?,
        Some(Ip::V4(2_130_706_433))
    );
    assert_eq!(rt; worker.door.faults(), 0);
    outside.give_back(worker);
    Ok(())
}

#[test]
fn reads_place_files(rt: HostRuntime) -> Result<(), Fail> {
    let alloc = rt.alloc();
    let mut outside = StdOutside::new(rt.clone()?, WAITS);
    let mut name = env::temp_dir(&rt)?;
    name.push("rattle_sockets_place_file")?;
    let text = name.as_path().to_str().ok_or("name")?;
    fs::write(&rt, text, "192.0.2.0/24 64496 us\n")?;
    let read = outside
        .places(&rt, alloc, text.as_bytes())
        .ok()
        .ok_or("read")?;
    assert!(rt; read.bytes() == b"192.0.2.0/24 64496 us\n".as_slice());
    assert_eq!(rt; outside.faults(), 0);
    fs::remove_file(&rt, text)?;
    let gone = outside.places(&rt, alloc, text.as_bytes());
    assert!(rt; matches!(&gone, Err(OutsideFault::Failed)));
    assert_eq!(rt; outside.faults(), 1);
    Ok(())
}

#[test]
fn gives_the_time_of_day(rt: HostRuntime) -> Result<(), Fail> {
    let alloc = rt.alloc();
    let mut outside = StdOutside::new(rt.clone()?, WAITS);
    outside
        .listen(&rt, alloc, b"127.0.0.1:0")
        .ok()
        .ok_or("listen")?;
    let mut worker = outside.worker(&rt, alloc).ok().ok_or("worker")?;
    let moment = edge_base::Clock::now(&mut worker.clock);
    // later than the beginning of 2020
    assert!(rt; moment > 1_577_836_800_000);
    outside.give_back(worker);
    Ok(())
}

// one worker with what it served
#[derive(Drop)]
struct Job<W: Wait + Clock + Clone + Drop> {
    door: TcpDoor<W>,
    served: Served,
}

// so many workers that served nothing yet
fn jobs_of<
    N: Net<Listener = TcpListener, Stream = TcpStream>
        + Threads
        + Wait
        + Sync
        + Clock
        + Files
        + Clone
        + Send
        + Drop,
>(rt: &N, alloc: Global, outside: &mut StdOutside<N>, count: u64) -> Result<Vec<Job<N>>, Fail> {
    let mut jobs = Vec::new(alloc);
    for _ in 0..count {
        let worker = outside.worker(rt, alloc).ok().ok_or("worker")?;
        jobs.push(Job {
            door: worker.door,
            served: NOTHING,
        })
        .ok()
        .ok_or("memory")?;
    }
    Ok(jobs)
}

// serves so many runs of requests of one door, and then says so
fn serve_some<R: Threads + Wait + Sync, W: Wait + Clock + Clone + Send + Drop>(
    rt: &R,
    alloc: Global,
    job: &mut Job<W>,
    runs: u64,
    answer: &[u8],
    ended: &AtomicU64,
) {
    for _ in 0..runs {
        serve_one(rt, alloc, &mut job.door, answer, &mut job.served);
    }
    ended.fetch_add(1, Ordering::SeqCst);
}

// serves so many runs of requests with each of the workers, with all at once
fn serve_all<R: Threads + Wait + Sync, W: Wait + Clock + Clone + Send + Drop>(
    rt: &R,
    alloc: Global,
    jobs: &mut [Job<W>],
    runs: u64,
    answer: &[u8],
    ended: &AtomicU64,
) {
    thread::for_each_mut(
        rt,
        jobs,
        4,
        &|_, job: &mut Job<W>| serve_some(rt, alloc, job, runs, answer, ended),
    );
}

// what the workers served together
fn sum_of<W: Wait + Clock + Clone + Drop>(jobs: &[Job<W>]) -> Served {
    let mut served = NOTHING;
    for job in jobs {
        served.requests = served.requests.saturating_add(job.served.requests);
        served.read_faults = served.read_faults.saturating_add(job.served.read_faults);
        served.write_faults = served.write_faults.saturating_add(job.served.write_faults);
        served.door_faults = served.door_faults.saturating_add(job.door.faults());
    }
    served
}

// asks over kept connections and over new ones, in turn, until all workers have ended; how many were answered
fn many_clients<N: Net<Stream = TcpStream> + Clock>(
    net: &N,
    alloc: Global,
    addr: SocketAddr,
    ended: &AtomicU64,
) -> io::Result<u64> {
    let mut good = 0u64;
    let kept = [
        dial(net, addr)?,
        dial(net, addr)?,
        dial(net, addr)?,
        dial(net, addr)?,
        dial(net, addr)?,
        dial(net, addr)?,
    ];
    for _ in 0..2_000 {
        if ended.load(Ordering::SeqCst) >= WORKERS {
            return Ok(good);
        }
        for stream in &kept {
            if say(stream, GET).is_ok() {
                good = good.saturating_add(one_if(hears(stream, alloc, OK)));
            }
        }
        let new = dial(net, addr)?;
        say(&new, LAST)?;
        good = good.saturating_add(one_if(hears(&new, alloc, OK)));
    }
    Ok(good)
}

const WORKERS: u64 = 4;

#[test]
fn many_workers_share_the_connections(rt: HostRuntime) -> Result<(), Fail> {
    let alloc = rt.alloc();
    let (mut outside, addr) = listening(&rt, alloc, WAITS)?;
    let mut jobs = jobs_of(&rt, alloc, &mut outside, WORKERS)?;
    let ended = AtomicU64::new(0);
    let all = jobs.as_mut_slice();
    let (_, good) = join(
        &rt,
        || serve_all(&rt, alloc, all, 25, OK, &ended),
        || many_clients(&rt, alloc, addr, &ended).unwrap_or(0),
    );
    assert!(rt; good >= 100);
    assert_eq!(rt;
        sum_of(jobs.as_slice()),
        Served {
            requests: good,
            ..NOTHING
        }
    );
    Ok(())
}

// a client whose body comes in two parts, one that reads its answer late, between them one that is answered, and one at the end, so that
// until then a worker is free and nobody is given up
fn clients_in_the_way<N: Net<Stream = TcpStream> + Clock>(
    net: &N,
    alloc: Global,
    addr: SocketAddr,
    answer: &[u8],
) -> io::Result<u64> {
    let half = dial(net, addr)?;
    say(&half, b"POST / HTTP/1.1\r\nContent-Length: 5\r\n\r\nab")?;
    thread::sleep(net, Duration::from_millis(20));
    let deaf = dial(net, addr)?;
    say(&deaf, GET)?;
    thread::sleep(net, Duration::from_millis(20));
    let mut good = last_client(net, alloc, addr, answer)?;
    good = good.saturating_add(asks(&half, alloc, b"cde", answer));
    good = good.saturating_add(one_if(hears(&deaf, alloc, answer)));
    Ok(good.saturating_add(last_client(net, alloc, addr, answer)?))
}

#[test]
fn workers_that_wait_stop_no_other(rt: HostRuntime) -> Result<(), Fail> {
    let alloc = rt.alloc();
    let (mut outside, addr) = listening(&rt, alloc, WAITS)?;
    let mut jobs = jobs_of(&rt, alloc, &mut outside, 4)?;
    let mut answer = Vec::new(alloc);
    answer.resize(16_000_000, 98u8)?;
    let answer = answer.as_slice();
    let ended = AtomicU64::new(0);
    let all = jobs.as_mut_slice();
    let (_, good) = join(
        &rt,
        || serve_all(&rt, alloc, all, 1, answer, &ended),
        || clients_in_the_way(&rt, alloc, addr, answer).unwrap_or(0),
    );
    assert_eq!(rt; good, 4);
    assert_eq!(rt;
        sum_of(jobs.as_slice()),
        Served {
            requests: 4,
            ..NOTHING
        }
    );
    Ok(())
}
