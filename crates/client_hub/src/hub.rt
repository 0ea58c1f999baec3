//! The one place where the workers find their connections.

ghost use Rattle.std.specs.Prelude.{ℕ, ◌≡◌, ◌≤◌, ◌==◌, [], length, take, drop, is_some, if◌then◌else◌, IfSome};
ghost use Rattle.std.specs.Option.{option_and_then};
ghost use Rattle.std.specs.Net.Socket.{socket_ip};
ghost use Rattle.http_wire.specs.declared.limits.TheConstants.{HEAD_MAX};
ghost use Rattle.client_hub.specs.Behind.{body_behind};
ghost use Rattle.client_hub.specs.Hub.{moment_or, refusal_of, IsClientGiven, IsClientIp, IsGivenOf, IsGivenWhole, IsGivenWith};
ghost use Rattle.client_hub.specs.Message.{awaited_with};

use crate::ahead::{Front, front_of};
use crate::behind::what_follows;
use crate::buffer::widen;
use crate::message::{READS, awaited, go_on, read_message, waited_for};
use crate::rest::Rest;
use client_desk::{Absent, Desk, LISTENER, Lot, Origins, Parked, Post, Waiting};
use http_wire::HEAD_MAX;
use libc::net as c;
use location_acl::Ip;
use mio::Poll;
use sockets::{Moved, Room, Waits, Woken, clock_of, wait_for_one};
use std::alloc::Global;
use std::net::{IpAddr, Net, SocketAddr, TcpListener, TcpStream};
use std::os::fd::{AsRawFd, OwnedFd, RawFd};
use std::rt::Files;
use std::sync::atomic::{AtomicU64, Ordering};
use std::sync::{Condvar, Mutex, Wait};
use std::time::{Clock, Duration};
use std::{io, thread};

/// How long the first read of a next request waits by itself, in milliseconds.
const FIRST_WAIT: u64 = 5;

/// How many connections may wait to be accepted; the system allows fewer.
const BACKLOG: i32 = 65_535;

/// How long parked connections are spared where no descriptor is left, in milliseconds.
const SPARED: u64 = 1_000;

/// No file can be opened any more, in the whole system.
const ENFILE: i32 = 23;

/// No memory is left for sockets.
const ENOBUFS: i32 = 105;

/// How long a worker sleeps where no descriptor is left, in milliseconds.
const FULL_SLEEP: u64 = 20;

/// A listener, the connections that came of it and are open, and the workers that serve them.
#[derive(Drop)]
pub struct Hub {
    listener: TcpListener,
    poll: Poll,
    pub(crate) desk: Mutex<Desk>,
    // where workers sleep
    pub(crate) sleepers: Condvar,
    // where the deputy does
    pub(crate) deputy: Condvar,
    // when it was looked for late ones
    looked: AtomicU64,
    /// What is waited.
    pub waits: Waits,
}

/// A connection for a worker, whose bytes so far stand in the worker's room, and the others behind them.
#[derive(Drop)]
pub struct Taken {
    pub stream: TcpStream,
    /// The address of its client.
    pub ip: Ip,
    /// Its token.
    pub token: u64,
    /// What came of its message and has no place in the room.
    pub rest: Rest,
}

/// What looking for a connection gave.
#[derive(Drop)]
pub enum Look {
    /// A connection with something for a worker.
    Given(Taken),
    /// Nothing for now.
    Nothing,
    /// The listener is broken.
    Fault,
}

// what an error of accepting is
#[derive(Clone, Copy, Debug, PartialEq, Eq)]
pub(crate) enum Refusal {
    // the listener is none
    Fault,
    // no descriptor or no memory is left for now
    Full,
    // one connection was lost, or nothing was there
    Passing,
}

impl Hub {
    /// A hub of this listener, whose connections wait so. Of what is written to them the system takes as much at once as it
    /// may, where that is more than it comes to by itself.
    ///
    /// # Errors
    /// What the system says of the listener's options or of the epoll.
    pub fn new<N: Net + Files>(
        net: &N,
        alloc: Global,
        listener: TcpListener,
        waits: Waits,
    ) -> io::Result<Hub> {
        let listener = with_options(listener)?;
        widen(net, &listener);
        let poll = Poll::new(net)?;
        let hub = Hub {
            listener,
            poll,
            desk: Mutex::new(Desk {
                lot: Lot::new(alloc),
                post: Post::new(),
                absent: Absent::new(alloc),
                doubted: Origins::new(alloc),
                asked: Origins::new(alloc),
                tasks: 0,
            }),
            sleepers: Condvar::new(),
            deputy: Condvar::new(),
            looked: AtomicU64::new(0),
            waits,
        };
        if hub.listen(c::EPOLL_CTL_ADD, c::EPOLLIN) {
            Ok(hub)
        } else {
            Err(io::Error::from_raw_os_error(os::errno()))
        }
    }

    /// The address where it listens.
    ///
    /// # Errors
    /// What the system says.
    pub fn local_addr(&self) -> io::Result<SocketAddr> {
        self.listener.local_addr()
    }

    /// The descriptor of the epoll, which has something to read where something came for a worker.
    pub fn epoll(&self) -> RawFd {
        self.poll.as_raw_fd()
    }

    // Has the epoll tell of the listener's connections, or no longer do so. Only its first call needs memory.
    fn listen(&self, op: i32, events: u32) -> bool {
        let fd = self.listener.as_raw_fd();
        os::epoll_ctl(self.epoll(), op, fd, events, LISTENER) == 0
    }

    /// Whether something came for a worker that waits in the epoll.
    pub fn is_wanted(&self) -> bool {
        wait_for_one(self.epoll(), c::POLLIN, 0) == Woken::First
    }

    // Parks a connection until its client sends something. It is kept first and told of then, both under the lock, so
    // that nobody closes it in between.
    fn park<W: Wait>(&self, rt: &W, parked: Parked) {
        let fd = parked.stream.as_raw_fd();
        let token = parked.token;
        let mut desk = self.desk.lock(rt);
        if desk.lot.keep(parked) {
            return;
        }
        let events = c::EPOLLIN | c::EPOLLRDHUP;
        if os::epoll_ctl(self.epoll(), c::EPOLL_CTL_ADD, fd, events, token) == 0 {
            desk.lot.tell(token);
        } else {
            desk.lot.forget(token);
        }
    }

    /// A connection that a worker has is about to be closed.
    pub fn forget<W: Wait>(&self, rt: &W, token: u64) {
        self.desk.lock(rt).lot.forget(token);
    }

    // whether nobody looked for late connections for a while; then the caller does
    pub(crate) fn is_due(&self, now: u64) -> bool {
        let looked = self.looked.load(Ordering::SeqCst);
        now.saturating_sub(looked) >= self.waits.tick
            && self
                .looked
                .compare_exchange(looked, now, Ordering::SeqCst, Ordering::SeqCst)
                .is_ok()
    }

    // closes connections that were parked for a while, since no descriptor is left
    fn make_room<W: Wait + Clock>(&self, rt: &W) {
        let now = clock_of(rt);
        self.desk.lock(rt).lot.make_room(now, SPARED);
    }

    /// Reads of a connection of which something came, and parks it where that may still become a head.
    pub fn read<W: Wait + Clock>(
        &self,
        rt: &W,
        alloc: Global,
        parked: Parked,
        room: &mut Room,
    ) -> Look
        ensures given { IsGivenWith parked (take HEAD_MAX parked.got.items) room.new result }
        ensures whole { (count : ℕ) → parked.waiting ≡ Waiting.Message count → IsGivenWhole parked.got.items room.new result }
    {
        match parked.waiting {
            Waiting::Head => {
                room.hold(parked.got.as_slice());
                self.receive(rt, alloc, parked, room)
            }
            Waiting::Message(whole) => self.gather(rt, parked, whole, room),
            Waiting::End(left) => {
                self.pass_over(rt, parked, left, room);
                Look::Nothing
            }
        }
    }

    // reads of a message whose head came; gives it where it is whole, or its client sends no more
    fn gather<W: Wait + Clock>(&self, rt: &W, parked: Parked, whole: usize, room: &mut Room) -> Look
        ensures given { IsGivenWith parked (take HEAD_MAX parked.got.items) room.new result }
        ensures whole { IsGivenWhole parked.got.items room.new result }
    {
        let mut parked = parked;
        let before = parked.got.len();
        match read_message(&parked.stream, &mut parked.got, whole) {
            Moved::End => {
                room.hold(parked.got.as_slice());
                return given_whole(parked);
            }
            Moved::Failed => self.forget(rt, parked.token),
            _ => {
                let came = parked.got.len().saturating_sub(before);
                self.wait_for_message(rt, parked, came);
            }
        }
        Look::Nothing
    }

    // Parks a connection of whose message so many bytes came, until more come. What came of all messages together is kept
    // within its limit.
    fn wait_for_message<W: Wait + Clock>(&self, rt: &W, parked: Parked, came: usize) {
        self.park(rt, parked);
        let now = clock_of(rt);
        let mut desk = self.desk.lock(rt);
        if desk.lot.note_bytes(came) {
            desk.lot.keep_within(now);
        }
    }

    // reads what a client still sends whose connection has ended, up to so many bytes, and does not look at it
    fn pass_over<W: Wait>(&self, rt: &W, parked: Parked, left: usize, room: &mut Room) {
        let mut left = left;
        for _ in 0..READS {
            room.clear();
            match room.fill(&parked.stream, false) {
                Moved::Some(count) => left = left.saturating_sub(count),
                Moved::Later => break,
                _ => left = 0,
            }
            if left == 0 {
                self.forget(rt, parked.token);
                return;
            }
        }
        self.park(rt, ending(parked, left));
    }

    /// Parks a connection that is closed for writing until its client has ended too, or has sent so many bytes more, or for
    /// as long as is waited for that; then it is closed.
    pub fn let_end<W: Wait + Clock>(&self, rt: &W, parked: Parked, left: usize) {
        let now = clock_of(rt);
        self.park(
            rt,
            Parked {
                since: now,
                ..ending(parked, left)
            },
        );
    }

    /// Accepts one connection, and reads of it.
    pub fn accept<W: Wait + Clock>(&self, rt: &W, alloc: Global, room: &mut Room) -> Look
        ensures { IsClientGiven result }
    {
        match self.listener.accept() {
            Ok((stream, addr)) => {
                let Some(token) = self.desk.lock(rt).lot.admit(stream.as_raw_fd()) else {
                    return Look::Nothing;
                };
                room.clear();
                self.receive(rt, alloc, accepted(alloc, stream, addr, token), room)
            }
            Err(error) => self.refused(rt, &error),
        }
    }

    // Goes on after an error of accepting. Where no descriptor or memory is left, nothing is accepted for a while, and others
    // wait in the epoll.
    fn refused<W: Wait + Clock>(&self, rt: &W, error: &io::Error) -> Look
        ensures { IsClientGiven result }
    {
        match refusal_of(error.raw_os_error().unwrap_or(0)) {
            Refusal::Fault => Look::Fault,
            Refusal::Full => {
                self.listen(c::EPOLL_CTL_MOD, 0);
                self.hand_over(rt);
                self.make_room(rt);
                thread::sleep(rt, Duration::from_millis(FULL_SLEEP));
                self.listen(c::EPOLL_CTL_MOD, c::EPOLLIN);
                Look::Nothing
            }
            Refusal::Passing => Look::Nothing,
        }
    }

    // reads what a connection has for a worker; parks it where that is none, or may still become a head
    fn receive<W: Wait + Clock>(
        &self,
        rt: &W,
        alloc: Global,
        parked: Parked,
        room: &mut Room,
    ) -> Look
        ensures { IsGivenWith parked room.old room.new result }
    {
        match room.fill(&parked.stream, false) {
            Moved::Some(_) => match front_of(room.bytes()) {
                Front::Open => self.park_again(rt, alloc, parked, room),
                Front::Whole(end) if lacks(room.bytes(), end) => {
                    self.park_again(rt, alloc, parked, room)
                }
                _ => return given(alloc, parked),
            },
            Moved::Later => self.park_again(rt, alloc, parked, room),
            Moved::End if !room.bytes().is_empty() => return given(alloc, parked),
            _ => self.forget(rt, parked.token),
        }
        Look::Nothing
    }

    /// Parks a connection with the bytes that stand in the room, in place of its own; closes it where there is no memory for
    /// them. Where they have a whole head, and not the whole body that it tells, it waits for that, and its client has word
    /// where it waits for that before it sends it.
    pub fn park_again<W: Wait + Clock>(&self, rt: &W, alloc: Global, parked: Parked, room: &Room) {
        let waited = waited_for(room.bytes());
        let asks = matches!(waited, Some((_, true)));
        if asks && !go_on(&parked.stream) {
            self.forget(rt, parked.token);
            return;
        }
        let Some(got) = copied(alloc, room) else {
            self.forget(rt, parked.token);
            return;
        };
        let now = clock_of(rt);
        match waited {
            Some((whole, _)) => {
                let came = got.len();
                self.wait_for_message(rt, gathering(parked, got, whole, now), came);
            }
            None => self.park(rt, parked_with(parked, got, now)),
        }
    }
}

// a copy of the bytes of a room; none where there is no memory for them
fn copied(alloc: Global, room: &Room) -> Option<Vec<u8>>
    ensures { IfSome result (λ got. got.items ≡ room.now) }
{
    Vec::from_slice(alloc, room.bytes()).ok()
}

// the connection with these bytes of its next head in place of its own, as it is parked at this moment
fn parked_with(parked: Parked, got: Vec<u8>, now: u64) -> Parked
    ensures got { result.got ≡ got }
    ensures since { result.since ≡ moment_or parked.since now }
    ensures born { result.born ≡ (if length got.items == 0 then 0 else moment_or parked.born now) }
    ensures waiting { result.waiting ≡ Waiting.Head }
    ensures others { (result.stream ≡ parked.stream) × (result.ip ≡ parked.ip) × (result.token ≡ parked.token) }
{
    let born = if got.is_empty() {
        0
    } else {
        or_now(parked.born, now)
    };
    Parked {
        stream: parked.stream,
        ip: parked.ip,
        waiting: Waiting::Head,
        got,
        since: or_now(parked.since, now),
        born,
        token: parked.token,
    }
}

// the connection with these bytes of its next message, whose head they have, and which has so many; it is waited for since
// this moment
fn gathering(parked: Parked, got: Vec<u8>, whole: usize, now: u64) -> Parked
    ensures got { result.got ≡ got }
    ensures waiting { result.waiting ≡ Waiting.Message whole }
    ensures moments { (result.since ≡ moment_or parked.since now) × (result.born ≡ now) }
    ensures others { (result.stream ≡ parked.stream) × (result.ip ≡ parked.ip) × (result.token ≡ parked.token) }
{
    Parked {
        stream: parked.stream,
        ip: parked.ip,
        waiting: Waiting::Message(whole),
        got,
        since: or_now(parked.since, now),
        born: now,
        token: parked.token,
    }
}

// the connection, of which so many bytes more are read at most
fn ending(parked: Parked, left: usize) -> Parked
    ensures waiting { result.waiting ≡ Waiting.End left }
    ensures moments { (result.since ≡ parked.since) × (result.born ≡ parked.born) }
    ensures others { (result.stream ≡ parked.stream) × (result.ip ≡ parked.ip) × (result.token ≡ parked.token) }
{
    Parked {
        stream: parked.stream,
        ip: parked.ip,
        waiting: Waiting::End(left),
        got: parked.got,
        since: parked.since,
        born: parked.born,
        token: parked.token,
    }
}

// whether the body is not there that is told by the head which ends there
fn lacks(bytes: &[u8], end: usize) -> bool
    requires { end ≤ length bytes.now }
    ensures { result ≡ is_some (option_and_then (λ body. awaited_with body end (length bytes.now)) (body_behind (take end bytes.now))) }
{
    awaited(&what_follows(&bytes[..end]), end, bytes.len()).is_some()
}

// a connection that was accepted, with the address that came with it: nothing came of it yet
fn accepted(alloc: Global, stream: TcpStream, addr: SocketAddr, token: u64) -> Parked
    ensures ip { IsClientIp (socket_ip addr) result.ip }
    ensures stream { result.stream ≡ stream }
    ensures token { result.token ≡ token }
    ensures nothing { (result.got.items ≡ []) × (result.since ≡ 0) × (result.born ≡ 0) }
    ensures waiting { result.waiting ≡ Waiting.Head }
{
    Parked {
        stream,
        ip: ip_of(addr),
        waiting: Waiting::Head,
        got: Vec::new(alloc),
        since: 0,
        born: 0,
        token,
    }
}

// what this error of accepting is: only a listener that is none is a fault
fn refusal_of(error: i32) -> Refusal
    ensures { result ≡ refusal_of error }
{
    if error == libc::EBADF || error == libc::EINVAL || error == libc::ENOTSOCK {
        return Refusal::Fault;
    }
    if error == libc::EMFILE || error == ENFILE || error == ENOBUFS || error == libc::ENOMEM {
        return Refusal::Full;
    }
    Refusal::Passing
}

// this moment, or now where it is 0
fn or_now(moment: u64, now: u64) -> u64
    ensures { result ≡ moment_or moment now }
{
    if moment == 0 { now } else { moment }
}

// this connection, for a worker that has its bytes
fn given(alloc: Global, parked: Parked) -> Look
    ensures { IsGivenOf parked [] result }
{
    Look::Given(Taken {
        stream: parked.stream,
        ip: parked.ip,
        token: parked.token,
        rest: Rest::none(alloc),
    })
}

// this connection, for a worker that has as many of its bytes as there is room for, with the others
fn given_whole(parked: Parked) -> Look
    ensures { IsGivenOf parked (drop HEAD_MAX parked.got.items) result }
{
    Look::Given(Taken {
        stream: parked.stream,
        ip: parked.ip,
        token: parked.token,
        rest: Rest::behind(parked.got, HEAD_MAX),
    })
}

// the listener that lends its connections these options: small pieces are sent at once, and a read waits for 5 ms. It
// does not wait itself, and the system's longest queue waits before it.
fn with_options(listener: TcpListener) -> io::Result<TcpListener> {
    let stream = TcpStream::from(OwnedFd::from(listener));
    stream.set_nodelay(true)?;
    stream.set_read_timeout(Some(Duration::from_millis(FIRST_WAIT)))?;
    let listener = TcpListener::from(OwnedFd::from(stream));
    listener.set_nonblocking(true)?;
    c::listen(listener.as_raw_fd(), BACKLOG);
    Ok(listener)
}

// the address of a client; an IPv4 address within an IPv6 one is that IPv4 address (RFC 4291, section 2.5.5.2)
fn ip_of(addr: SocketAddr) -> Ip
    ensures { IsClientIp (socket_ip addr) result }
{
    match addr.ip().to_canonical() {
        IpAddr::V4(ip) => Ip::V4(ip.to_bits()),
        IpAddr::V6(ip) => Ip::V6(ip.to_bits()),
    }
}
