//! The source of a client's connection.

ghost use Rattle.std.specs.Prelude.{◌≡◌, ◌-◌, ◌<◌, ◌≤◌, length, nat_lt, option_map, if◌then◌else◌, IfSome, Some};
ghost use Rattle.tcp_door.specs.Source.{IsPiece};
ghost use Rattle.sockets.specs.Ready.{IsMoved};

use client_hub::{Front, Hub, Rest, Stance, awaited, front_of, what_follows};
use edge_base::{Source, Took};
use libc::net as c;
use location_acl::Ip;
use sockets::{Link, Moved, Pace, Room, Woken, clock_of, read_within, wait_for_one, wait_for_two};
use std::alloc::Global;
use std::os::fd::AsRawFd;
use std::sync::{Arc, Wait};
use std::time::Clock;

/// After how many requests of the only connection it is looked for another one, where no other worker waits for it.
const BURST: u64 = 8;

/// How long a worker that keeps a connection waits before it looks whether another one is open, in milliseconds.
const LOOK_STEP: u64 = 25;

/// How often a wait is begun again at most.
const MOST_WAITS: u64 = u64::MAX;

// how a run of requests goes on
#[derive(Clone, Copy, Debug, PartialEq, Eq)]
pub(crate) enum Run {
    // it goes on
    Going,
    // it was ended between two requests, since other connections ask too; the connection is kept
    Yielded,
    // it is over, and so is the connection
    Over,
}

// what is left of a connection that is closed
#[derive(Drop)]
pub(crate) struct Left {
    pub link: Arc<Link, Global>,
    pub ip: Ip,
    // what came of its next head
    pub room: Room,
    pub since: u64,
    pub born: u64,
    pub token: u64,
    pub run: Run,
    // whether the client may have sent more than was read
    pub unread: bool,
}

/// Reads the requests of a TCP connection. It does not tell what is left.
///
/// It gives one head at a time, and the bytes of its body behind it (RFC 9112, section 6). Between two requests it ends
/// where other connections ask too, or where nothing comes for 60 seconds, or where a part of a head came and the rest does
/// not for ten seconds, or where a whole head came and its body did not: that is waited for without a worker. The waits for the bytes of one body may take ten seconds in all, and one second more for each
/// 65,536 bytes that came; past that the client is too slow, and the read fails. A failed read counts a fault.
#[derive(Drop)]
pub struct SocketSource<W: Wait + Clock + Drop> {
    hub: Arc<Hub, Global>,
    link: Arc<Link, Global>,
    rt: W,
    ip: Ip,
    room: Room,
    // what came of the first message behind the bytes of the room
    rest: Rest,
    // how many bytes of the message that is given are left; where that is not known, none
    body: Option<u64>,
    // the moment at which nothing had come, 0 where that was not looked at
    since: u64,
    // the moment at which a part of a head had come, 0 where that was not looked at
    born: u64,
    token: u64,
    // how many requests were given
    count: u64,
    run: Run,
    // whether the last head asked for the end of the connection
    last: bool,
    pace: Pace,
    faults: u64,
}

impl<W: Wait + Clock + Drop> SocketSource<W> {
    // a source of a connection, whose bytes so far stand in the room
    pub(crate) fn new(
        hub: Arc<Hub, Global>,
        link: Arc<Link, Global>,
        rt: W,
        ip: Ip,
        token: u64,
        room: Room,
        rest: Rest,
        pace: Pace,
    ) -> SocketSource<W>
        ensures faults { result.faults ≡ 0 }
        ensures client { (result.ip ≡ ip) × (result.token ≡ token) }
        ensures link { result.link ≡ link }
        ensures room { result.room ≡ room }
        ensures rest { result.rest ≡ rest }
    {
        SocketSource {
            hub,
            link,
            rt,
            ip,
            room,
            rest,
            body: Some(0),
            since: 0,
            born: 0,
            token,
            count: 0,
            run: Run::Going,
            last: false,
            pace,
            faults: 0,
        }
    }

    /// How many of its calls failed, up to 2^64 - 1.
    pub fn faults(&self) -> u64
        ensures { result ≡ self.now.faults }
    {
        self.faults
    }

    // what is left of it where it is closed
    pub(crate) fn into_left(self) -> Left
        ensures client { (result.ip ≡ self.ip) × (result.token ≡ self.token) }
        ensures moments { (result.since ≡ self.since) × (result.born ≡ self.born) }
        ensures link { result.link ≡ self.link }
        ensures room { result.room ≡ self.room }
        ensures run { result.run ≡ (if nat_lt 0 self.faults then Run.Over else self.run) }
    {
        let unread = !self.last || self.body != Some(0) || !self.room.bytes().is_empty();
        let run = if self.faults > 0 { Run::Over } else { self.run };
        let SocketSource {
            hub: _,
            link,
            rt: _,
            ip,
            room,
            rest: _,
            body: _,
            since,
            born,
            token,
            count: _,
            run: _,
            last: _,
            pace: _,
            faults: _,
        } = self;
        Left {
            link,
            ip,
            room,
            since,
            born,
            token,
            run,
            unread,
        }
    }

    // begins with the next message, of so many bytes
    fn begin(&mut self, body: Option<u64>, last: bool)
        ensures faults { self.new.faults ≡ self.old.faults }
        ensures body { self.new.body ≡ body }
    {
        self.body = body;
        self.last = last;
        self.since = 0;
        self.born = 0;
        self.count = self.count.saturating_add(1);
        self.link.begin();
        self.pace.begin();
    }

    // reads until a whole head is there, or bytes that never become one, and begins with that message
    fn next_message(&mut self) -> Moved
        ensures faults { self.new.faults ≡ self.old.faults }
    {
        for _ in 0..MOST_WAITS {
            match front_of(self.room.bytes()) {
                Front::Whole(end) => {
                    let came = self.room.bytes().len();
                    let next = what_follows(&self.room.bytes()[..end]);
                    if self.count > 0 && awaited(&next, end, came).is_some() {
                        self.run = Run::Yielded;
                        return Moved::End;
                    }
                    let body = match next.body {
                        Some(body) => Some(body.saturating_add(end as u64)),
                        None => None,
                    };
                    self.begin(body, next.last);
                    return Moved::Some(end);
                }
                Front::Never => {
                    self.begin(None, false);
                    return Moved::Some(1);
                }
                Front::Open => {}
            }
            match self.more() {
                Moved::Some(_) => {}
                Moved::End => {
                    if self.room.bytes().is_empty() {
                        self.run = Run::Over;
                        return Moved::End;
                    }
                    self.begin(None, false);
                    return Moved::Some(1);
                }
                Moved::Later => return Moved::End,
                Moved::Failed => return Moved::Failed,
            }
        }
        Moved::Failed
    }

    // Reads more of the next head; `Later` where the run is to end: where other connections ask too, this one waits with
    // them. Where nothing of it came, it is read without looking at the time.
    fn more(&mut self) -> Moved
        ensures faults { self.new.faults ≡ self.old.faults }
    {
        let stance = self.hub.stance(&self.rt, self.token);
        if stance == Stance::Crowded || (stance == Stance::Unattended && self.is_to_look()) {
            self.run = Run::Yielded;
            return Moved::Later;
        }
        if !self.room.bytes().is_empty() {
            return self.wait_for_more();
        }
        match self.room.fill(&self.link.stream, true) {
            Moved::Later => self.wait_for_more(),
            got => got,
        }
    }

    // whether enough requests were served in a row, and a connection came
    fn is_to_look(&self) -> bool {
        self.count % BURST == 0 && self.hub.is_wanted()
    }

    // waits for more of the next head; `Later` where the run is to end
    fn wait_for_more(&mut self) -> Moved
        ensures faults { self.new.faults ≡ self.old.faults }
    {
        for _ in 0..MOST_WAITS {
            match self.wait_once() {
                Woken::First => match self.room.fill(&self.link.stream, false) {
                    Moved::Later => {}
                    got => return got,
                },
                Woken::Second => {
                    self.run = Run::Yielded;
                    return Moved::Later;
                }
                Woken::Neither => {
                    if self.run == Run::Over {
                        return Moved::Later;
                    }
                }
            }
        }
        Moved::Failed
    }

    // waits for a while for this connection; `Second` where others ask too
    fn wait_once(&mut self) -> Woken
        ensures faults { self.new.faults ≡ self.old.faults }
    {
        self.hub.tidy(&self.rt);
        let now = clock_of(&self.rt);
        let left = self.left_to_wait(now);
        if left == 0 {
            self.run = Run::Over;
            return Woken::Neither;
        }
        let fd = self.link.stream.as_raw_fd();
        match self.hub.stance(&self.rt, self.token) {
            Stance::Crowded => Woken::Second,
            Stance::Attended => wait_for_one(fd, c::POLLIN, left.min(LOOK_STEP)),
            Stance::Unattended => wait_for_two(fd, self.hub.epoll(), left.min(self.hub.waits.tick)),
        }
    }

    // how long the next head may be waited for
    fn left_to_wait(&mut self, now: u64) -> u64
        ensures faults { self.new.faults ≡ self.old.faults }
    {
        if self.room.bytes().is_empty() {
            if self.since == 0 {
                self.since = now;
            }
            return self
                .hub
                .waits
                .idle
                .saturating_sub(now.saturating_sub(self.since));
        }
        if self.born == 0 {
            self.born = now;
        }
        self.hub
            .waits
            .head
            .saturating_sub(now.saturating_sub(self.born))
    }

    // gives bytes of the message, those that were read ahead first
    fn give(&mut self, buf: &mut [u8]) -> Moved
        requires { 0 < length buf.old }
        ensures moved { IsMoved (length buf.new) result }
        ensures message { IsPiece self.old.body self.new.body result }
        ensures faults { self.new.faults ≡ self.old.faults }
    {
        let most = self.most_of(buf.len());
        if !self.room.bytes().is_empty() {
            let count = self.room.give(&mut buf[..most]);
            self.note(count);
            return Moved::Some(count);
        }
        if !self.rest.is_empty() {
            let count = self.rest.give(&mut buf[..most]);
            self.note(count);
            return Moved::Some(count);
        }
        self.hub.hand_over(&self.rt);
        let got = read_within(
            &self.rt,
            &self.link.stream,
            &mut buf[..most],
            &mut self.pace,
        );
        if let Moved::Some(count) = got {
            self.note(count);
        }
        got
    }

    // how many bytes may be given at once where there is room for so many; one at least
    fn most_of(&self, room: usize) -> usize
        requires { 0 < room }
        ensures within { result ≤ room }
        ensures some { 0 < result }
        ensures message { IfSome self.now.body (λ left. 0 < left → result ≤ left) }
    {
        match self.body {
            Some(left) => if left < room as u64 {
                (left as usize).max(1)
            } else {
                room
            },
            None => room,
        }
    }

    // so many bytes of the message were given
    fn note(&mut self, count: usize)
        ensures body { self.new.body ≡ option_map (λ left. left - count) self.old.body }
        ensures faults { self.new.faults ≡ self.old.faults }
    {
        match self.body {
            Some(left) => self.body = Some(left.saturating_sub(count as u64)),
            None => {}
        }
    }

    // reads, and begins with the next message where the last one was given whole
    fn take(&mut self, buf: &mut [u8]) -> Moved
        requires { 0 < length buf.old }
        ensures moved { IsMoved (length buf.new) result }
        ensures faults { self.new.faults ≡ self.old.faults }
    {
        if self.run != Run::Going {
            return Moved::End;
        }
        if self.body == Some(0) {
            match self.next_message() {
                Moved::Some(_) => {}
                Moved::End => return Moved::End,
                _ => return Moved::Failed,
            }
        }
        self.give(buf)
    }
}

impl<W: Wait + Clock + Drop> Source for SocketSource<W> {
    ghost use Rattle.std.specs.Prelude.{◌<◌, length, None};
    ghost use Rattle.edge_base.specs.Source.{IsCount, Reads, HasReadCause};

    ghost left = { λ _. None };

    ghost faults = { λ s. s.faults };

    fn read(&mut self, buf: &mut [u8]) -> Took {
        match self.take(buf) {
            Moved::Some(count) => Took::Some(count),
            Moved::End => Took::End,
            _ => {
                self.faults = self.faults.saturating_add(1);
                Took::Failed
            }
        }
    }
}
