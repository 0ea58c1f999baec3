//! How workers wait for connections, and wake each other.

ghost use Rattle.std.specs.Prelude.{◌≡◌, false};
ghost use Rattle.std.specs.Sync.Mutex.{mutex_guard_value};

use crate::hub::Hub;
use client_desk::{Call, Desk, LISTENER, Lot, Stance, Step, Task};
use libc::net as c;
use os::EpollEvent;
use sockets::clock_of;
use std::sync::{CondvarTimeouts, MutexGuard, Wait};
use std::time::{Clock, Duration};

/// How many events are taken from the epoll at once.
const BATCH: usize = 16;

/// After so many milliseconds without a worker that waits in the epoll, the deputy does it.
const DEPUTY_STEP: u64 = 25;

/// Microseconds of a millisecond.
const MICROS: u64 = 1_000;

// microseconds since a beginning of the machine's own; 0 where its clock cannot be read
fn micros_of<C: Clock>(rt: &C) -> u64 {
    match rt.monotonic() {
        Ok(time) => u64::try_from(time.as_micros()).unwrap_or(u64::MAX),
        Err(_) => 0,
    }
}

impl Hub {
    /// What a worker with no connection is to do. It waits in the epoll where nothing is ready, and sleeps where another one
    /// waits there.
    pub fn next_task<W: Wait + Clock>(&self, rt: &W) -> Task {
        let mut desk = self.desk.lock(rt);
        for _ in rt.forever() {
            match desk.next_step() {
                Step::Do(task) => {
                    self.share(rt, &mut *desk);
                    return task;
                }
                Step::Again => {}
                Step::Watch => desk = self.watch(rt, desk),
                Step::Sleep => desk = self.sleep(rt, desk),
            }
        }
        unreachable!()
    }

    // wakes one more worker where something more is ready, and has waited for long
    fn share<W: Clock>(&self, rt: &W, desk: &mut Desk) {
        if desk.is_short() && desk.post.is_overdue(micros_of(rt)) {
            self.wake(desk.post.attend());
        }
    }

    // wakes whom this call is for
    fn wake(&self, call: Call) {
        match call {
            Call::Sleeper => self.sleepers.notify_one(),
            Call::Deputy => self.deputy.notify_one(),
            Call::Enough | Call::Nobody => {}
        }
    }

    // sleeps until one is called; one of the sleepers is the deputy
    fn sleep<'b, W: Wait + Clock>(
        &self,
        rt: &W,
        desk: MutexGuard<'b, Desk>,
    ) -> MutexGuard<'b, Desk> {
        let mut desk = desk;
        if desk.post.fall_asleep() {
            return self.stand_by(rt, desk);
        }
        desk = self.sleepers.wait(rt, desk);
        self.wake(desk.post.wake_up());
        desk
    }

    // Sleeps as the deputy, until it is called, or for a while nobody waited in the epoll: a worker that was to do so may
    // have ended.
    fn stand_by<'b, W: Wait + Clock>(
        &self,
        rt: &W,
        desk: MutexGuard<'b, Desk>,
    ) -> MutexGuard<'b, Desk> {
        let mut desk = desk;
        for _ in rt.forever() {
            let seen = desk.post.watches();
            desk = self
                .deputy
                .wait_timeout(rt, desk, Duration::from_millis(DEPUTY_STEP))
                .0;
            if desk.post.wants_deputy(seen) {
                break;
            }
        }
        self.wake(desk.post.step_down());
        desk
    }

    // waits for a while in the epoll, and notes what came
    fn watch<'b, W: Wait + Clock>(
        &'b self,
        rt: &W,
        desk: MutexGuard<'b, Desk>,
    ) -> MutexGuard<'b, Desk>
        requires { (mutex_guard_value desk).post.watched ≡ false }
    {
        let mut desk = desk;
        desk.post.begin_watch();
        drop(desk);
        let mut events = [EpollEvent { events: 0, data: 0 }; BATCH];
        let time = i32::try_from(self.waits.tick).unwrap_or(i32::MAX);
        let began = micros_of(rt);
        let count = os::epoll_wait(self.epoll(), &mut events, time);
        let now = micros_of(rt);
        let mut desk = self.desk.lock(rt);
        desk.post.end_watch(began, now, count == BATCH);
        if self.is_due(now / MICROS) {
            desk.lot.expire(now / MICROS, &self.waits);
        }
        self.note_all(&mut desk.lot, &events[..count]);
        desk
    }

    // notes what came
    fn note_all(&self, lot: &mut Lot, events: &[EpollEvent]) {
        for event in events {
            if event.data == LISTENER {
                lot.note_listener();
            } else if let Some(fd) = lot.note(event.data) {
                os::epoll_ctl(self.epoll(), c::EPOLL_CTL_DEL, fd, 0, 0);
            }
        }
    }

    // notes what came for the workers, where none of them is free, and nothing is ready so far
    fn sweep(&self, desk: &mut Desk) {
        if desk.post.is_free() || desk.lot.is_ready() {
            return;
        }
        let mut events = [EpollEvent { events: 0, data: 0 }; BATCH];
        let count = os::epoll_wait(self.epoll(), &mut events, 0);
        self.note_all(&mut desk.lot, &events[..count]);
    }

    /// A worker waits since this millisecond for an origin or a client: under which number, if
    /// there is memory for one.
    pub fn begin_wait<W: Wait>(&self, rt: &W, since: u64) -> Option<u64> {
        self.desk.lock(rt).absent.begin(since)
    }

    /// The worker with this number waits no more.
    pub fn end_wait<W: Wait>(&self, rt: &W, number: Option<u64>) {
        if let Some(number) = number {
            self.desk.lock(rt).absent.end(number);
        }
    }

    /// Whether a worker that waits for a client since this millisecond is to give it up: no worker is left but those that
    /// wait, somebody asks, and no other one waits longer.
    pub fn gives_up<W: Wait + Clock>(&self, rt: &W, since: u64) -> bool {
        let now = clock_of(rt);
        let mut desk = self.desk.lock(rt);
        self.sweep(&mut *desk);
        desk.gives_up(since, now)
    }

    /// Whether a worker that waits for this origin since this millisecond is to give it up.
    pub fn gives_origin_up<W: Wait + Clock>(&self, rt: &W, origin: u64, since: u64) -> bool {
        let now = clock_of(rt);
        let mut desk = self.desk.lock(rt);
        self.sweep(&mut *desk);
        desk.gives_origin_up(origin, since, now)
    }

    /// Whether this origin may be asked: where it was given up and has not answered since, one worker asks it at a time, and
    /// none where no worker is free and somebody asks. Who asks it says then how that went, by [`Hub::note_answer`].
    pub fn admits<W: Wait>(&self, rt: &W, origin: u64) -> bool {
        let mut desk = self.desk.lock(rt);
        if desk.doubted.has(origin) {
            self.sweep(&mut *desk);
        }
        desk.admits(origin)
    }

    /// A worker has asked this origin: whether it answered.
    pub fn note_answer<W: Wait>(&self, rt: &W, origin: u64, answered: bool) {
        self.desk.lock(rt).note_answer(origin, answered);
    }

    /// Lets another worker wait in the epoll, if one is free, since this one may wait elsewhere.
    pub fn hand_over<W: Wait>(&self, rt: &W) {
        let call = self.desk.lock(rt).post.attend();
        self.wake(call);
    }

    /// How it stands for a worker that would keep the connection with this token; another one is called to wait for the
    /// others.
    pub fn stance<W: Wait>(&self, rt: &W, token: u64) -> Stance {
        let (stance, call) = self.desk.lock(rt).stance(token);
        self.wake(call);
        stance
    }

    /// Closes the parked connections that waited too long, where nobody did so just now.
    pub fn tidy<W: Wait + Clock>(&self, rt: &W) {
        let now = clock_of(rt);
        if self.is_due(now) {
            self.desk.lock(rt).lot.expire(now, &self.waits);
        }
    }
}
