//! Reads and writes of sockets that do not wait, and waiting until there is something to read or room to write.

ghost use Rattle.std.specs.Prelude.{◌≤◌, ◌<◌, length};
ghost use Rattle.sockets.specs.Ready.{IsMoved};

use crate::pace::Pace;
use crate::patience::Patience;
use libc::net as c;
use libc::types::pollfd;
use std::net::TcpStream;
use std::os::fd::{AsRawFd, RawFd};
use std::time::Clock;

/// How often a wait is begun again at most.
const MOST_WAITS: u64 = u64::MAX;

/// What a wait in vain counts at least, in milliseconds, where it may be so long.
const LEAST_WAIT: u64 = 1_000;

/// After how many milliseconds of a wait is looked whether it is to be given up.
pub const WAIT_STEP: u64 = 25;

/// What a call on a socket that does not wait gave.
#[derive(Clone, Copy, Debug, PartialEq, Eq)]
pub enum Moved {
    /// So many bytes, one or more.
    Some(usize),
    /// The peer sends no more.
    End,
    /// Nothing yet.
    Later,
    /// The connection failed, or the peer was too slow.
    Failed,
}

/// What waiting gave.
#[derive(Clone, Copy, Debug, PartialEq, Eq)]
pub enum Woken {
    /// The first descriptor is ready.
    First,
    /// The second one is, and the first is not.
    Second,
    /// Neither, within the time.
    Neither,
}

/// Milliseconds since a beginning of the machine's own; 0 where its clock cannot be read.
pub fn clock_of<C: Clock>(rt: &C) -> u64 {
    match rt.monotonic() {
        Ok(time) => u64::try_from(time.as_millis()).unwrap_or(u64::MAX),
        Err(_) => 0,
    }
}

// what a call made of `room` bytes that answered so
fn moved_by(answer: isize, room: usize) -> Moved
    requires { 0 < room }
    ensures { IsMoved room result }
{
    if answer > 0 {
        return Moved::Some((answer as usize).min(room));
    }
    if answer == 0 {
        return Moved::End;
    }
    let error = os::errno();
    if error == libc::EAGAIN || error == libc::EINTR {
        Moved::Later
    } else {
        Moved::Failed
    }
}

/// Reads what has come, without waiting.
pub fn read_now(stream: &TcpStream, buf: &mut [u8]) -> Moved
    requires { 0 < length buf.old }
    ensures { IsMoved (length buf.new) result }
{
    let fd: RawFd = stream.as_raw_fd();
    let got = unsafe { c::recv(fd, buf, c::MSG_DONTWAIT) };
    moved_by(got, buf.len())
}

// reads what has come, and waits as long as the socket's own limit says
pub(crate) fn read_soon(stream: &TcpStream, buf: &mut [u8]) -> Moved
    requires { 0 < length buf.old }
    ensures { IsMoved (length buf.new) result }
{
    let fd: RawFd = stream.as_raw_fd();
    let got = unsafe { c::recv(fd, buf, 0) };
    moved_by(got, buf.len())
}

/// Writes what there is room for, without waiting.
pub fn write_now(stream: &TcpStream, piece: &[u8]) -> Moved
    requires { 0 < length piece.now }
    ensures { IsMoved (length piece.now) result }
{
    let fd: RawFd = stream.as_raw_fd();
    let put = unsafe { c::send(fd, piece, c::MSG_NOSIGNAL | c::MSG_DONTWAIT) };
    moved_by(put, piece.len())
}

// the time as `poll` takes it
fn timeout_of(time: u64) -> i32 {
    i32::try_from(time).unwrap_or(i32::MAX)
}

/// Waits for so many milliseconds at most until this descriptor is ready.
pub fn wait_for_one(fd: RawFd, events: i16, time: u64) -> Woken {
    let mut asked = [pollfd {
        fd,
        events,
        revents: 0,
    }];
    if c::poll(&mut asked, timeout_of(time)) > 0 {
        Woken::First
    } else {
        Woken::Neither
    }
}

/// Waits for so many milliseconds at most until one of the two has something to read.
pub fn wait_for_two(first: RawFd, second: RawFd, time: u64) -> Woken {
    let mut asked = [
        pollfd {
            fd: first,
            events: c::POLLIN,
            revents: 0,
        },
        pollfd {
            fd: second,
            events: c::POLLIN,
            revents: 0,
        },
    ];
    if c::poll(&mut asked, timeout_of(time)) <= 0 {
        return Woken::Neither;
    }
    if asked[0].revents != 0 {
        Woken::First
    } else {
        Woken::Second
    }
}

// waits within the pace, and for so many milliseconds at most; false where the peer was too slow
fn keeps_pace<C: Clock>(rt: &C, fd: RawFd, events: i16, most: u64, pace: &mut Pace) -> bool {
    let left = pace.left().min(most);
    if left == 0 {
        return false;
    }
    let start = clock_of(rt);
    let woken = wait_for_one(fd, events, left);
    let took = clock_of(rt).saturating_sub(start);
    // where the clock cannot be read, a wait in vain counts for a second at most
    let least = if woken == Woken::Neither {
        left.min(LEAST_WAIT)
    } else {
        0
    };
    pace.note_wait(took.max(least));
    true
}

/// Reads within the pace, and for as long as `patience` says: never `Later`.
pub fn read_patiently<C: Clock, P: Patience>(
    rt: &C,
    stream: &TcpStream,
    buf: &mut [u8],
    pace: &mut Pace,
    patience: &P,
) -> Moved
    requires { 0 < length buf.old }
    ensures { IsMoved (length buf.new) result }
{
    match read_now(stream, buf) {
        Moved::Some(count) => {
            pace.note_move(count);
            Moved::Some(count)
        }
        Moved::Later => {
            let since = clock_of(rt);
            let number = patience.begin(since);
            let moved = read_in_steps(rt, stream, buf, pace, patience, since);
            patience.end(number);
            moved
        }
        other => other,
    }
}

// waits in steps until there is something to read, as long as that is not given up
fn read_in_steps<C: Clock, P: Patience>(
    rt: &C,
    stream: &TcpStream,
    buf: &mut [u8],
    pace: &mut Pace,
    patience: &P,
    since: u64,
) -> Moved
    requires { 0 < length buf.old }
    ensures { IsMoved (length buf.new) result }
{
    for _ in 0..MOST_WAITS {
        if !keeps_pace(rt, stream.as_raw_fd(), c::POLLIN, WAIT_STEP, pace) {
            return Moved::Failed;
        }
        match read_now(stream, buf) {
            Moved::Some(count) => {
                pace.note_move(count);
                return Moved::Some(count);
            }
            Moved::Later => {
                if patience.is_over(since) {
                    return Moved::Failed;
                }
            }
            other => return other,
        }
    }
    Moved::Failed
}

/// Reads within the pace: never `Later`.
pub fn read_within<C: Clock>(rt: &C, stream: &TcpStream, buf: &mut [u8], pace: &mut Pace) -> Moved
    requires { 0 < length buf.old }
    ensures { IsMoved (length buf.new) result }
{
    for _ in 0..MOST_WAITS {
        match read_now(stream, buf) {
            Moved::Some(count) => {
                pace.note_move(count);
                return Moved::Some(count);
            }
            Moved::End => return Moved::End,
            Moved::Failed => return Moved::Failed,
            Moved::Later => {
                if !keeps_pace(rt, stream.as_raw_fd(), c::POLLIN, u64::MAX, pace) {
                    return Moved::Failed;
                }
            }
        }
    }
    Moved::Failed
}

/// Waits within the pace until there is room to write, and for so many milliseconds at most; false where the peer was too
/// slow.
pub fn wait_for_room<C: Clock>(rt: &C, stream: &TcpStream, most: u64, pace: &mut Pace) -> bool {
    keeps_pace(rt, stream.as_raw_fd(), c::POLLOUT, most, pace)
}

/// Writes within the pace: never `Later`.
pub fn write_within<C: Clock>(rt: &C, stream: &TcpStream, piece: &[u8], pace: &mut Pace) -> Moved
    requires { 0 < length piece.now }
    ensures { IsMoved (length piece.now) result }
{
    for _ in 0..MOST_WAITS {
        match write_now(stream, piece) {
            Moved::Some(count) => {
                pace.note_move(count);
                return Moved::Some(count);
            }
            Moved::End => return Moved::Failed,
            Moved::Failed => return Moved::Failed,
            Moved::Later => {
                if !keeps_pace(rt, stream.as_raw_fd(), c::POLLOUT, u64::MAX, pace) {
                    return Moved::Failed;
                }
            }
        }
    }
    Moved::Failed
}
