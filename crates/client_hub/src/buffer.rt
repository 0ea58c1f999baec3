//! How much of an answer the system takes at once for a client that does not read it.

ghost use Rattle.std.specs.Prelude.{◌≡◌};
ghost use Rattle.client_hub.specs.Buffer.{grown_of, is_more};

use crate::behind::trimmed;
use libc::net as c;
use listing::{cut_at, read_digits};
use os::FromRawFd;
use std::fs;
use std::io::Read;
use std::net::TcpListener;
use std::os::fd::{AsRawFd, OwnedFd, RawFd};
use std::rt::Files;

/// How much the system is to take, in bytes: the greatest body of an answer, and a mebibyte for its head and its pieces.
const WANTED: u32 = 17_825_792;

/// What the system lets such a buffer grow to by itself: the last of three numbers.
const GROWTH_FILE: &str = "/proc/sys/net/ipv4/tcp_wmem";

/// How many bytes that file has at most.
const GROWTH_MAX: usize = 256;

/// What stands between two of its numbers.
const TAB: u8 = 9;

// Lets the system take as much as it may of what is written to the connections of this listener, in place of as much as it
// comes to by itself. Where that would be no more, or is not known, all stays as it is.
pub(crate) fn widen<F: Files>(files: &F, listener: &TcpListener) {
    let Some(grown) = grown_by_itself(files) else {
        return;
    };
    if is_more(tried(), grown) {
        want(listener.as_raw_fd());
    }
}

// to how many bytes a buffer grows by itself; none where that is not known
fn grown_by_itself<F: Files>(files: &F) -> Option<u64> {
    let mut file = fs::open(files, GROWTH_FILE).ok()?;
    let mut text = [0u8; GROWTH_MAX];
    let count = file.read(&mut text).ok()?;
    grown_of(&text[..count])
}

// the last of three numbers, between which tabs stand
fn grown_of(text: &[u8]) -> Option<u64>
    ensures { result ≡ grown_of text.now }
{
    let (_, rest) = cut_at(TAB, text)?;
    let (_, last) = cut_at(TAB, rest)?;
    read_digits(trimmed(last))
}

// whether a buffer of so many bytes is more than one that grows by itself
fn is_more(given: u64, grown: u64) -> bool
    ensures { result ≡ is_more given grown }
{
    given > grown
}

// how many bytes a socket that asks for them is given; 0 where there is none
fn tried() -> u64 {
    let fd = unsafe { c::socket(c::AF_INET, c::SOCK_STREAM | c::SOCK_CLOEXEC, 0) };
    if fd < 0 {
        return 0;
    }
    let socket = unsafe { OwnedFd::from_raw_fd(fd) };
    want(socket.as_raw_fd());
    given(socket.as_raw_fd())
}

// asks for a buffer of what is wanted
fn want(fd: RawFd) {
    let mut value = [0u8; 16];
    value[..4].copy_from_slice(&WANTED.to_ne_bytes());
    unsafe { c::setsockopt(fd, c::SOL_SOCKET, c::SO_SNDBUF, &value, 4) };
}

// how many bytes the buffer of this socket has; 0 where it is none
fn given(fd: RawFd) -> u64 {
    let mut value = [0u8; 16];
    let mut len = 16;
    let status = unsafe { c::getsockopt(fd, c::SOL_SOCKET, c::SO_SNDBUF, &mut value, &mut len) };
    if status != 0 {
        return 0;
    }
    u64::from(u32::from_ne_bytes([value[0], value[1], value[2], value[3]]))
}
