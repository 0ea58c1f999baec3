//! How many bytes a message has that is not there yet.

ghost use Rattle.std.specs.Prelude.{◌≡◌, ◌+◌, ◌≤◌, ◌<◌, length, IfSome};
ghost use Rattle.sockets.specs.Ready.{Fills};
ghost use Rattle.client_hub.specs.Message.{awaited, Follows};

use crate::ahead::{Front, front_of};
use crate::behind::{Behind, what_follows};
use sockets::{Moved, read_now, write_now};
use std::net::TcpStream;

/// The longest body that is gathered before a worker has its message. A longer one is refused by its head.
pub const BODY_MAX: u64 = 1_048_576;

/// How many bytes are read at once.
const PIECE: usize = 16_384;

/// How often a message is read of before others have their turn.
pub(crate) const READS: usize = 64;

/// The word that a client may send its body (RFC 9110, section 15.2.1).
const CONTINUE: &[u8] = b"HTTP/1.1 100 Continue\r\n\r\n";

/// How many bytes a message has with its head, where not all of it came: `behind` is what follows its head, which ends at
/// byte `end`, and `came` says how many bytes came. None where it is whole, and where it has no length or a greater one than
/// is gathered.
pub fn awaited(behind: &Behind, end: usize, came: usize) -> Option<usize>
    ensures { result ≡ awaited behind.now end came }
{
    match behind.body {
        Some(body) => if body <= BODY_MAX && came < end.saturating_add(body as usize) {
            Some(end.saturating_add(body as usize))
        } else {
            None
        },
        None => None,
    }
}

// what is waited for where these bytes of a message came: how many it has, where its head is whole and the rest is not, and
// whether the client waits for word before it sends its body
pub(crate) fn waited_for(bytes: &[u8]) -> Option<(usize, bool)>
    ensures { IfSome result (λ waited. length bytes.now < waited.0) }
{
    match front_of(bytes) {
        Front::Whole(end) => {
            let behind = what_follows(&bytes[..end]);
            let whole = awaited(&behind, end, bytes.len())?;
            Some((whole, behind.expects && bytes.len() == end))
        }
        _ => None,
    }
}

// Sends the word that the client may send its body, where there is room for it. False where a part of it was sent.
pub(crate) fn go_on(stream: &TcpStream) -> bool {
    match write_now(stream, CONTINUE) {
        Moved::Some(count) => count == CONTINUE.len(),
        Moved::Later => true,
        _ => false,
    }
}

// Reads behind the bytes of a message that came, up to so many in all. `Later` where more may come, and `End` where no more
// is waited for.
#[tactic(auto, using(crate::proofs::MessageLemmas::follows_on, crate::proofs::MessageLemmas::follows_same))]
pub(crate) fn read_message(stream: &TcpStream, got: &mut Vec<u8>, whole: usize) -> Moved
    ensures read { Follows got.old.items got.new.items }
    ensures within { length got.old.items ≤ whole → length got.new.items ≤ whole }
    ensures short { result ≡ Moved.Later → length got.new.items < whole }
{
    'reads: for _ in 0..READS {
        if got.len() >= whole {
            return Moved::End;
        }
        match read_piece(stream, got, whole - got.len()) {
            Moved::Some(_) => {}
            other => return other,
        }
    }
    if got.len() >= whole {
        Moved::End
    } else {
        Moved::Later
    }
}

// reads once behind the bytes that came, up to so many more
fn read_piece(stream: &TcpStream, got: &mut Vec<u8>, most: usize) -> Moved
    requires { 0 < most }
    ensures read { Fills got.old.items got.new.items result }
    ensures within { length got.new.items ≤ length got.old.items + most }
{
    let mut piece = [0u8; PIECE];
    match read_now(stream, &mut piece[..most.min(PIECE)]) {
        Moved::Some(count) => match got.extend_from_slice(&piece[..count]) {
            Ok(()) => Moved::Some(count),
            Err(_) => Moved::Failed,
        },
        other => other,
    }
}
