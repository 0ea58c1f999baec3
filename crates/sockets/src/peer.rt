//! Whom the host and the port of a URL name.

ghost use Rattle.std.specs.Prelude.{◌≡◌, ◌≢◌, ◌⊎◌, ℕ, List, IfNone, IfSome, MatchOption};
ghost use Rattle.std.specs.Str.{IsUtf8};
ghost use Rattle.sockets.specs.Peer.{bracketed, IsPeer, Names, NamesNobody};

use std::net::Ipv6Addr;

/// The port of an endpoint that names none (RFC 9110, section 4.2.1).
const HTTP_PORT: u16 = 80;

/// Whom a host names.
#[derive(Clone, Copy)]
pub enum PeerName<'a> {
    /// This address, which stood in brackets (RFC 3986, section 3.2.2).
    Ip(Ipv6Addr),
    /// An IPv4 address as text, or a name that is to be looked up.
    Host(&'a str),
}

/// A server that is to be called: whom, and at which port.
#[derive(Clone, Copy)]
pub struct Peer<'a> {
    /// Whom its host names.
    pub name: PeerName<'a>,
    /// Its port.
    pub port: u16,
}

/// Whom the host and the port of a URL name (RFC 3986, section 3.2), at port 80 where none is named (RFC 9110, section
/// 4.2.1). None where the host is no text in UTF-8, or has in brackets what is no IPv6 address.
pub fn peer_of(host: &[u8], port: Option<u16>) -> Option<Peer<'_>>
    ensures peer { IfSome result (λ peer. IsPeer host.now port peer) }
    ensures nobody { IfNone result ((IsUtf8 host.now → ⊥) ⊎ NamesNobody host.now) }
{
    let Ok(text) = str::from_utf8(host) else {
        return None;
    };
    match name_of(text) {
        Some(name) => Some(Peer {
            name,
            port: port.unwrap_or(HTTP_PORT),
        }),
        None => None,
    }
}

// whom this host names
fn name_of(host: &str) -> Option<PeerName<'_>>
    ensures { MatchOption result (NamesNobody host.now) (λ name. Names host.now name) }
{
    match bracketed(host) {
        Some(inner) => match inner.parse::<Ipv6Addr>() {
            Ok(ip) => Some(PeerName::Ip(ip)),
            Err(_) => None,
        },
        None => Some(PeerName::Host(host)),
    }
}

// what stands between brackets
fn bracketed(host: &str) -> Option<&str>
    ensures { MatchOption result ((inner : List ℕ) → host.now ≢ bracketed inner)
        (λ inner. host.now ≡ bracketed inner.now) }
{
    match host.strip_prefix('[') {
        Some(rest) => rest.strip_suffix(']'),
        None => None,
    }
}
