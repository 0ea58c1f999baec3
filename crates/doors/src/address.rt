//! Addresses to listen at.

ghost use Rattle.std.specs.Prelude.{◌≡◌};
ghost use Rattle.doors.specs.Address.{address_of, both, bracketed, ip_in, plain, port_behind, port_of};

use listing::{cut_at, read_decimal};
use location_acl::Ip;

const OPENING: u8 = b'[';

const CLOSING: u8 = b']';

const COLON: u8 = b':';

/// Reads an address to listen at: an IPv4 address, or an IPv6 address in brackets (RFC 3986, section 3.2.2), then `:` and a
/// port, which is a decimal number from 0 to 65535 without leading zeros. None where the text is not that.
pub fn read_address(text: &[u8]) -> Option<(Ip, u16)>
    ensures { result ≡ address_of text.now }
{
    match text {
        [] => None,
        [first, rest @ ..] => {
            if *first == OPENING {
                bracketed(rest)
            } else {
                plain(text)
            }
        }
    }
}

// an IPv6 address and a port, behind the `[`
fn bracketed(text: &[u8]) -> Option<(Ip, u16)>
    ensures { result ≡ bracketed text.now }
{
    let (host, behind) = cut_at(CLOSING, text)?;
    both(ip_in(true, host), port_behind(behind))
}

// an IPv4 address and a port
fn plain(text: &[u8]) -> Option<(Ip, u16)>
    ensures { result ≡ plain text.now }
{
    let (host, port) = cut_at(COLON, text)?;
    both(ip_in(false, host), port_of(port))
}

// both, where both are there
fn both(ip: Option<Ip>, port: Option<u16>) -> Option<(Ip, u16)>
    ensures { result ≡ both ip port }
{
    Some((ip?, port?))
}

// the address of this kind that the text is
fn ip_in(six: bool, text: &[u8]) -> Option<Ip>
    ensures { result ≡ ip_in six text.now }
{
    match Ip::read(text) {
        Ok(ip) if matches!(ip, Ip::V6(_)) == six => Some(ip),
        _ => None,
    }
}

// the port that the text is
fn port_of(text: &[u8]) -> Option<u16>
    ensures { result ≡ port_of text.now }
{
    let number = read_decimal(text)?;
    if number < 65_536 {
        Some(number as u16)
    } else {
        None
    }
}

// the port behind `:`
fn port_behind(text: &[u8]) -> Option<u16>
    ensures { result ≡ port_behind text.now }
{
    match text {
        [COLON, port @ ..] => port_of(port),
        _ => None,
    }
}
