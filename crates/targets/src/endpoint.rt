//! Hosts and endpoints (RFC 3986, section 3.2, in the form of this project).

ghost use Rattle.std.specs.Prelude.{◌≡◌, ◌==◌, ◌<◌, ◌≤◌, length, slice_index, IfOk, IfErr, IsTrue};
ghost use Rattle.std.specs.List.{prefix_len};
ghost use Rattle.targets.specs.Endpoint.{is_name_byte, is_address_byte, host_length, host_front, port_of, port_number, port_front, HasParts, ReadsEndpoint};
ghost use Rattle.targets.specs.declared.byte.TheConstants.{OPENING};
ghost use Rattle.targets.specs.declared.host_name.TheConstants.{HOST_NAME_MAX};
ghost use Rattle.targets.specs.Fronts.{StandsAtFront};
ghost use Rattle.targets.specs.Grammar.{AnswersEndpoint};

use crate::byte::{CLOSING, COLON, DOT, OPENING};
use crate::byte_class::is_name_byte;
use crate::host_name::{HOST_NAME_MAX, HostName};
use listing::{Listing, read_digits};
use std::alloc::{AllocError, Global};

/// The most digits of a port.
pub const PORT_DIGITS: usize = 5;

/// The greatest port.
pub const PORT_MAX: u32 = 65535;

/// A host and a port, where one is given.
#[derive(Clone, Drop)]
pub struct Endpoint {
    pub host: HostName,
    pub port: Option<u16>,
}

/// A list of endpoints.
pub type EndpointList = Listing<Endpoint>;

/// Why a text is no endpoint. `at` is the length of the longest prefix with which some endpoint begins.
#[derive(Clone, Copy, Debug, PartialEq, Eq)]
pub enum EndpointFault {
    /// No prefix is a host.
    BadHost { at: usize },
    /// What follows the longest host is no port.
    BadPort { at: usize },
    /// Want of memory.
    Memory,
}

impl From<AllocError> for EndpointFault {
    ghost use Rattle.std.specs.Prelude.{◌≡◌};
    ghost use Rattle.targets.specs.declared.endpoint.EndpointFault.TheVariants as endpoint_fault;

    ghost from_gives = { λ _ fault. fault ≡ endpoint_fault.Memory };

    fn from(_error: AllocError) -> EndpointFault {
        EndpointFault::Memory
    }
}

impl Endpoint {
    /// Reads a host and a port, of at most five digits, from 1 to 65535. The host is kept in lower case.
    ///
    /// # Errors
    /// `BadHost` where no prefix of the text is a host, `BadPort` where the rest after the longest host
    /// is no port, or want of memory.
    pub fn read(alloc: Global, text: &[u8]) -> Result<Endpoint, EndpointFault>
        ensures value { ReadsEndpoint text.now result }
        ensures grammar { AnswersEndpoint text.now result }
        ensures place { StandsAtFront text.now result }
    {
        read_endpoint(alloc, text)
    }
}

// the endpoint that the text writes, or why it writes none; of its faults want of memory comes last
fn read_endpoint(alloc: Global, text: &[u8]) -> Result<Endpoint, EndpointFault>
    ensures { ReadsEndpoint text.now result }
{
    let parts = endpoint_parts(text)?;
    Ok(Endpoint {
        host: HostName::lowered(alloc, &text[..parts.host_length])?,
        port: parts.port,
    })
}

/// The parts of a text that is an endpoint: how many bytes its host has, and the port behind it.
#[derive(Clone, Copy)]
pub(crate) struct EndpointParts {
    pub host_length: usize,
    pub port: Option<u16>,
}

/// Which part of a text keeps it from being an endpoint, and the length of the longest prefix with which some endpoint
/// begins.
#[derive(Clone, Copy)]
pub(crate) enum WrongPart {
    Host { at: usize },
    Port { at: usize },
}

impl From<WrongPart> for EndpointFault {
    ghost use Rattle.std.specs.Prelude.{◌≡◌};
    ghost use Rattle.targets.specs.Endpoint.{fault_of_part};

    ghost from_gives = { λ part fault. fault ≡ fault_of_part part };

    fn from(part: WrongPart) -> EndpointFault {
        match part {
            WrongPart::Host { at } => EndpointFault::BadHost { at },
            WrongPart::Port { at } => EndpointFault::BadPort { at },
        }
    }
}

// the parts of the endpoint that the text writes, or which part is wrong; it takes no memory
#[tactic(auto, unfolding(crate::specs::Endpoint::endpoint_of))]
pub(crate) fn endpoint_parts(text: &[u8]) -> Result<EndpointParts, WrongPart>
    ensures whole { HasParts text.now result }
    ensures within { IfOk result (λ parts. parts.host_length ≤ length text.now) }
    ensures short { IfOk result (λ parts. parts.host_length ≤ HOST_NAME_MAX) }
{
    let host_length = host_length(text);
    if host_length == 0 {
        return Err(WrongPart::Host {
            at: host_front(text),
        });
    }
    match read_port(&text[host_length..]) {
        Ok(port) => Ok(EndpointParts { host_length, port }),
        Err(at) => Err(WrongPart::Port {
            at: host_length + at,
        }),
    }
}

// the length of the longest host with which the text begins, 0 where there is none
#[tactic(auto, unfolding(crate::specs::Endpoint::host_length))]
fn host_length(text: &[u8]) -> usize
    ensures length { result ≡ host_length text.now }
    ensures within { result ≤ length text.now }
    ensures short { result ≤ HOST_NAME_MAX }
{
    if !begins_with_bracket(text) {
        return name_length(text).min(HOST_NAME_MAX);
    }
    let address = address_length(&text[1..]);
    if address > 0
        && address <= HOST_NAME_MAX - 2
        && address + 1 < text.len()
        && text[address + 1] == CLOSING
    {
        return address + 2;
    }
    0
}

// the length of the longest prefix with which some host begins, where the text begins with none
#[tactic(auto, unfolding(crate::specs::Endpoint::host_front))]
fn host_front(text: &[u8]) -> usize
    ensures { result ≡ host_front text.now }
{
    if begins_with_bracket(text) {
        (address_length(&text[1..]) + 1).min(HOST_NAME_MAX - 1)
    } else {
        0
    }
}

fn begins_with_bracket(text: &[u8]) -> bool
    ensures bracket { result ≡ (slice_index text.now 0 == OPENING) }
    ensures there { IsTrue result → 0 < length text.now }
{
    !text.is_empty() && text[0] == OPENING
}

/// How many bytes of a name (letters, digits, `.`, `-` and `_`) stand at the front.
pub fn name_length(text: &[u8]) -> usize
    ensures length { result ≡ prefix_len is_name_byte text.now }
    ensures within { result ≤ length text.now }
{
    text.iter().take_while(|byte| is_name_byte(**byte)).count()
}

// how many bytes of an address stand at the front
fn address_length(text: &[u8]) -> usize
    ensures length { result ≡ prefix_len is_address_byte text.now }
    ensures within { result ≤ length text.now }
{
    text.iter()
        .take_while(|byte| is_address_byte(**byte))
        .count()
}

fn is_address_byte(byte: u8) -> bool
    ensures { result ≡ is_address_byte byte }
{
    byte.is_ascii_hexdigit() || byte == COLON || byte == DOT
}

// the port that follows a host, or the length of the longest front of a port
#[tactic(auto, unfolding(crate::specs::Endpoint::port_of))]
fn read_port(text: &[u8]) -> Result<Option<u16>, usize>
    ensures port { result ≡ port_of text.now }
    ensures within { IfErr result (λ at. at ≤ length text.now) }
{
    if text.is_empty() {
        return Ok(None);
    }
    if text[0] != COLON {
        return Err(0);
    }
    let digits = &text[1..];
    if digits.is_empty() {
        return Ok(None);
    }
    match read_port_number(digits) {
        Some(port) => Ok(Some(port)),
        None => Err(port_front(digits) + 1),
    }
}

#[tactic(auto, unfolding(crate::specs::Endpoint::port_number))]
fn read_port_number(digits: &[u8]) -> Option<u16>
    ensures { result ≡ port_number digits.now }
{
    if digits.len() > PORT_DIGITS {
        return None;
    }
    match read_digits(digits) {
        Some(number) if number > 0 && number <= PORT_MAX as u64 => Some(number as u16),
        _ => None,
    }
}

// how many of the digits some port begins with
fn port_front(digits: &[u8]) -> usize
    ensures front { result ≡ port_front 0 0 digits.now }
    ensures within { result ≤ length digits.now }
{
    let mut value: u32 = 0;
    'digits: for (count, byte) in digits.iter().enumerate() {
        if !byte.is_ascii_digit() || count >= PORT_DIGITS {
            return count;
        }
        value = value * 10 + (*byte - 48) as u32;
        if value > PORT_MAX || (value == 0 && count >= PORT_DIGITS - 1) {
            return count;
        }
    }
    digits.len()
}
