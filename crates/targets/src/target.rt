//! What a request asks for.

ghost use Rattle.std.specs.Prelude.{◌≡◌, ◌+◌, ◌^◌, ◌<◌, ◌≤◌, length, IfOk, IfSome, IsTrue, option_map};
ghost use Rattle.std.specs.List.{prefix_len};
ghost use Rattle.targets.specs.Target.{begins_with, scheme_of, scheme_length, is_before_path, begins_with_digits, is_taken, wrong_byte, IsWrongByte, first_wrong, first_wrong_of_path, path_or_root, port_or_default, target_at, target_after, absolute_target, url_text, Reads, ReadsTarget};
ghost use Rattle.targets.specs.Endpoint.{endpoint_of, endpoint_with};
ghost use Rattle.targets.specs.declared.host_name.TheConstants.{HOST_NAME_MAX};
ghost use Rattle.targets.specs.Fronts.{StandsInEndpoint};
ghost use Rattle.targets.specs.Grammar.{AnswersTarget};

use crate::byte::{PERCENT, QUESTION, SLASH};
use crate::byte_class::is_query_byte;
use crate::endpoint::{EndpointParts, WrongPart, endpoint_parts};
use crate::host_name::{HOST_NAME_MAX, HostName};
use crate::url::url_of;
use listing::{Text, shared_parts};
use std::alloc::{AllocError, Global};

/// The delivery protocol of a request, as RFC 8006, section 7.3, names it.
#[derive(Clone, Copy, Debug, PartialEq, Eq)]
pub enum Protocol {
    /// `http/1.1`
    Http,
    /// `https/1.1`
    Https,
}

/// What a URL names: its host, its port (80 where it is absent), its path and its query, where it has one. Path and query
/// share the bytes that were read, and a copy of a target shares them too.
#[derive(Clone, Drop)]
pub struct Target {
    pub host: HostName,
    pub port: u16,
    pub path: Text,
    pub query: Option<Text>,
}

/// Why a text is no target. The first that applies, in this order, where a wrong byte is `BadPercent` or `NotOrigin`.
#[derive(Clone, Copy, Debug, PartialEq, Eq)]
pub enum TargetFault {
    /// The text has `len` bytes, which are more than 4,096.
    TooLong { len: usize },
    /// The text has no scheme, and no host is given.
    NoHost,
    /// The text of the endpoint is none. `at` is the length of its longest prefix with which some endpoint begins.
    BadHost { at: usize },
    /// The first wrong byte stands at this place, or the text ends there.
    NotOrigin { at: usize },
    /// The first wrong byte is the `%` at this place, which two hexadecimal digits do not follow.
    BadPercent { at: usize },
    /// Want of memory.
    Memory,
}

impl From<AllocError> for TargetFault {
    ghost use Rattle.std.specs.Prelude.{◌≡◌};
    ghost use Rattle.targets.specs.declared.target.TargetFault.TheVariants as target_fault;

    ghost from_gives = { λ _ fault. fault ≡ target_fault.Memory };

    fn from(_error: AllocError) -> TargetFault {
        TargetFault::Memory
    }
}

impl From<WrongPart> for TargetFault {
    ghost use Rattle.std.specs.Prelude.{◌≡◌};
    ghost use Rattle.targets.specs.Endpoint.{fault_of_part};
    ghost use Rattle.targets.specs.Target.{bad_host};

    ghost from_gives = { λ part fault. fault ≡ bad_host (fault_of_part part) };

    fn from(part: WrongPart) -> TargetFault {
        match part {
            WrongPart::Host { at } | WrongPart::Port { at } => TargetFault::BadHost { at },
        }
    }
}

/// The most bytes of the text of a target.
pub const TARGET_MAX: usize = 4096;

/// The port that stands for an absent one.
pub const HTTP_PORT: u16 = 80;

/// The port that reads as absent beside `https`.
pub const HTTPS_PORT: u16 = 443;

impl Target {
    /// Reads a path with an optional query, which is asked of `host` (RFC 9112, section 3.2.1), or an absolute URL
    /// of the scheme `http` or `https` (section 3.2.2), whose endpoint stands in place of `host`. The port is 80 where
    /// it is absent, and where it is 443 and the scheme is `https` or, without a scheme, `secure` is true. An empty
    /// path reads as `/`; a path and a query are else kept as they were sent, and the host in lower case.
    ///
    /// # Errors
    /// The first fault in the order of `TargetFault`. Want of memory comes only where the text is a target.
    pub fn read(
        alloc: Global,
        text: &[u8],
        host: Option<&[u8]>,
        secure: bool,
    ) -> Result<Target, TargetFault>
        ensures value { ReadsTarget text.now (option_map (λ h. h.now) host.entry) secure result }
        ensures grammar { AnswersTarget text.now (option_map (λ h. h.now) host.entry) secure result }
        ensures place { StandsInEndpoint text.now (option_map (λ h. h.now) host.entry) result }
    {
        read_target(alloc, text, host, secure)
    }

    /// The URL of the target, with `https` where `secure` is true (RFC 3986, section 5.3).
    ///
    /// # Errors
    /// Want of memory.
    pub fn url_text(&self, alloc: Global, secure: bool) -> Result<Text, AllocError>
        ensures { IfOk result (λ text. text ≡ url_text secure self.now) }
    {
        url_of(
            alloc,
            secure,
            &self.host,
            self.port,
            &self.path,
            &self.query,
        )
    }
}

// the target that the text writes, or its first fault
#[tactic(auto, unfolding(crate::specs::Target::target_of))]
fn read_target(
    alloc: Global,
    text: &[u8],
    host: Option<&[u8]>,
    secure: bool,
) -> Result<Target, TargetFault>
    ensures { ReadsTarget text.now (option_map (λ h. h.now) host.entry) secure result }
{
    if text.len() > TARGET_MAX {
        return Err(TargetFault::TooLong { len: text.len() });
    }
    match scheme_of(text) {
        Some(scheme) => read_absolute(alloc, scheme, text),
        None => match host {
            Some(host) => read_path(alloc, text, host, secure),
            None => Err(TargetFault::NoHost),
        },
    }
}

// the scheme with which the text begins
#[tactic(auto, unfolding(crate::specs::Target::scheme_of))]
fn scheme_of(text: &[u8]) -> Option<Protocol>
    ensures scheme { result ≡ scheme_of text.now }
    ensures within { IfSome result (λ scheme. scheme_length scheme ≤ length text.now) }
{
    if begins_with(text, b"http://") {
        Some(Protocol::Http)
    } else if begins_with(text, b"https://") {
        Some(Protocol::Https)
    } else {
        None
    }
}

// whether the text begins with this word, in any case
fn begins_with(text: &[u8], word: &[u8]) -> bool
    ensures value { result ≡ begins_with word.now text.now }
    ensures within { IsTrue result → length word.now ≤ length text.now }
{
    word.len() <= text.len() && text[..word.len()].eq_ignore_ascii_case(word)
}

fn scheme_length(scheme: Protocol) -> usize
    ensures { result ≡ scheme_length scheme }
{
    match scheme {
        Protocol::Http => 7,
        Protocol::Https => 8,
    }
}

// a text with a scheme: an endpoint up to the first `/` or `?`, a path and a query
#[tactic(auto, unfolding(crate::specs::Target::absolute_target))]
fn read_absolute(alloc: Global, scheme: Protocol, text: &[u8]) -> Result<Target, TargetFault>
    requires { scheme_length scheme ≤ length text.now }
    ensures { Reads (absolute_target scheme text.now) result }
{
    let start = scheme_length(scheme);
    let end = start + length_before_path(&text[start..]);
    let authority = &text[start..end];
    let parts = endpoint_parts(authority)?;
    let rest = &text[end..];
    if let Some(fault) = first_wrong(rest, end) {
        return Err(fault);
    }
    let secure = scheme == Protocol::Https;
    Ok(target_at(alloc, authority, parts, secure, rest)?)
}

// a path and a query of this host
fn read_path(alloc: Global, text: &[u8], host: &[u8], secure: bool) -> Result<Target, TargetFault>
    ensures { Reads (target_after (endpoint_of host.now) secure (first_wrong_of_path text.now) text.now) result }
{
    let parts = endpoint_parts(host)?;
    if let Some(fault) = first_wrong_of_path(text) {
        return Err(fault);
    }
    Ok(target_at(alloc, host, parts, secure, text)?)
}

// how many bytes stand before the first `/` or `?`
fn length_before_path(text: &[u8]) -> usize
    ensures length { result ≡ prefix_len is_before_path text.now }
    ensures within { result ≤ length text.now }
{
    text.iter()
        .take_while(|byte| **byte != SLASH && **byte != QUESTION)
        .count()
}

// the target at the endpoint of these parts with this path and query
fn target_at(
    alloc: Global,
    authority: &[u8],
    parts: EndpointParts,
    secure: bool,
    text: &[u8],
) -> Result<Target, AllocError>
    requires within { parts.host_length ≤ length authority.now }
    requires short { parts.host_length ≤ HOST_NAME_MAX }
    ensures { IfOk result (λ target. target ≡ target_at (endpoint_with authority.now parts) secure text.now) }
{
    let host = HostName::lowered(alloc, &authority[..parts.host_length])?;
    let (path, query) = shared_parts(alloc, QUESTION, text)?;
    Ok(Target {
        host,
        port: port_or_default(secure, parts.port),
        path: path_or_root(alloc, path)?,
        query,
    })
}

// `/` where the path is empty
fn path_or_root(alloc: Global, path: Text) -> Result<Text, AllocError>
    ensures { IfOk result (λ text. text ≡ path_or_root path) }
{
    if path.bytes().is_empty() {
        Text::of(alloc, b"/")
    } else {
        Ok(path)
    }
}

fn port_or_default(secure: bool, port: Option<u16>) -> u16
    ensures { result ≡ port_or_default secure port }
{
    match port {
        Some(HTTPS_PORT) if secure => HTTP_PORT,
        Some(port) => port,
        None => HTTP_PORT,
    }
}

// the first wrong byte of a path and a query whose first byte stands at this place
#[tactic(auto, unfolding(crate::specs::Target::first_wrong))]
fn first_wrong(text: &[u8], from: usize) -> Option<TargetFault>
    requires { from + length text.now < 2 ^ 64 }
    ensures first { result ≡ first_wrong from text.now }
    ensures wrong { IfSome result IsWrongByte }
{
    'bytes: for (at, byte) in text.iter().enumerate() {
        if !is_taken(*byte, &text[at + 1..]) {
            return Some(wrong_byte(*byte, from + at));
        }
    }
    None
}

// the first wrong byte of a path and a query, of which the path begins with `/`
fn first_wrong_of_path(text: &[u8]) -> Option<TargetFault>
    ensures first { result ≡ first_wrong_of_path text.now }
    ensures wrong { IfSome result IsWrongByte }
{
    if text.is_empty() {
        return Some(TargetFault::NotOrigin { at: 0 });
    }
    if text[0] == SLASH {
        return first_wrong(text, 0);
    }
    if is_taken(text[0], &text[1..]) {
        return Some(TargetFault::NotOrigin { at: 0 });
    }
    Some(wrong_byte(text[0], 0))
}

fn wrong_byte(byte: u8, at: usize) -> TargetFault
    ensures value { result ≡ wrong_byte byte at }
    ensures wrong { IsWrongByte result }
{
    if byte == PERCENT {
        TargetFault::BadPercent { at }
    } else {
        TargetFault::NotOrigin { at }
    }
}

// whether a path or a query has this byte before these
#[inline]
fn is_taken(byte: u8, bytes: &[u8]) -> bool
    ensures { result ≡ is_taken byte bytes.now }
{
    is_query_byte(byte) || (byte == PERCENT && begins_with_digits(bytes))
}

// whether two hexadecimal digits stand at the front
fn begins_with_digits(bytes: &[u8]) -> bool
    ensures { result ≡ begins_with_digits bytes.now }
{
    bytes.len() >= 2 && bytes[0].is_ascii_hexdigit() && bytes[1].is_ascii_hexdigit()
}
