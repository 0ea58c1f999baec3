//! The ids of CDN providers.

ghost use Rattle.std.specs.Prelude.{◌≡◌, ◌+◌, ◌≤◌, ◌==◌, length, slice_index, IsTrue};
ghost use Rattle.std.specs.List.{prefix_len};
ghost use Rattle.std.specs.Char.{is_ascii_digit};
ghost use Rattle.targets.specs.declared.byte.TheConstants.{COLON};
ghost use Rattle.cdni_base.specs.Provider.{as_length, wrong_qualifier, wrong_number, wrong_place, ReadsProvider, AnswersProvider, ProviderStands};

use listing::Text;
use std::alloc::{AllocError, Global};
use targets::byte::COLON;
use targets::name_length;

/// The most digits of the number of a provider id.
pub const AS_DIGITS: usize = 10;

/// The most bytes of the qualifier of a provider id.
pub const QUALIFIER_MAX: usize = 64;

/// The id of a CDN provider, as it was sent (RFC 8007, section 4.6): `AS`, 1 to 10 digits, `:`, and 1 to 64 letters,
/// digits, `-`, `.` and `_`.
#[derive(Clone, Drop)]
pub struct ProviderId(pub Text);

/// Why a text is no provider id.
#[derive(Clone, Copy, Debug, PartialEq, Eq)]
pub enum ProviderFault {
    /// `at` is the length of the longest prefix with which some provider id begins.
    Bad { at: usize },
    /// Want of memory.
    Memory,
}

impl From<AllocError> for ProviderFault {
    ghost use Rattle.std.specs.Prelude.{◌≡◌};
    ghost use Rattle.cdni_base.specs.declared.provider.ProviderFault.TheVariants as provider_fault;

    ghost from_gives = { λ _ fault. fault ≡ provider_fault.Memory };

    fn from(_error: AllocError) -> ProviderFault {
        ProviderFault::Memory
    }
}

impl ProviderId {
    /// Reads a provider id.
    ///
    /// # Errors
    /// `Bad` exactly where the text is none, or want of memory.
    pub fn read(alloc: Global, text: &[u8]) -> Result<ProviderId, ProviderFault>
        ensures value { ReadsProvider text.now result }
        ensures grammar { AnswersProvider text.now result }
        ensures place { ProviderStands text.now result }
    {
        read_provider(alloc, text)
    }
}

fn read_provider(alloc: Global, text: &[u8]) -> Result<ProviderId, ProviderFault>
    ensures { ReadsProvider text.now result }
{
    match wrong_place(text) {
        Some(at) => Err(ProviderFault::Bad { at }),
        None => Ok(ProviderId(Text::of(alloc, text)?)),
    }
}

// the first place where the text is no provider id
#[tactic(auto, unfolding(crate::specs::Provider::wrong_place))]
fn wrong_place(text: &[u8]) -> Option<usize>
    ensures { result ≡ wrong_place text.now }
{
    let front = as_length(text);
    if front == 2 {
        wrong_number(text, digit_count(&text[2..]))
    } else {
        Some(front)
    }
}

// how many bytes of `AS` stand at the front
fn as_length(text: &[u8]) -> usize
    ensures length { result ≡ as_length text.now }
    ensures within { result ≤ length text.now }
{
    if text.is_empty() || text[0] != b'A' {
        0
    } else if text.len() == 1 || text[1] != b'S' {
        1
    } else {
        2
    }
}

// how many digits stand at the front
fn digit_count(text: &[u8]) -> usize
    ensures length { result ≡ prefix_len is_ascii_digit text.now }
    ensures within { result ≤ length text.now }
{
    text.iter().take_while(|byte| byte.is_ascii_digit()).count()
}

// the first wrong place of a number with so many digits, and what follows it
fn wrong_number(text: &[u8], count: usize) -> Option<usize>
    requires { count + 2 ≤ length text.now }
    ensures { result ≡ wrong_number text.now count }
{
    if count > 0 && count <= AS_DIGITS && has_colon(text, count + 2) {
        let start = count + 3;
        wrong_qualifier(text, start, name_length(&text[start..]))
    } else {
        Some(count.min(AS_DIGITS) + 2)
    }
}

fn has_colon(text: &[u8], at: usize) -> bool
    ensures colon { result ≡ (slice_index text.now at == COLON) }
    ensures there { IsTrue result → at + 1 ≤ length text.now }
{
    at < text.len() && text[at] == COLON
}

// the first wrong place of a qualifier that begins at `start` and has so many bytes
fn wrong_qualifier(text: &[u8], start: usize, count: usize) -> Option<usize>
    requires { start + count ≤ length text.now }
    ensures { result ≡ wrong_qualifier text.now start count }
{
    if count > 0 && count <= QUALIFIER_MAX && start + count == text.len() {
        None
    } else {
        Some(start + count.min(QUALIFIER_MAX))
    }
}
