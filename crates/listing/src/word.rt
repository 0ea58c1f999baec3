//! Words of a line.

ghost use Rattle.std.specs.Prelude.{◌≡◌, ◌==◌, ◌<◌, length, position, option_map, IfOk, IfSome};
ghost use Rattle.listing.specs.Word.{parts_at, parts_or_whole};

use crate::shared_bytes::SharedBytes;
use crate::short_bytes::SHORT_MAX;
use crate::text::Text;
use memchr::memchr;
use std::alloc::{AllocError, Global};

/// What stands before the first `byte` of `text` and what stands after it. `None` where there is none.
#[tactic(auto, unfolding(crate::specs::Word::parts_at))]
pub fn cut_at(byte: u8, text: &[u8]) -> Option<(&[u8], &[u8])>
    ensures { option_map (λ parts. (parts.0.now, parts.1.now)) result ≡ parts_at byte text.now }
{
    match place_of(byte, text) {
        Some(place) => Some((&text[..place], &text[place + 1..])),
        None => None,
    }
}

/// What stands before the first `byte` of `text` and what stands after it, as parts of one copy of the text; the whole alone
/// where there is none. Parts of a text of at most 16 bytes take no memory.
///
/// # Errors
/// Want of memory.
#[tactic(auto, unfolding(crate::specs::Word::parts_at))]
pub fn shared_parts(
    alloc: Global,
    byte: u8,
    text: &[u8],
) -> Result<(Text, Option<Text>), AllocError>
    ensures { IfOk result (λ parts. parts ≡ parts_or_whole byte text.now) }
{
    if text.len() <= SHORT_MAX {
        return short_parts(alloc, byte, text);
    }
    let whole = SharedBytes::of(alloc, text)?;
    match place_of(byte, text) {
        Some(place) => Ok((whole.front(place)?, Some(whole.rest(place + 1)?))),
        None => Ok((whole.front(text.len())?, None)),
    }
}

// the same, each part with its own bytes
fn short_parts(alloc: Global, byte: u8, text: &[u8]) -> Result<(Text, Option<Text>), AllocError>
    ensures { IfOk result (λ parts. parts ≡ parts_or_whole byte text.now) }
{
    match cut_at(byte, text) {
        Some((front, rest)) => Ok((Text::of(alloc, front)?, Some(Text::of(alloc, rest)?))),
        None => Ok((Text::of(alloc, text)?, None)),
    }
}

// the index of the first such byte
fn place_of(byte: u8, text: &[u8]) -> Option<usize>
    ensures place { result ≡ position (λ x. x == byte) text.now }
    ensures within { IfSome result (λ place. place < length text.now) }
{
    memchr(byte, text)
}
