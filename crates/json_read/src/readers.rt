//! The two readers of JSON texts, side by side.

ghost use Rattle.std.specs.Prelude.{◌≡◌, IfOk, is_some, true};
ghost use Rattle.json_read.specs.Text.{json_of};

use crate::borrowed::parse_borrowed;
use crate::fault::ParseFault;
use crate::text::parse;
use json::Scratch as JsonScratch;
use std::alloc::{AllocError, Global};

/// Whether the reader into values that own their texts takes the bytes for a JSON text.
///
/// # Errors
/// Want of memory.
pub fn is_json(alloc: Global, bytes: &[u8]) -> Result<bool, AllocError>
    ensures { IfOk result (λ is. is ≡ is_some (json_of bytes.now)) }
{
    match parse(alloc, bytes) {
        Ok(_value) => Ok(true),
        Err(ParseFault::NotJson) => Ok(false),
        Err(ParseFault::Memory) => Err(AllocError),
    }
}

/// Whether the reader into values that borrow their texts does.
///
/// # Errors
/// Want of memory.
pub fn is_borrowed_json(alloc: Global, bytes: &[u8]) -> Result<bool, AllocError>
    ensures { IfOk result (λ is. is ≡ is_some (json_of bytes.now)) }
{
    let mut scratch = JsonScratch::new(alloc);
    match parse_borrowed(alloc, bytes, &mut scratch) {
        Ok(_value) => Ok(true),
        Err(ParseFault::NotJson) => Ok(false),
        Err(ParseFault::Memory) => Err(AllocError),
    }
}

/// Whether both readers answer the same of these bytes: they always do.
///
/// # Errors
/// Want of memory.
pub fn readers_agree(alloc: Global, bytes: &[u8]) -> Result<bool, AllocError>
    ensures { IfOk result (λ agree. agree ≡ true) }
{
    Ok(is_json(alloc, bytes)? == is_borrowed_json(alloc, bytes)?)
}
