//! Reading a JSON text.

ghost use Rattle.serde_json.specs.View.{view};
ghost use Rattle.json_read.specs.Text.{Parses};

use crate::fault::ParseFault;
use serde_json::Value;
use std::alloc::Global;

/// Reads a JSON text (RFC 8259) of at most 127 levels of lists and objects.
///
/// # Errors
/// `NotJson` exactly where the bytes are none, or want of memory.
pub fn parse(alloc: Global, bytes: &[u8]) -> Result<Value, ParseFault>
    ensures { Parses view bytes.now result }
{
    match Value::from_slice(alloc, bytes) {
        Ok(value) => Ok(value),
        Err(error) => {
            if error.is_memory() {
                Err(ParseFault::Memory)
            } else {
                Err(ParseFault::NotJson)
            }
        }
    }
}
