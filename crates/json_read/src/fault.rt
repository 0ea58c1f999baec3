//! Faults of a JSON text and of its fields.

use crate::path::JsonPath;
use std::alloc::AllocError;

/// What is wrong with a field.
#[derive(Clone, Copy, Debug, PartialEq, Eq)]
pub enum FieldCause {
    /// The member is not there.
    Missing,
    /// The value is of another kind.
    WrongKind,
    /// The value is of the right kind and out of its range.
    OutOfRange,
}

/// A field that does not read: where it stands and why.
#[derive(Drop)]
pub struct FieldFault {
    pub path: JsonPath,
    pub cause: FieldCause,
}

/// Why a field was not read.
#[derive(Drop)]
pub enum JsonFault {
    /// The field does not read.
    Field(FieldFault),
    /// Want of memory.
    Memory,
}

impl From<AllocError> for JsonFault {
    ghost use Rattle.std.specs.Prelude.{◌≡◌};
    ghost use Rattle.json_read.specs.declared.fault.JsonFault.TheVariants as json_fault;

    ghost from_gives = { λ _ fault. fault ≡ json_fault.Memory };

    fn from(_error: AllocError) -> JsonFault {
        JsonFault::Memory
    }
}

/// Why a text was not read.
#[derive(Clone, Copy, Debug, PartialEq, Eq)]
pub enum ParseFault {
    /// It is no JSON text of at most 127 levels.
    NotJson,
    /// Want of memory.
    Memory,
}
