//! Why a metadata document was not read.

use json_read::{FieldFault, JsonFault, JsonPath};
use std::alloc::AllocError;

/// The first fault of a metadata document, in the order of reading.
#[derive(Drop)]
pub enum MetaFault {
    /// The text has `len` bytes, more than 8,388,608.
    TooLong { len: usize },
    /// The text is no JSON text of at most 127 levels.
    NotJson,
    /// The object at `path` is a Link (RFC 8006, section 4.3.1), which must be gathered before.
    Link { path: JsonPath },
    /// A field does not read.
    Field(FieldFault),
    /// There are more than 10,000 objects; `n` is 10,001.
    TooMany { n: usize },
    /// PathMatch objects nest more than 16 levels deep; `n` is 17.
    TooDeep { n: usize },
    /// Want of memory.
    Memory,
}

impl From<AllocError> for MetaFault {
    ghost use Rattle.std.specs.Prelude.{◌≡◌};
    ghost use Rattle.metadata_objects.specs.declared.fault.MetaFault.TheVariants as meta_fault;

    ghost from_gives = { λ _ fault. fault ≡ meta_fault.Memory };

    fn from(_error: AllocError) -> MetaFault {
        MetaFault::Memory
    }
}

impl From<JsonFault> for MetaFault {
    ghost use Rattle.std.specs.Prelude.{◌≡◌};
    ghost use Rattle.metadata_objects.specs.Reading.{fault_of};

    ghost from_gives = { λ json_fault fault. fault ≡ fault_of json_fault };

    fn from(fault: JsonFault) -> MetaFault {
        match fault {
            JsonFault::Field(field) => MetaFault::Field(field),
            JsonFault::Memory => MetaFault::Memory,
        }
    }
}
