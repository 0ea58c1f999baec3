//! Why a text is not accepted.

use listing::Text;
use std::alloc::AllocError;

/// Why a text is not accepted as a log file. The first that applies, in this order.
#[derive(Drop)]
pub enum AuditFault {
    /// The text has `len` bytes, which are more than 268,435,456.
    TooLong { len: usize },
    /// No log file has this line at its place; lines are counted from 1. Where the text ends too early it is the line
    /// that is missing or cut.
    BadLine { line: u64 },
    /// The text is a log file, but another hash is written in it than the bytes before the hash's line have: the one
    /// that is written, and the one that was found, in lower-case hexadecimal digits.
    BadHash { written: Text, found: Text },
    /// Want of memory.
    Memory,
}

impl From<AllocError> for AuditFault {
    ghost use Rattle.std.specs.Prelude.{◌≡◌};
    ghost use Rattle.log_audit.specs.declared.fault.AuditFault.TheVariants as audit_fault;

    ghost from_gives = { λ _ fault. fault ≡ audit_fault.Memory };

    fn from(_error: AllocError) -> AuditFault {
        AuditFault::Memory
    }
}
