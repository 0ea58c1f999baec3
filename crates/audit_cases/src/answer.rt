//! What comes of the check of a text.

use anyhow::bail;
use log_audit::{AuditFault, Audited, audit};
use std::alloc::{AllocError, Global};

// how many bytes stand from the first digit of the hash on
const DIGITS: usize = 66;

/// Prints what comes of the check in a line; where the hash is another one, also what comes of it with the right one.
pub fn print_answer<R: Print>(rt: &R, alloc: Global, text: &[u8]) -> anyhow::Result<()> {
    let answer = audit(alloc, text);
    print_one(rt, &answer)?;
    if let Err(AuditFault::BadHash { found, .. }) = &answer {
        let mended = with_hash(alloc, text, found.bytes())?;
        print!(rt; "; ")?;
        print_one(rt, &audit(alloc, mended.as_slice()))?;
    }
    println!(rt; "")?;
    Ok(())
}

// Prints what came of one check.
fn print_one<R: Print>(rt: &R, answer: &Result<Audited, AuditFault>) -> anyhow::Result<()> {
    match answer {
        Ok(audited) => print!(rt;
            "records {} total {} entity {} cached {}",
            audited.records.len(),
            audited.total,
            audited.entity,
            audited.cached
        )?,
        Err(AuditFault::BadLine { line }) => print!(rt; "line {line}")?,
        Err(AuditFault::BadHash { .. }) => print!(rt; "hash")?,
        Err(AuditFault::TooLong { .. }) => print!(rt; "too long")?,
        Err(AuditFault::Memory) => bail!("want of memory"),
    }
    Ok(())
}

// The text of a log file with this hash in place of its own.
fn with_hash(alloc: Global, text: &[u8], hash: &[u8]) -> Result<Vec<u8>, AllocError> {
    let mut out = Vec::new(alloc);
    out.extend_from_slice(&text[..text.len().saturating_sub(DIGITS)])?;
    out.extend_from_slice(hash)?;
    out.extend_from_slice(b"\r\n")?;
    Ok(out)
}
