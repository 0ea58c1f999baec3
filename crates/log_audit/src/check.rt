//! The check of a log file.

ghost use Rattle.std.specs.Prelude.{◌≡◌, ◌≢◌, ◌<◌, ℕ, List, length, Err, IfErr, IfOk};
ghost use Rattle.cdni_log.specs.File.{file_text};
ghost use Rattle.cdni_log.specs.declared.row.FileHead.{FileHead};
ghost use Rattle.cdni_log.specs.declared.row.Row.{Row};
ghost use Rattle.hex.specs.Hex.{encode_lower};
ghost use Rattle.sha2.specs.Sha256.{sha256};
ghost use Rattle.log_audit.specs.Audit.{HasSums, IsFaultOf, IsHashFault, ReadsFile, IsAccepted, IsOrMemory, IsWithin};
ghost use Rattle.log_audit.specs.Lines.{IsBadLine};
ghost use Rattle.log_audit.specs.LogFile.{true_hash, LogFile, IsLogFile};
ghost use Rattle.log_audit.specs.Totals.{AreSums};
ghost use Rattle.log_audit.specs.Written.{HaveForms};
ghost use Rattle.log_audit.specs.declared.fault.AuditFault.TheVariants.{TooLong, BadLine, BadHash};

use crate::audited::Audited;
use crate::fault::AuditFault;
use crate::head::read_head;
use crate::laws::{
    a_bad_line_is_the_first_that_nothing_mends, a_log_file_has_no_bad_line,
    a_value_is_what_its_form_says, what_is_written_is_a_log_file,
};
use crate::line::is;
use crate::records::read_body;
use crate::totals::sums_of;
use cdni_log::FieldList;
use listing::{Text, TextList};
use sha2::{Digest, Sha256};
use std::alloc::Global;

// the longest text, in bytes
const LENGTH_MAX: usize = 268435456;

// how many bytes the line of the hash has
const HASH_LINE: usize = 80;

/// Checks one log file (RFC 7937, section 3): that it is whole and well formed, that its hash is that of its bytes
/// (section 3.3), and what it sums to.
///
/// # Errors
/// `TooLong` exactly above 268,435,456 bytes, and else `BadLine` exactly where the text is no log file, with the first
/// line after which no text makes it one; `BadHash` exactly where it is one, but has another hash; want of memory.
pub fn audit(alloc: Global, bytes: &[u8]) -> Result<Audited, AuditFault>
    ensures read { IfOk result (ReadsFile bytes.now) }
    ensures sums { IfOk result (λ audited. (file : LogFile) → IsLogFile bytes.now file → HasSums file audited) }
    ensures fault { IfErr result (IsFaultOf bytes.now) }
    ensures too_long { 268435456 < length bytes.now → result ≡ Err (TooLong (length bytes.now)) }
    ensures bad_line { (n : ℕ) → IsWithin bytes.now → IsBadLine bytes.now n → IsOrMemory result (BadLine n) }
    ensures bad_hash { (file : LogFile) → IsWithin bytes.now → IsLogFile bytes.now file → file.hash ≢ true_hash file
        → IsOrMemory result (BadHash file.hash (true_hash file)) }
    ensures accepted { (file : LogFile) → IsWithin bytes.now → IsLogFile bytes.now file → file.hash ≡ true_hash file
        → IsAccepted result }
    ensures written { (head : FileHead) (rows : List Row) → HaveForms head rows → bytes.now ≡ file_text head rows
        → IsWithin bytes.now → IsAccepted result }
{
    a_log_file_has_no_bad_line();
    a_bad_line_is_the_first_that_nothing_mends();
    what_is_written_is_a_log_file();
    a_value_is_what_its_form_says();
    checked(alloc, bytes)
}

// the same without the laws
fn checked(alloc: Global, bytes: &[u8]) -> Result<Audited, AuditFault>
    ensures read { IfOk result (ReadsFile bytes.now) }
    ensures sums { IfOk result AreSums }
    ensures fault { IfErr result (IsFaultOf bytes.now) }
{
    if bytes.len() > LENGTH_MAX {
        return Err(AuditFault::TooLong { len: bytes.len() });
    }
    let head = read_head(alloc, bytes)?;
    let body = read_body(alloc, head.fields.as_slice(), head.rest)?;
    match check_hash(alloc, &bytes[..bytes.len() - HASH_LINE], body.hash) {
        Ok(()) => Ok(told_of(head.fields, body.records)),
        Err(fault) => Err(fault),
    }
}

// refuses a hash that is not that of these bytes
fn check_hash(alloc: Global, bytes: &[u8], hash: &[u8]) -> Result<(), AuditFault>
    ensures same { IfOk result (λ _. hash.now ≡ encode_lower (sha256 bytes.now)) }
    ensures other { IfErr result (IsHashFault hash.now (encode_lower (sha256 bytes.now))) }
{
    let mut digits = [0; 64];
    match hex::encode_to_slice(&Sha256::digest(bytes), &mut digits) {
        Ok(()) => {}
        Err(_) => unreachable!(),
    }
    if is(hash, &digits) {
        return Ok(());
    }
    Err(AuditFault::BadHash {
        written: Text::of(alloc, hash)?,
        found: Text::of(alloc, &digits)?,
    })
}

// what is told of a file with these fields and records
fn told_of(fields: FieldList, records: TextList) -> Audited
    ensures fields { result.fields ≡ fields }
    ensures records { result.records ≡ records }
    ensures sums { AreSums result }
{
    let sums = sums_of(fields.as_slice(), records.as_slice());
    Audited {
        fields,
        records,
        total: sums.total,
        entity: sums.entity,
        cached: sums.cached,
    }
}
