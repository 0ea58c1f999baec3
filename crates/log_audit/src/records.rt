//! The records of a log file, and the line of its hash.

ghost use Rattle.std.specs.Prelude.{◌≡◌, ◌<◌, ◌≤◌, ◌^◌, IfErr, IfOk, length, option_map};
ghost use Rattle.std.specs.List.{list_all};
ghost use Rattle.log_audit.specs.declared.place.Place.TheVariants as place;
ghost use Rattle.log_audit.specs.Audit.{IsBad, IsBadLast, IsHashIn, IsLast};
ghost use Rattle.log_audit.specs.LogFile.{is_hash, is_lower_digit};
ghost use Rattle.log_audit.specs.Lines.{bad_from, lines_of, IsBody};

use crate::fault::AuditFault;
use crate::head::{is_lower_digit, is_unbroken};
use crate::line::{first_line, framed};
use crate::record::record_in;
use cdni_log::Field;
use listing::{Listing, Text, TextList};
use std::alloc::Global;

// the lines of the records without their ends, and the hash that is written
#[derive(Drop)]
pub(crate) struct Body<'a> {
    pub records: TextList,
    pub hash: &'a [u8],
}

// the number of the first line of records
const FIRST: u64 = 6;

// the records with these fields and the hash, or the bad line
pub(crate) fn read_body<'a>(
    alloc: Global,
    fields: &[Field],
    text: &'a [u8],
) -> Result<Body<'a>, AuditFault>
    requires { length text.now ≤ 268435456 }
    ensures body { IfOk result (λ body. IsBody fields.now text.now body.records body.hash.now) }
    ensures bad { IfErr result (IsBad (bad_from 6 (place.Records fields.now) (lines_of text.now))) }
{
    let mut records = Listing::new(alloc);
    let mut number = FIRST;
    let mut left = text;
    'lines: while !left.is_empty() {
        let (line, rest) = first_line(left);
        match record_in(fields, line) {
            Some(values) => records.push(Text::of(alloc, values)?)?,
            None => return last_line(records, number, line, rest),
        }
        number += 1;
        left = rest;
    }
    Err(AuditFault::BadLine { line: number })
}

// the records and the hash, where the line behind them is that of a hash, and nothing follows
fn last_line<'a>(
    records: TextList,
    number: u64,
    line: &'a [u8],
    rest: &[u8],
) -> Result<Body<'a>, AuditFault>
    requires { number < 2 ^ 63 }
    ensures last { IfOk result (λ body. IsLast line.now rest.now body.hash.now) }
    ensures records { IfOk result (λ body. body.records ≡ records) }
    ensures bad { IfErr result (IsBadLast number line.now rest.now) }
{
    let Some(hash) = hash_in(line) else {
        return Err(AuditFault::BadLine { line: number });
    };
    if rest.is_empty() {
        Ok(Body { records, hash })
    } else {
        Err(AuditFault::BadLine { line: number + 1 })
    }
}

// the hash in the line, where it is the line of one
fn hash_in(line: &[u8]) -> Option<&[u8]>
    ensures { IsHashIn line.now (option_map (λ hash. hash.now) result) }
{
    let Some(hash) = framed(b"#SHA256-hash:\t", b"\r\n", line) else {
        return None;
    };
    if is_hash(hash) { Some(hash) } else { None }
}

#[tactic(auto, unfolding(crate::specs::LogFile::is_hash))]
fn is_hash(text: &[u8]) -> bool
    ensures { result ≡ is_hash text.now }
{
    is_unbroken(text) && text.len() == 64 && are_lower_digits(text)
}

fn are_lower_digits(text: &[u8]) -> bool
    ensures { result ≡ list_all is_lower_digit text.now }
{
    text.iter().all(|byte| is_lower_digit(*byte))
}
