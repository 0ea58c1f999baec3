//! The lines of a log file before its records (RFC 7937, section 3.3).

ghost use Rattle.std.specs.Prelude.{◌≡◌, ◌==◌, ◌&&◌, ◌++◌, Some, OnOk, IfErr, IfOk, IsTrue, MatchOption, [], bytes_eq, codes, map, not, option_map, if◌then◌else◌, true, None};
ghost use Rattle.std.specs.List.{list_all, list_any};
ghost use Rattle.cdni_log.specs.Field.{field_name};
ghost use Rattle.cdni_log.specs.Line.{tabbed_behind};
ghost use Rattle.log_audit.specs.Audit.{IsBad};
ghost use Rattle.log_audit.specs.declared.place.Place.TheVariants as place;
ghost use Rattle.log_audit.specs.LogFile.{are_uuid_bytes, is_lower_digit, is_origin, is_uuid, is_uuid_byte, names_text};
ghost use Rattle.log_audit.specs.Lines.{after_of, is_directive, is_fixed, is_urn, next, then_to, bad_line, IsCutOff, IsHead, Passes, Reaches};
ghost use Rattle.log_audit.specs.Value.{is_unbroken};

use crate::fault::AuditFault;
use crate::host::is_host;
use crate::line::{TAB, first_line, framed, is};
use crate::place::Place;
use cdni_log::{Field, FieldList, FieldNameFault, read_fields};
use std::alloc::{AllocError, Global};

// the fields of the records, and what follows the line that names them
#[derive(Drop)]
pub(crate) struct Head<'a> {
    pub fields: FieldList,
    pub rest: &'a [u8],
}

// the head of a log file, or its bad line
pub(crate) fn read_head(alloc: Global, text: &[u8]) -> Result<Head<'_>, AuditFault>
    ensures head { IfOk result (λ head. IsHead text.now head.fields head.rest.now) }
    ensures bad { IfErr result (IsBad (bad_line text.now)) }
{
    let text = behind_identity(text)?;
    let Some((line, rest)) = cut_line(text) else {
        return Err(AuditFault::BadLine { line: 5 });
    };
    match fields_in(alloc, line)? {
        Some(fields) => Ok(Head { fields, rest }),
        None => Err(AuditFault::BadLine { line: 5 }),
    }
}

// what follows the four lines before that of the fields, or the bad one of them
fn behind_identity(text: &[u8]) -> Result<&[u8], AuditFault>
    ensures rest { IfOk result (λ rest. Reaches text.now 5 place.Fields rest.now) }
    ensures bad { IfErr result (IsBad (bad_line text.now)) }
{
    let Some(text) = behind(&Place::Version, text) else {
        return Err(AuditFault::BadLine { line: 1 });
    };
    let Some(text) = behind(&Place::Uuid, text) else {
        return Err(AuditFault::BadLine { line: 2 });
    };
    let Some(text) = behind(&Place::Origin, text) else {
        return Err(AuditFault::BadLine { line: 3 });
    };
    let Some(text) = behind(&Place::Kind, text) else {
        return Err(AuditFault::BadLine { line: 4 });
    };
    Ok(text)
}

// the first line and what follows it, where there is a line
fn cut_line(text: &[u8]) -> Option<(&[u8], &[u8])>
    ensures { MatchOption result (text.now ≡ []) (λ parts. IsCutOff text.now parts.0.now parts.1.now) }
{
    if text.is_empty() {
        None
    } else {
        Some(first_line(text))
    }
}

// what follows the line at this place, where it may stand there
fn behind<'a>(place: &Place, text: &'a [u8]) -> Option<&'a [u8]>
    requires { IsTrue (is_fixed place.now) }
    ensures { Passes place.now (after_of place.now) text.now (option_map (λ rest. rest.now) result) }
{
    let Some((line, rest)) = cut_line(text) else {
        return None;
    };
    if stands(place, line) {
        Some(rest)
    } else {
        None
    }
}

// whether the line may stand at this place, which is one of the four before the fields
fn stands(place: &Place, line: &[u8]) -> bool
    requires { IsTrue (is_fixed place.now) }
    ensures { next place.now line.now ≡ then_to (after_of place.now) result }
{
    match place {
        Place::Version => is_version_line(line),
        Place::Uuid => is_uuid_line(line),
        Place::Origin => is_origin_line(line),
        Place::Kind => is_kind_line(line),
        Place::Fields => false,
        Place::Records(_) => false,
        Place::End => false,
    }
}

fn is_version_line(line: &[u8]) -> bool
    ensures { result ≡ bytes_eq line.now (codes "#version:\tcdni/1.0\r\n") }
{
    is(line, b"#version:\tcdni/1.0\r\n")
}

fn is_kind_line(line: &[u8]) -> bool
    ensures { result ≡ bytes_eq line.now (codes "#record-type:\tcdni_http_request_v1\r\n") }
{
    is(line, b"#record-type:\tcdni_http_request_v1\r\n")
}

fn is_uuid_line(line: &[u8]) -> bool
    ensures { result ≡ is_directive (codes "UUID") is_urn line.now }
{
    match framed(b"#UUID:\t", b"\r\n", line) {
        Some(value) => is_urn(value),
        None => false,
    }
}

// whether the value is the URN of a UUID in quotes
fn is_urn(value: &[u8]) -> bool
    ensures { result ≡ is_urn value.now }
{
    match framed(b"\"urn:uuid:", b"\"", value) {
        Some(text) => is_uuid(text),
        None => false,
    }
}

#[tactic(auto, unfolding(crate::specs::LogFile::is_uuid))]
fn is_uuid(text: &[u8]) -> bool
    ensures { result ≡ is_uuid text.now }
{
    is_unbroken(text)
        && text.len() == 36
        && are_uuid_bytes(text)
        && text[14] == b'5'
        && is_variant(text[19])
}

// the digit of the variant
fn is_variant(digit: u8) -> bool
    ensures { result ≡ list_any (λ variant. digit == variant) (codes "89ab") }
{
    b"89ab".contains(&digit)
}

fn are_uuid_bytes(text: &[u8]) -> bool
    ensures { result ≡ are_uuid_bytes 0 text.now }
{
    'bytes: for (place, byte) in text.iter().enumerate() {
        if !is_uuid_byte(place, *byte) {
            return false;
        }
    }
    true
}

fn is_uuid_byte(place: usize, byte: u8) -> bool
    ensures { result ≡ is_uuid_byte place byte }
{
    if place == 8 || place == 13 || place == 18 || place == 23 {
        byte == b'-'
    } else {
        is_lower_digit(byte)
    }
}

// a hexadecimal digit in lower case
pub(crate) fn is_lower_digit(byte: u8) -> bool
    ensures { result ≡ is_lower_digit byte }
{
    byte.is_ascii_digit() || (b'a' <= byte && byte <= b'f')
}

fn is_origin_line(line: &[u8]) -> bool
    ensures { result ≡ is_directive (codes "claimed-origin") is_origin line.now }
{
    match framed(b"#claimed-origin:\t", b"\r\n", line) {
        Some(origin) => is_origin(origin),
        None => false,
    }
}

// whether the text is the host that claims a file
#[tactic(auto, unfolding(crate::specs::LogFile::is_origin))]
fn is_origin(text: &[u8]) -> bool
    ensures { result ≡ is_origin text.now }
{
    is_unbroken(text) && is_host(text)
}

// the fields that the line names, where it is a line of fields
fn fields_in(alloc: Global, line: &[u8]) -> Result<Option<FieldList>, AllocError>
    ensures { IfOk result (λ found. next place.Fields line.now ≡ option_map place.Records found) }
{
    let Some(names) = framed(b"#fields:\t", b"\r\n", line) else {
        return Ok(None);
    };
    if !is_unbroken(names) {
        return Ok(None);
    }
    match read_fields(alloc, TAB, names) {
        Ok(fields) => as_written(alloc, fields, names),
        Err(FieldNameFault::Unknown) => Ok(None),
        Err(FieldNameFault::Memory) => Err(AllocError),
    }
}

// the fields, where these are their names as they are written
fn as_written(
    alloc: Global,
    fields: FieldList,
    names: &[u8],
) -> Result<Option<FieldList>, AllocError>
    ensures { IfOk result (λ found. found ≡ (if bytes_eq names.now (names_text fields) then Some fields else None)) }
{
    let written = written_names(alloc, fields.as_slice())?;
    if is(names, &written) {
        Ok(Some(fields))
    } else {
        Ok(None)
    }
}

// the names of the fields, joined by tabs
fn written_names(alloc: Global, fields: &[Field]) -> Result<Vec<u8>, AllocError>
    ensures { IfOk result (λ names. names.items ≡ names_text fields.now) }
{
    let mut out = Vec::new(alloc);
    let Some((first, others)) = fields.split_first() else {
        return Ok(out);
    };
    add_name(alloc, &mut out, first)?;
    add_names_behind(alloc, &mut out, others)?;
    Ok(out)
}

// adds the names of the fields, each behind a tab
fn add_names_behind(alloc: Global, out: &mut Vec<u8>, fields: &[Field]) -> Result<(), AllocError>
    ensures { OnOk result (out.new.items ≡ out.old.items ++ tabbed_behind (map field_name fields.now)) }
{
    'fields: for field in fields {
        out.extend_from_slice(&[TAB])?;
        add_name(alloc, out, field)?;
    }
    Ok(())
}

// adds the name of the field
fn add_name(alloc: Global, out: &mut Vec<u8>, field: &Field) -> Result<(), AllocError>
    ensures { OnOk result (out.new.items ≡ out.old.items ++ field_name field.now) }
{
    let name = field.name(alloc)?;
    out.extend_from_slice(name.bytes())
}

// whether there is neither CR nor LF
pub(crate) fn is_unbroken(text: &[u8]) -> bool
    ensures { result ≡ is_unbroken text.now }
{
    text.iter().all(|byte| *byte != 10 && *byte != 13)
}
