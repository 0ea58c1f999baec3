//! Lists of fields (RFC 7937, section 3.3).

ghost use Rattle.std.specs.Prelude.{◌≡◌, ◌==◌, ◌<◌, ◌≤◌, ◌∷◌, ◌++◌, IfOk, IfSome, OnOk, length, map, option_map};
ghost use Rattle.std.specs.List.{count_by, list_any, slice_split};
ghost use Rattle.cdni_log.specs.Line.{tabbed, tabbed_behind};
ghost use Rattle.cdni_log.specs.Field.{field_name, is_header, Reads};
ghost use Rattle.cdni_log.specs.FieldList.{are_apart, are_fields, default_fields, fields_of, is_same, names_in, named};

use crate::field::{Field, FieldNameFault, add_name};
use crate::line::TAB;
use listing::{Listing, cut_at};
use std::alloc::{AllocError, Global};

// how many fields a record has at most
const FIELDS_MAX: usize = 21;

// how many of them are headers at most
const HEADERS_MAX: usize = 8;

/// Fields, in the order of their columns.
pub type FieldList = Listing<Field>;

/// The thirteen fields that are no headers (RFC 7937, section 3.4.1), in the order of a file where nothing else is
/// asked for.
///
/// # Errors
/// Want of memory.
pub fn default_fields(alloc: Global) -> Result<FieldList, AllocError>
    ensures { IfOk result (λ fields. fields ≡ default_fields) }
{
    let mut fields = Listing::new(alloc);
    fields.push(Field::Date)?;
    fields.push(Field::Time)?;
    fields.push(Field::TimeTaken)?;
    fields.push(Field::GroupId)?;
    fields.push(Field::Method)?;
    fields.push(Field::CsUri)?;
    fields.push(Field::UUri)?;
    fields.push(Field::Protocol)?;
    fields.push(Field::Status)?;
    fields.push(Field::TotalBytes)?;
    fields.push(Field::EntityBytes)?;
    fields.push(Field::Ccid)?;
    fields.push(Field::Cached)?;
    Ok(fields)
}

/// The fields whose names the text has, in order, with this byte between each two: 1 to 21 fields (RFC 7937,
/// section 3.4.1), none twice, of which at most eight are headers.
///
/// # Errors
/// `Unknown` exactly where the text has no such fields; want of memory.
#[tactic(auto, unfolding(crate::specs::FieldList::fields_of))]
pub fn read_fields(alloc: Global, between: u8, text: &[u8]) -> Result<FieldList, FieldNameFault>
    ensures { Reads result (fields_of between text.now) }
{
    let fields = read_names(alloc, between, text)?;
    if are_fields(fields.as_slice()) {
        Ok(fields)
    } else {
        Err(FieldNameFault::Unknown)
    }
}

// the fields of the names between which this byte stands
fn read_names(alloc: Global, between: u8, text: &[u8]) -> Result<FieldList, FieldNameFault>
    ensures { Reads result (named (slice_split (λ byte. byte == between) text.now)) }
{
    let mut fields = Listing::new(alloc);
    let mut rest = Some(text);
    'names: while let Some(names) = rest {
        let (name, others) = next_name(between, names);
        fields.push(Field::read(alloc, name)?)?;
        rest = others;
    }
    Ok(fields)
}

// the first of the names, and the others, where there are any
fn next_name(between: u8, names: &[u8]) -> (&[u8], Option<&[u8]>)
    ensures names { names_in between (Some names.now)
        ≡ result.0.now ∷ names_in between (option_map (λ bytes. bytes.now) result.1) }
    ensures shorter { IfSome result.1 (λ others. length others.now < length names.now) }
{
    match cut_at(between, names) {
        Some((name, others)) => (name, Some(others)),
        None => (names, None),
    }
}

// whether these can be the fields of a record
#[tactic(auto, unfolding(crate::specs::FieldList::are_fields))]
fn are_fields(fields: &[Field]) -> bool
    ensures { result ≡ are_fields fields.now }
{
    !fields.is_empty()
        && fields.len() <= FIELDS_MAX
        && count_headers(fields) <= HEADERS_MAX
        && are_apart(fields)
}

// how many of the fields are headers
fn count_headers(fields: &[Field]) -> usize
    ensures { result ≡ count_by is_header fields.now }
{
    fields.iter().filter(|field| field.is_header()).count()
}

// whether none is there twice
fn are_apart(fields: &[Field]) -> bool
    ensures { result ≡ are_apart fields.now }
{
    match fields {
        [] => true,
        [first, others @ ..] => !is_among(first, others) && are_apart(others),
    }
}

// whether the field is one of the others
fn is_among(field: &Field, others: &[Field]) -> bool
    ensures { result ≡ list_any (is_same field.now) others.now }
{
    others.contains(field)
}

// adds the names of the fields, joined by tabs
#[tactic(auto, using(crate::proofs::ColumnLemmas::tabbed_is))]
pub(crate) fn add_names(out: &mut Vec<u8>, fields: &[Field]) -> Result<(), AllocError>
    ensures { OnOk result (out.new.items ≡ out.old.items ++ tabbed (map field_name fields.now)) }
{
    let Some((first, others)) = fields.split_first() else {
        return Ok(());
    };
    add_name(out, first)?;
    add_names_behind(out, others)
}

// adds the names of the fields, each behind a tab
fn add_names_behind(out: &mut Vec<u8>, fields: &[Field]) -> Result<(), AllocError>
    ensures { OnOk result (out.new.items ≡ out.old.items ++ tabbed_behind (map field_name fields.now)) }
{
    'fields: for field in fields {
        out.extend_from_slice(&[TAB])?;
        add_name(out, field)?;
    }
    Ok(())
}
