//! What is printed of a log file that was checked.

ghost use Rattle.std.specs.Prelude.{◌≡◌, ◌+◌, ◌^◌, ◌<◌, ◌++◌, [], ◌∷◌, ℕ, List, Some, count_by, decimal, length, true, IfOk, IfSome, OnOk, ◌==◌};
ghost use Rattle.std.specs.List.{flat_map};
ghost use Rattle.std.specs.Option.{option_map};
ghost use Rattle.audit_report.specs.Report.{are_next, printed_order, printed_places, printed_record, put_into, report_text, totals_text};
ghost use Rattle.audit_report.specs.Report.{value_at, values_at, values_of};
ghost use Rattle.cdni_log.specs.FieldList.{are_apart, names_in};
ghost use Rattle.cdni_log.specs.Line.{tabbed, tabbed_behind};
ghost use Rattle.cdni_log.specs.declared.field.Field.{Field};

use crate::laws::what_is_printed_is_put_back;
use crate::places::{are_next, printed_places};
use itoa::Buffer;
use listing::{Text, cut_at};
use log_audit::Audited;
use std::alloc::{AllocError, Global};

/// What stands between two values of a record.
const TAB: u8 = 9;

/// What is printed of a log file that was checked: for each record a line with its values, those of the thirteen fields
/// that are no headers in their order (RFC 7937, section 3.4.1), then those of headers as they stand, joined by tabs; and
/// the line `records N total T entity E cached C`, with the number of records, the bytes that were sent, those of bodies, and
/// the number of records whose content was kept. Each line ends in LF.
///
/// # Errors
/// Want of memory.
#[tactic(auto, unfolding(crate::specs::Report::report_text))]
pub fn report_text(alloc: Global, audited: &Audited) -> Result<Text, AllocError>
    ensures text { IfOk result (λ text. text ≡ report_text audited.now) }
    ensures put_back { (fields : List Field) (values : List (List ℕ)) → are_apart fields ≡ true
        → length values ≡ length fields
        → put_into (printed_order fields) (put_into fields values (printed_order fields)) fields ≡ values }
{
    what_is_printed_is_put_back();
    let places = printed_places(alloc, audited.fields.as_slice())?;
    let mut out = Vec::new(alloc);
    add_records(&mut out, places.as_slice(), audited.records.as_slice())?;
    add_totals(&mut out, audited)?;
    Ok(Text::from_vec(out))
}

// adds the lines of the records, with the values at these places
fn add_records(out: &mut Vec<u8>, places: &[usize], records: &[Text]) -> Result<(), AllocError>
    ensures { OnOk result (out.new.items ≡ out.old.items
        ++ flat_map (λ line. tabbed (values_at (values_of line) places.now) ++ 10 ∷ []) records.now) }
{
    let in_order = are_next(0, places);
    'records: for record in records {
        add_record(out, places, in_order, record.bytes())?;
    }
    Ok(())
}

// adds the line of a record, with the values at these places; whether these are one behind the other
fn add_record(
    out: &mut Vec<u8>,
    places: &[usize],
    in_order: bool,
    line: &[u8],
) -> Result<(), AllocError>
    requires { in_order ≡ are_next 0 places.now }
    ensures { OnOk result (out.new.items
        ≡ out.old.items ++ (tabbed (values_at (values_of line.now) places.now) ++ 10 ∷ [])) }
{
    add_printed(out, places, in_order, line)?;
    out.extend_from_slice(b"\n")?;
    Ok(())
}

// adds the values at these places, joined by tabs: the line as it stands, where it is these
fn add_printed(
    out: &mut Vec<u8>,
    places: &[usize],
    in_order: bool,
    line: &[u8],
) -> Result<(), AllocError>
    requires { in_order ≡ are_next 0 places.now }
    ensures { OnOk result (out.new.items ≡ out.old.items ++ tabbed (values_at (values_of line.now) places.now)) }
{
    if is_printed_so(places, in_order, line) {
        out.extend_from_slice(line)?;
        return Ok(());
    }
    add_values(out, places, line)
}

// whether the line is the values at these places, since it has so many, one behind the other
fn is_printed_so(places: &[usize], in_order: bool, line: &[u8]) -> bool
    requires { in_order ≡ are_next 0 places.now }
    ensures { result ≡ true → tabbed (values_at (values_of line.now) places.now) ≡ line.now }
{
    in_order && count_values(line) == places.len()
}

// how many values the line has
#[tactic(auto, using(crate::proofs::ReportLemmas::values_counted))]
fn count_values(line: &[u8]) -> usize
    requires { length line.now < 2 ^ 63 }
    ensures { result ≡ length (values_of line.now) }
{
    count_tabs(line) + 1
}

fn count_tabs(line: &[u8]) -> usize
    ensures { result ≡ count_by (λ byte. byte == 9) line.now }
{
    line.iter().filter(|byte| **byte == TAB).count()
}

// adds the values at these places, joined by tabs
fn add_values(out: &mut Vec<u8>, places: &[usize], line: &[u8]) -> Result<(), AllocError>
    ensures { OnOk result (out.new.items ≡ out.old.items ++ tabbed (values_at (values_of line.now) places.now)) }
{
    let Some((first, others)) = places.split_first() else {
        return Ok(());
    };
    out.extend_from_slice(value_at(line, *first))?;
    add_values_behind(out, others, line)
}

// adds the values at these places, each behind a tab
fn add_values_behind(out: &mut Vec<u8>, places: &[usize], line: &[u8]) -> Result<(), AllocError>
    ensures { OnOk result (out.new.items
        ≡ out.old.items ++ tabbed_behind (values_at (values_of line.now) places.now)) }
{
    'places: for place in places {
        out.extend_from_slice(&[TAB])?;
        out.extend_from_slice(value_at(line, *place))?;
    }
    Ok(())
}

// the value at this place of the line, empty where there is none
fn value_at(line: &[u8], place: usize) -> &[u8]
    ensures { result.now ≡ value_at (values_of line.now) place }
{
    let (value, others) = first_value(line);
    if place == 0 {
        return value;
    }
    match others {
        Some(others) => value_at(others, place - 1),
        None => b"",
    }
}

// the first of the values, and the others, where there are any
fn first_value(line: &[u8]) -> (&[u8], Option<&[u8]>)
    ensures values { values_of line.now ≡ result.0.now ∷ names_in 9 (option_map (λ others. others.now) result.1) }
    ensures shorter { IfSome result.1 (λ others. length others.now < length line.now) }
{
    match cut_at(TAB, line) {
        Some((value, others)) => (value, Some(others)),
        None => (line, None),
    }
}

// adds the line of the totals
#[tactic(auto, unfolding(crate::specs::Report::totals_text))]
fn add_totals(out: &mut Vec<u8>, audited: &Audited) -> Result<(), AllocError>
    ensures { OnOk result (out.new.items ≡ out.old.items ++ totals_text audited.now) }
{
    add_number(out, b"records ", audited.records.len() as u128)?;
    add_number(out, b" total ", audited.total)?;
    add_number(out, b" entity ", audited.entity)?;
    add_number(out, b" cached ", u128::from(audited.cached))?;
    out.extend_from_slice(b"\n")?;
    Ok(())
}

// adds a number behind these words
fn add_number(out: &mut Vec<u8>, words: &[u8], number: u128) -> Result<(), AllocError>
    ensures { OnOk result (out.new.items ≡ out.old.items ++ (words.now ++ decimal number)) }
{
    let mut digits = Buffer::new();
    out.extend_from_slice(words)?;
    out.extend_from_slice(digits.format(number).as_bytes())?;
    Ok(())
}
