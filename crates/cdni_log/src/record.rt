//! Records of a log file (RFC 7937, section 3.4.1).

ghost use Rattle.std.specs.Prelude.{◌≡◌, ◌++◌, ◌≤◌, OnOk};
ghost use Rattle.std.specs.List.{flat_map};
ghost use Rattle.cdni_log.specs.Row.{seconds_text, group_text, doubled, optional_text, cached_text, extra_at, value_of, values_from, record_text};
ghost use Rattle.cdni_log.specs.Line.{tabbed, tabbed_behind};

use crate::date::{add_date, add_time, three_digits};
use crate::field::Field;
use crate::line::{TAB, end_line};
use crate::row::Row;
use itoa::Buffer;
use listing::Text;
use std::alloc::AllocError;

// adds the line of a row, with the values of these fields
#[tactic(auto, unfolding(crate::specs::Row::record_text))]
pub(crate) fn add_record(out: &mut Vec<u8>, fields: &[Field], row: &Row) -> Result<(), AllocError>
    ensures { OnOk result (out.new.items ≡ out.old.items ++ record_text fields.now row.now) }
{
    add_values(out, fields, row)?;
    end_line(out)
}

// adds the values of the fields, joined by tabs
#[tactic(auto, using(crate::proofs::ColumnLemmas::tabbed_is), unfolding(crate::specs::Row::values_from))]
fn add_values(out: &mut Vec<u8>, fields: &[Field], row: &Row) -> Result<(), AllocError>
    ensures { OnOk result (out.new.items ≡ out.old.items ++ tabbed (values_from row.now 0 fields.now)) }
{
    let Some((first, others)) = fields.split_first() else {
        return Ok(());
    };
    add_value(out, row, 0, first)?;
    add_values_behind(out, row, first.header_count(), others)
}

// adds the values of fields before which so many fields are headers, each behind a tab
fn add_values_behind(
    out: &mut Vec<u8>,
    row: &Row,
    headers: usize,
    fields: &[Field],
) -> Result<(), AllocError>
    requires { headers ≤ 1 }
    ensures { OnOk result (out.new.items ≡ out.old.items ++ tabbed_behind (values_from row.now headers fields.now)) }
{
    let mut so_far = headers;
    'fields: for field in fields {
        out.extend_from_slice(&[TAB])?;
        add_value(out, row, so_far, field)?;
        so_far += field.header_count();
    }
    Ok(())
}

// adds the value of a field before which so many fields are headers
#[tactic(auto, unfolding(crate::specs::Row::value_of))]
fn add_value(out: &mut Vec<u8>, row: &Row, headers: usize, field: &Field) -> Result<(), AllocError>
    ensures { OnOk result (out.new.items ≡ out.old.items ++ value_of row.now headers field.now) }
{
    let mut digits = Buffer::new();
    match field {
        Field::Date => add_date(out, row.finished),
        Field::Time => add_time(out, row.finished),
        Field::TimeTaken => add_seconds(out, row.finished.saturating_sub(row.admitted)),
        Field::GroupId => add_group(out, row.asn),
        Field::Method => out.extend_from_slice(row.method.bytes()),
        Field::CsUri | Field::UUri => out.extend_from_slice(row.uri.bytes()),
        Field::Protocol => out.extend_from_slice(b"HTTP/1.1"),
        Field::Status => out.extend_from_slice(digits.format(row.status).as_bytes()),
        Field::TotalBytes => out.extend_from_slice(digits.format(row.total).as_bytes()),
        Field::EntityBytes => out.extend_from_slice(digits.format(row.entity).as_bytes()),
        Field::Ccid => add_optional(out, &row.ccid),
        Field::Cached => out.extend_from_slice(cached_text(row.cached)),
        Field::Header(_) => add_extra(out, row, headers),
    }
}

// adds the value of the header with this number, counted from 0
fn add_extra(out: &mut Vec<u8>, row: &Row, number: usize) -> Result<(), AllocError>
    ensures { OnOk result (out.new.items ≡ out.old.items ++ optional_text (extra_at row.now.extra number)) }
{
    match row.extra.as_slice().get(number) {
        Some(extra) => add_optional(out, extra),
        None => add_optional(out, &None),
    }
}

// adds seconds with three decimals
#[tactic(auto, unfolding(crate::specs::Row::seconds_text))]
fn add_seconds(out: &mut Vec<u8>, milliseconds: u64) -> Result<(), AllocError>
    ensures { OnOk result (out.new.items ≡ out.old.items ++ seconds_text milliseconds) }
{
    let mut digits = Buffer::new();
    out.extend_from_slice(digits.format(milliseconds / 1000).as_bytes())?;
    out.extend_from_slice(b".")?;
    out.extend_from_slice(&three_digits(milliseconds % 1000))
}

#[tactic(auto, unfolding(crate::specs::Row::group_text))]
fn add_group(out: &mut Vec<u8>, asn: Option<u32>) -> Result<(), AllocError>
    ensures { OnOk result (out.new.items ≡ out.old.items ++ group_text asn) }
{
    match asn {
        Some(number) => {
            let mut digits = Buffer::new();
            out.extend_from_slice(b"as")?;
            out.extend_from_slice(digits.format(number).as_bytes())
        }
        None => out.extend_from_slice(b"-"),
    }
}

// adds a value in quotes, or `-` where there is none
#[tactic(auto, unfolding(crate::specs::Row::optional_text))]
fn add_optional(out: &mut Vec<u8>, value: &Option<Text>) -> Result<(), AllocError>
    ensures { OnOk result (out.new.items ≡ out.old.items ++ optional_text value.now) }
{
    match value {
        Some(text) => {
            out.extend_from_slice(b"\"")?;
            add_doubled(out, text.bytes())?;
            out.extend_from_slice(b"\"")
        }
        None => out.extend_from_slice(b"-"),
    }
}

// adds the bytes, with each `"` doubled
fn add_doubled(out: &mut Vec<u8>, bytes: &[u8]) -> Result<(), AllocError>
    ensures { OnOk result (out.new.items ≡ out.old.items ++ flat_map doubled bytes.now) }
{
    'bytes: for byte in bytes {
        add_byte(out, *byte)?;
    }
    Ok(())
}

fn add_byte(out: &mut Vec<u8>, byte: u8) -> Result<(), AllocError>
    ensures { OnOk result (out.new.items ≡ out.old.items ++ doubled byte) }
{
    if byte == b'"' {
        out.extend_from_slice(b"\"\"")
    } else {
        out.extend_from_slice(&[byte])
    }
}

#[tactic(auto, unfolding(crate::specs::Row::cached_text))]
fn cached_text(cached: bool) -> &'static [u8]
    ensures { result.now ≡ cached_text cached }
{
    if cached { b"1" } else { b"0" }
}
