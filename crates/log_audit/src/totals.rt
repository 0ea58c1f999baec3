//! Sums over the records of a log file.

ghost use Rattle.std.specs.Prelude.{◌≡◌, if◌then◌else◌};
ghost use Rattle.log_audit.specs.Totals.{is_cached, is_entity, is_one, is_total, number_in, ones_below, sum_below, value_after, value_in};

use crate::line::{first_value, is};
use cdni_log::{Field, FieldList};
use listing::{Text, read_decimal};

// the sums over records
#[derive(Clone, Copy)]
pub(crate) struct Sums {
    pub total: u128,
    pub entity: u128,
    pub cached: u64,
}

// the values of a record that are summed, empty where they are not there
#[derive(Clone, Copy)]
struct Amounts<'a> {
    total: &'a [u8],
    entity: &'a [u8],
    cached: &'a [u8],
}

// the sums over these records
pub(crate) fn sums_of(fields: &[Field], records: &[Text]) -> Sums
    ensures total { result.total ≡ sum_below is_total fields.now records.now }
    ensures entity { result.entity ≡ sum_below is_entity fields.now records.now }
    ensures cached { result.cached ≡ ones_below is_cached fields.now records.now }
{
    let mut total: u128 = 0;
    let mut entity: u128 = 0;
    let mut cached: u64 = 0;
    'records: for record in records {
        let amounts = amounts_of(fields, record.bytes());
        total += number_in(amounts.total) as u128;
        entity += number_in(amounts.entity) as u128;
        cached += ones_in(amounts.cached);
    }
    Sums {
        total,
        entity,
        cached,
    }
}

// the values of the line of a record that are summed
fn amounts_of<'a>(fields: &[Field], line: &'a [u8]) -> Amounts<'a>
    ensures total { result.total.now ≡ value_in is_total fields.now line.now }
    ensures entity { result.entity.now ≡ value_in is_entity fields.now line.now }
    ensures cached { result.cached.now ≡ value_in is_cached fields.now line.now }
{
    let mut amounts = Amounts {
        total: b"",
        entity: b"",
        cached: b"",
    };
    let mut left = Some(line);
    'fields: for field in fields {
        let Some(values) = left else {
            return amounts;
        };
        let (value, others) = first_value(values);
        amounts = amounts_after(amounts, field, value);
        left = others;
    }
    amounts
}

// the values with this one of this field
fn amounts_after<'a>(amounts: Amounts<'a>, field: &Field, value: &'a [u8]) -> Amounts<'a>
    ensures total { result.total.now ≡ value_after is_total amounts.entry.total.now field.now value.now }
    ensures entity { result.entity.now ≡ value_after is_entity amounts.entry.entity.now field.now value.now }
    ensures cached { result.cached.now ≡ value_after is_cached amounts.entry.cached.now field.now value.now }
{
    match field {
        Field::TotalBytes => Amounts {
            total: value,
            ..amounts
        },
        Field::EntityBytes => Amounts {
            entity: value,
            ..amounts
        },
        Field::Cached => Amounts {
            cached: value,
            ..amounts
        },
        _ => amounts,
    }
}

// the number that is written, 0 where none is
fn number_in(text: &[u8]) -> u64
    ensures { result ≡ number_in text.now }
{
    read_decimal(text).unwrap_or(0)
}

// 1 where that is what is written
fn ones_in(text: &[u8]) -> u64
    ensures { result ≡ (if is_one text.now then 1 else 0) }
{
    if is(b"1", text) { 1 } else { 0 }
}
