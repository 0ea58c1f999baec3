//! Reading a JSON text into a value that borrows its texts and takes little memory.

ghost use Rattle.std.specs.Prelude.{◌≡◌, ◌<◌, ◌==◌, length, slice_index, is_some, option_and_then, IsTrue, true, false};
ghost use Rattle.std.specs.Float.{binary64, float_is_finite};
ghost use Rattle.fast_float.specs.Text.{nearest};
ghost use Rattle.json.specs.Value.{value_view, items_view, members_view};
ghost use Rattle.serde_json.specs.Find.{as_u64};
ghost use Rattle.serde_json.specs.Read.{number_of, number_from};
ghost use Rattle.json_read.specs.Borrowed.{data_of, fits, items_fit, members_fit, number_in};
ghost use Rattle.json_read.specs.Text.{Parses};

use crate::fault::ParseFault;
use fast_float::Numeral;
use json::{Error, Reader, Scratch, Value};
use std::alloc::Global;

/// How deep lists and objects nest.
const LEVELS: usize = 127;

/// Reads a JSON text (RFC 8259) of at most 127 levels of lists and objects into a value that borrows its texts from the
/// bytes and from the scratch.
///
/// # Errors
/// `NotJson` exactly where the bytes are none, or want of memory.
pub fn parse_borrowed<'a>(
    alloc: Global,
    bytes: &'a [u8],
    scratch: &'a mut Scratch,
) -> Result<Value<'a>, ParseFault>
    ensures { Parses (λ v. data_of (value_view v)) bytes.now result }
{
    match simdutf8::compat::from_utf8(bytes) {
        Ok(text) => read_text(alloc, text, scratch),
        Err(_) => Err(ParseFault::NotJson),
    }
}

fn read_text<'a>(
    alloc: Global,
    text: &'a str,
    scratch: &'a mut Scratch,
) -> Result<Value<'a>, ParseFault>
    ensures { Parses (λ v. data_of (value_view v)) text.now result }
{
    let Ok(mut reader) = Reader::new(text, scratch) else {
        return Err(ParseFault::Memory);
    };
    let value = match Value::read(alloc, &mut reader, LEVELS) {
        Ok(value) => value,
        Err(Error::Invalid) => return Err(ParseFault::NotJson),
        Err(_) => return Err(ParseFault::Memory),
    };
    if reader.next().is_some() {
        return Err(ParseFault::NotJson);
    }
    if !fits(&value) {
        return Err(ParseFault::NotJson);
    }
    Ok(value)
}

// whether each number of the value is one that `serde_json` holds
#[cycle(fits)]
fn fits(value: &Value<'_>) -> bool
    ensures { result ≡ fits (value_view value.now) }
{
    match value {
        Value::Number(text) => is_number(text),
        Value::Array(items) => items_fit(items),
        Value::Object(members) => members_fit(members),
        _ => true,
    }
}

#[cycle(fits)]
fn items_fit(items: &Vec<Value<'_>>) -> bool
    ensures { result ≡ items_fit (items_view items.now.items) }
{
    'items: for item in items {
        if !fits(item) {
            return false;
        }
    }
    true
}

#[cycle(fits)]
fn members_fit(members: &Vec<(&str, Value<'_>)>) -> bool
    ensures { result ≡ members_fit (members_view members.now.items) }
{
    'members: for member in members {
        if !fits(&member.1) {
            return false;
        }
    }
    true
}

// whether the number of a JSON text is one that `serde_json` holds: a whole one of 64 bits, or a finite float
fn is_number(text: &str) -> bool
    ensures { result ≡ is_some (number_of text.now) }
{
    let bytes = text.as_bytes();
    if has_minus(bytes) {
        is_negative_number(&Numeral::scan(&bytes[1..]))
    } else {
        is_unsigned_number(&Numeral::scan(bytes))
    }
}

fn is_unsigned_number(numeral: &Numeral<'_>) -> bool
    ensures { result ≡ is_some (number_from false numeral.now) }
{
    whole_unsigned_number(numeral).is_some() || numeral.to_float::<f64>(false).is_finite()
}

fn is_negative_number(numeral: &Numeral<'_>) -> bool
    ensures { result ≡ is_some (number_from true numeral.now) }
{
    match numeral.to_i64(true) {
        Some(number) if number < 0 => true,
        _ => numeral.to_float::<f64>(true).is_finite(),
    }
}

// the number of a JSON text, where it is a whole one from 0 to 2^64 - 1 without point and exponent
pub(crate) fn whole_number(text: &str) -> Option<u64>
    ensures { result ≡ as_u64 (number_in text.now) }
{
    let bytes = text.as_bytes();
    if has_minus(bytes) {
        None
    } else {
        whole_unsigned_number(&Numeral::scan(bytes))
    }
}

fn whole_unsigned_number(numeral: &Numeral<'_>) -> Option<u64>
    ensures { result ≡ option_and_then as_u64 (number_from false numeral.now) }
{
    numeral.to_u64()
}

fn has_minus(bytes: &[u8]) -> bool
    ensures value { result ≡ (slice_index bytes.now 0 == 45) }
    ensures some { IsTrue result → 0 < length bytes.now }
{
    !bytes.is_empty() && bytes[0] == b'-'
}
