//! Fields of a JSON value.

ghost use Rattle.std.specs.Prelude.{◌≡◌, map, option_map, string_bytes};
ghost use Rattle.serde_json.specs.View.{items_of as listed};
ghost use Rattle.json_read.specs.Path.{IsName};
ghost use Rattle.json_read.specs.Field.{Gives, IsFaultAt, needed, looked_up, text_of, items_of, flag_of, whole_of};

use crate::fault::{FieldCause, FieldFault, JsonFault};
use crate::path::JsonPath;
use crate::value::JsonValue;
use std::alloc::Global;

// the fault at this place
fn fault_at(alloc: Global, path: &JsonPath, cause: FieldCause) -> JsonFault
    ensures { IsFaultAt path.now cause result }
{
    match path.copy(alloc) {
        Ok(path) => JsonFault::Field(FieldFault { path, cause }),
        Err(_) => JsonFault::Memory,
    }
}

/// The member `name` of the object `value`, which stands at `path`.
///
/// # Errors
/// `WrongKind` at `path` where the value is no object, `Missing` at the member where there is none, or want of memory.
pub fn need<'a, V: JsonValue>(
    alloc: Global,
    value: &'a V,
    path: &JsonPath,
    name: &str,
) -> Result<&'a V, JsonFault>
    requires { IsName name.now }
    ensures { Gives (λ v. V.seen v.now) result (needed path.now name.now (V.seen value.now)) }
{
    match maybe(alloc, value, path, name)? {
        Some(member) => Ok(member),
        None => Err(fault_at(alloc, &path.child(alloc, name)?, FieldCause::Missing)),
    }
}

/// The member `name` of the object `value`, which stands at `path`, if it has one.
///
/// # Errors
/// `WrongKind` at `path` where the value is no object, or want of memory.
pub fn maybe<'a, V: JsonValue>(
    alloc: Global,
    value: &'a V,
    path: &JsonPath,
    name: &str,
) -> Result<Option<&'a V>, JsonFault>
    ensures { Gives (λ found. option_map (λ v. V.seen v.now) found) result (looked_up path.now name.now
        (V.seen value.now)) }
{
    if !value.is_object() {
        return Err(fault_at(alloc, path, FieldCause::WrongKind));
    }
    Ok(value.get(name))
}

/// A copy of the text `value`, which stands at `path`.
///
/// # Errors
/// `WrongKind` at `path` where the value is no text, or want of memory.
pub fn text_at<V: JsonValue>(alloc: Global, value: &V, path: &JsonPath) -> Result<String, JsonFault>
    ensures { Gives (λ text. string_bytes text) result (text_of path.now (V.seen value.now)) }
{
    match value.as_str() {
        Some(text) => Ok(String::from_str(alloc, text)?),
        None => Err(fault_at(alloc, path, FieldCause::WrongKind)),
    }
}

/// The items of the list `value`, which stands at `path`.
///
/// # Errors
/// `WrongKind` at `path` where the value is no list, or want of memory.
pub fn list_at<'a, V: JsonValue>(
    alloc: Global,
    value: &'a V,
    path: &JsonPath,
) -> Result<&'a [V], JsonFault>
    ensures { Gives (λ items. listed (map V.seen items.now)) result (items_of path.now (V.seen value.now)) }
{
    match value.as_array() {
        Some(items) => Ok(items),
        None => Err(fault_at(alloc, path, FieldCause::WrongKind)),
    }
}

/// The flag `value`, which stands at `path`.
///
/// # Errors
/// `WrongKind` at `path` where the value is neither true nor false, or want of memory.
pub fn flag_at<V: JsonValue>(alloc: Global, value: &V, path: &JsonPath) -> Result<bool, JsonFault>
    ensures { Gives (λ flag. flag) result (flag_of path.now (V.seen value.now)) }
{
    match value.as_bool() {
        Some(flag) => Ok(flag),
        None => Err(fault_at(alloc, path, FieldCause::WrongKind)),
    }
}

/// The whole number `value`, which stands at `path`, up to `max`.
///
/// # Errors
/// `WrongKind` at `path` where the value is no whole number from 0 to 2^64 - 1, `OutOfRange` where it is above `max`,
/// or want of memory.
pub fn whole_at<V: JsonValue>(
    alloc: Global,
    value: &V,
    path: &JsonPath,
    max: u64,
) -> Result<u64, JsonFault>
    ensures { Gives (λ n. n) result (whole_of path.now max (V.seen value.now)) }
{
    match value.as_u64() {
        Some(number) if number <= max => Ok(number),
        Some(_) => Err(fault_at(alloc, path, FieldCause::OutOfRange)),
        None => Err(fault_at(alloc, path, FieldCause::WrongKind)),
    }
}
