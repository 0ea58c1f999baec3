//! Properties of a metadata object.

ghost use Rattle.std.specs.Prelude.{◌≡◌, string_bytes, Ok};
ghost use Rattle.json_read.specs.Path.{IsName};
ghost use Rattle.metadata_objects.specs.Reading.{Gives, counted, no_link, IsOutOfRange, needed_text, flag_or};

use crate::fault::MetaFault;
use json_read::{FieldCause, FieldFault, JsonPath, JsonValue, flag_at, maybe, need, text_at};
use std::alloc::Global;

/// The most objects of a HostIndex.
pub const OBJECTS_MAX: u32 = 10000;

// one object more than `count`
pub(crate) fn one_more(count: u32) -> Result<u32, MetaFault>
    ensures { result ≡ counted count }
{
    if count < OBJECTS_MAX {
        Ok(count + 1)
    } else {
        Err(MetaFault::TooMany {
            n: OBJECTS_MAX as usize + 1,
        })
    }
}

// refuses a Link
pub(crate) fn refuse_link<V: JsonValue>(
    alloc: Global,
    value: &V,
    path: &JsonPath,
) -> Result<(), MetaFault>
    ensures { Gives (λ nothing. nothing) result (no_link path.now (V.seen value.now)) }
{
    if value.get("href").is_some() {
        return Err(MetaFault::Link {
            path: path.copy(alloc)?,
        });
    }
    Ok(())
}

// the fault of a text out of its range at the property `name` of the object at `path`
pub(crate) fn out_of_range(alloc: Global, path: &JsonPath, name: &str) -> MetaFault
    requires { IsName name.now }
    ensures { IsOutOfRange path.now name.now result }
{
    match path.child(alloc, name) {
        Ok(path) => MetaFault::Field(FieldFault {
            path,
            cause: FieldCause::OutOfRange,
        }),
        Err(_) => MetaFault::Memory,
    }
}

// the text that must stand at the property `name`
pub(crate) fn text<V: JsonValue>(
    alloc: Global,
    value: &V,
    path: &JsonPath,
    name: &str,
) -> Result<String, MetaFault>
    requires { IsName name.now }
    ensures { Gives (λ text. string_bytes text) result (needed_text path.now name.now (V.seen value.now)) }
{
    let member = need(alloc, value, path, name)?;
    Ok(text_at(alloc, member, &path.child(alloc, name)?)?)
}

// the flag at the property `name`, or `absent` where it is not there
pub(crate) fn flag<V: JsonValue>(
    alloc: Global,
    value: &V,
    path: &JsonPath,
    name: &str,
    absent: bool,
) -> Result<bool, MetaFault>
    requires { IsName name.now }
    ensures { Gives (λ flag. flag) result (flag_or path.now name.now absent (V.seen value.now)) }
{
    match maybe(alloc, value, path, name)? {
        Some(member) => Ok(flag_at(alloc, member, &path.child(alloc, name)?)?),
        None => Ok(absent),
    }
}
