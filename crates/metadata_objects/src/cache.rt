//! The values of MI.Cache and MI.Grouping (RFC 8006, sections 4.2.6 and 4.2.8).

ghost use Rattle.std.specs.Prelude.{◌≡◌, IfOk, map};
ghost use Rattle.std.specs.List.{list_all};
ghost use Rattle.std.specs.Str.{str_to_ascii_lowercase};
ghost use Rattle.metadata_objects.specs.Cache.{ignored_names, ignored_in, is_ccid_byte, ccid_of, grouping_in};

use crate::items::each;
use cdni_base::{Ignored, Listing, Text, TextList};
use json_read::JsonValue;
use std::alloc::{AllocError, Global};

/// The most bytes of a ccid.
pub const CCID_MAX: usize = 255;

// which part of the query does not count, if the value reads
#[tactic(auto, unfolding(crate::specs::Cache::ignored_in))]
pub(crate) fn ignored_of<V: JsonValue>(
    alloc: Global,
    value: &V,
) -> Result<Option<Ignored>, AllocError>
    ensures { IfOk result (λ found. found ≡ ignored_in (V.seen value.now)) }
{
    if !value.is_object() {
        return Ok(None);
    }
    let Some(member) = value.get("ignore-query-string") else {
        return Ok(Some(Ignored::None));
    };
    let Some(items) = member.as_array() else {
        return Ok(None);
    };
    match each::<Text, V>(alloc, items)? {
        Some(names) => Ok(Some(ignored_by(alloc, &names)?)),
        None => Ok(None),
    }
}

// these names, or all of the query where there are none
fn ignored_by(alloc: Global, names: &TextList) -> Result<Ignored, AllocError>
    ensures { IfOk result (λ ignored. ignored ≡ ignored_names names.now) }
{
    if names.len() == 0 {
        return Ok(Ignored::All);
    }
    Ok(Ignored::Names(lowered_names(alloc, names.as_slice())?))
}

fn lowered_names(alloc: Global, names: &[Text]) -> Result<TextList, AllocError>
    ensures { IfOk result (λ list. list ≡ map str_to_ascii_lowercase names.now) }
{
    let mut list = Listing::new(alloc);
    'names: for name in names {
        list.push(lowered(alloc, name)?)?;
    }
    Ok(list)
}

fn lowered(alloc: Global, text: &Text) -> Result<Text, AllocError>
    ensures { IfOk result (λ lower. lower ≡ str_to_ascii_lowercase text.now) }
{
    Ok(Text::from_vec(
        text.bytes()
            .iter()
            .map(|byte| byte.to_ascii_lowercase())
            .collect(alloc)?,
    ))
}

// the ccid of a group, which may be absent, if the value reads
#[tactic(auto, unfolding(crate::specs::Cache::grouping_in))]
pub(crate) fn grouping_of<V: JsonValue>(
    alloc: Global,
    value: &V,
) -> Result<Option<Option<Text>>, AllocError>
    ensures { IfOk result (λ found. found ≡ grouping_in (V.seen value.now)) }
{
    if !value.is_object() {
        return Ok(None);
    }
    let Some(member) = value.get("ccid") else {
        return Ok(Some(None));
    };
    let Some(text) = member.as_str() else {
        return Ok(None);
    };
    match ccid_at(alloc, text.as_bytes())? {
        Some(ccid) => Ok(Some(Some(ccid))),
        None => Ok(None),
    }
}

// a ccid of 1 to 255 bytes
#[tactic(auto, unfolding(crate::specs::Cache::ccid_of))]
fn ccid_at(alloc: Global, text: &[u8]) -> Result<Option<Text>, AllocError>
    ensures { IfOk result (λ found. found ≡ ccid_of text.now) }
{
    if text.is_empty() || text.len() > CCID_MAX || !has_ccid_bytes(text) {
        return Ok(None);
    }
    Ok(Some(Text::of(alloc, text)?))
}

fn has_ccid_bytes(text: &[u8]) -> bool
    ensures { result ≡ list_all is_ccid_byte text.now }
{
    text.iter().all(|byte| is_ccid_byte(*byte))
}

fn is_ccid_byte(byte: u8) -> bool
    ensures { result ≡ is_ccid_byte byte }
{
    byte >= 32 && byte != 127
}
