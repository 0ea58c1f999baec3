//! Lists of a status resource, as JSON.

ghost use Rattle.std.specs.Prelude.{◌≡◌, ◌++◌, false, IfOk, OnOk};
ghost use Rattle.serde_json.specs.Data.{array, string};
ghost use Rattle.serde_json.specs.Written.{comma_if, compact_text, items_text};
ghost use Rattle.trigger_status.specs.Items.{each_as, pattern_data, url_at, url_data};
ghost use Rattle.trigger_status.specs.Write.{AddsMember, AddsOne};

use crate::write::{add_comma, add_flag_member, add_name, add_quoted, add_text_member, end_object};
use listing::Text;
use std::alloc::AllocError;
use trigger_command::{PatternItem, UrlItem};

// adds a list of texts
fn add_texts(out: &mut Vec<u8>, texts: &[Text]) -> Result<(), AllocError>
    ensures { OnOk result (out.new.items ≡ out.old.items ++ compact_text (array (each_as string texts.now))) }
{
    out.extend_from_slice(b"[")?;
    add_text_items(out, texts)
}

fn add_text_items(out: &mut Vec<u8>, texts: &[Text]) -> Result<(), AllocError>
    ensures { OnOk result (out.new.items ≡ out.old.items ++ items_text false (each_as string texts.now)) }
{
    let mut later = false;
    'items: for i in 0..texts.len() {
        add_text(out, later, &texts[i])?;
        later = true;
    }
    out.extend_from_slice(b"]")
}

fn add_text(out: &mut Vec<u8>, later: bool, text: &Text) -> Result<(), AllocError>
    ensures { OnOk result (out.new.items ≡ out.old.items ++ (comma_if later ++ compact_text (string text.now))) }
{
    add_comma(out, later)?;
    add_quoted(out, text.bytes())
}

// adds a list of URLs
fn add_urls(out: &mut Vec<u8>, urls: &[UrlItem]) -> Result<(), AllocError>
    ensures { OnOk result (out.new.items ≡ out.old.items ++ compact_text (array (each_as url_data urls.now))) }
{
    out.extend_from_slice(b"[")?;
    add_url_items(out, urls)
}

fn add_url_items(out: &mut Vec<u8>, urls: &[UrlItem]) -> Result<(), AllocError>
    ensures { OnOk result (out.new.items ≡ out.old.items ++ items_text false (each_as url_data urls.now)) }
{
    let mut later = false;
    'items: for i in 0..urls.len() {
        add_url(out, later, &urls[i])?;
        later = true;
    }
    out.extend_from_slice(b"]")
}

fn add_url(out: &mut Vec<u8>, later: bool, url: &UrlItem) -> Result<(), AllocError>
    ensures { OnOk result (out.new.items ≡ out.old.items ++ (comma_if later ++ compact_text (url_data url.now))) }
{
    add_comma(out, later)?;
    add_quoted(out, url.text.bytes())
}

// adds a list of the URLs at these places of a list
fn add_places(out: &mut Vec<u8>, urls: &[UrlItem], places: &[u32]) -> Result<(), AllocError>
    ensures { OnOk result (out.new.items ≡ out.old.items
        ++ compact_text (array (each_as (url_at urls.now) places.now))) }
{
    out.extend_from_slice(b"[")?;
    add_place_items(out, urls, places)
}

fn add_place_items(out: &mut Vec<u8>, urls: &[UrlItem], places: &[u32]) -> Result<(), AllocError>
    ensures { OnOk result (out.new.items ≡ out.old.items
        ++ items_text false (each_as (url_at urls.now) places.now)) }
{
    let mut later = false;
    'items: for i in 0..places.len() {
        add_place(out, later, urls, places[i])?;
        later = true;
    }
    out.extend_from_slice(b"]")
}

fn add_place(out: &mut Vec<u8>, later: bool, urls: &[UrlItem], place: u32) -> Result<(), AllocError>
    ensures { OnOk result (out.new.items ≡ out.old.items ++ (comma_if later ++ compact_text (url_at urls.now place))) }
{
    match urls.get(place as usize) {
        Some(url) => add_url(out, later, url),
        None => {
            add_comma(out, later)?;
            add_quoted(out, b"")
        }
    }
}

// adds a list of patterns
fn add_patterns(out: &mut Vec<u8>, patterns: &[PatternItem]) -> Result<(), AllocError>
    ensures { OnOk result (out.new.items ≡ out.old.items ++ compact_text (array (each_as pattern_data patterns.now))) }
{
    out.extend_from_slice(b"[")?;
    add_pattern_items(out, patterns)
}

fn add_pattern_items(out: &mut Vec<u8>, patterns: &[PatternItem]) -> Result<(), AllocError>
    ensures { OnOk result (out.new.items ≡ out.old.items ++ items_text false (each_as pattern_data patterns.now)) }
{
    let mut later = false;
    'items: for i in 0..patterns.len() {
        add_pattern(out, later, &patterns[i])?;
        later = true;
    }
    out.extend_from_slice(b"]")
}

fn add_pattern(out: &mut Vec<u8>, later: bool, pattern: &PatternItem) -> Result<(), AllocError>
    ensures { OnOk result (out.new.items ≡ out.old.items
        ++ (comma_if later ++ compact_text (pattern_data pattern.now))) }
{
    add_comma(out, later)?;
    out.extend_from_slice(b"{")?;
    add_flag_member(out, false, b"case-sensitive", pattern.case)?;
    add_flag_member(out, true, b"match-query-string", pattern.query)?;
    add_text_member(out, true, b"pattern", pattern.text.bytes())?;
    end_object(out)?;
    Ok(())
}

// adds a member with a list of URLs
pub(crate) fn add_url_member(
    out: &mut Vec<u8>,
    later: bool,
    name: &[u8],
    urls: &[UrlItem],
) -> Result<(), AllocError>
    ensures { OnOk result (AddsOne out.old.items later out.new.items name.now (array (each_as url_data urls.now))) }
{
    add_name(out, later, name)?;
    add_urls(out, urls)?;
    Ok(())
}

// adds a member with a list of the URLs at these places
pub(crate) fn add_place_member(
    out: &mut Vec<u8>,
    later: bool,
    name: &[u8],
    urls: &[UrlItem],
    places: &[u32],
) -> Result<(), AllocError>
    ensures { OnOk result (AddsOne out.old.items later out.new.items name.now
        (array (each_as (url_at urls.now) places.now))) }
{
    add_name(out, later, name)?;
    add_places(out, urls, places)?;
    Ok(())
}

// adds a member with these texts, unless there are none, and tells whether anything stands before the next member
pub(crate) fn add_text_list(
    out: &mut Vec<u8>,
    later: bool,
    name: &[u8],
    texts: &[Text],
) -> Result<bool, AllocError>
    ensures { IfOk result (AddsMember out.old.items later out.new.items name.now (each_as string texts.now)) }
{
    if texts.is_empty() {
        return Ok(later);
    }
    add_name(out, later, name)?;
    add_texts(out, texts)?;
    Ok(true)
}

// the same of URLs
pub(crate) fn add_url_list(
    out: &mut Vec<u8>,
    later: bool,
    name: &[u8],
    urls: &[UrlItem],
) -> Result<bool, AllocError>
    ensures { IfOk result (AddsMember out.old.items later out.new.items name.now (each_as url_data urls.now)) }
{
    if urls.is_empty() {
        return Ok(later);
    }
    add_name(out, later, name)?;
    add_urls(out, urls)?;
    Ok(true)
}

// the same of patterns
pub(crate) fn add_pattern_list(
    out: &mut Vec<u8>,
    later: bool,
    name: &[u8],
    patterns: &[PatternItem],
) -> Result<bool, AllocError>
    ensures { IfOk result (AddsMember out.old.items later out.new.items name.now (each_as pattern_data patterns.now)) }
{
    if patterns.is_empty() {
        return Ok(later);
    }
    add_name(out, later, name)?;
    add_patterns(out, patterns)?;
    Ok(true)
}
