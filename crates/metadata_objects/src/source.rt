//! The value of MI.SourceMetadata (RFC 8006, section 4.2.1).

ghost use Rattle.std.specs.Prelude.{◌≡◌, IfOk, nat_le};
ghost use Rattle.metadata_objects.specs.declared.source.TheConstants.{ENDPOINTS_MAX};
ghost use Rattle.metadata_objects.specs.Source.{endpoint_in, source_in, sources_in, listed_sources, few_sources, endpoint_count};

use crate::items::{Item, each};
use cdni_base::{Endpoint, EndpointFault, Listing, SourceItem, SourceItemList, Text};
use json_read::JsonValue;
use std::alloc::{AllocError, Global};

/// The most endpoints that the sources of one object have together.
pub const ENDPOINTS_MAX: usize = 16;

// the sources of the value, if it reads
#[tactic(auto, unfolding(crate::specs::Source::sources_in))]
pub(crate) fn sources_of<V: JsonValue>(
    alloc: Global,
    value: &V,
) -> Result<Option<SourceItemList>, AllocError>
    ensures { IfOk result (λ found. found ≡ sources_in (V.seen value.now)) }
{
    if !value.is_object() {
        return Ok(None);
    }
    let Some(list) = value.get("sources") else {
        return Ok(Some(Listing::new(alloc)));
    };
    let Some(items) = list.as_array() else {
        return Ok(None);
    };
    match each::<SourceItem, V>(alloc, items)? {
        Some(sources) => Ok(few(sources)),
        None => Ok(None),
    }
}

// these sources, where they have at most 16 endpoints together
fn few(sources: SourceItemList) -> Option<SourceItemList>
    ensures { result ≡ few_sources sources }
{
    if count_endpoints(&sources) <= ENDPOINTS_MAX {
        Some(sources)
    } else {
        None
    }
}

// how many endpoints the sources have together, or 17 where they have more
fn count_endpoints(sources: &SourceItemList) -> usize
    ensures { nat_le result ENDPOINTS_MAX ≡ nat_le (endpoint_count sources.now) ENDPOINTS_MAX }
{
    let mut count = 0;
    'sources: for source in sources.as_slice() {
        if source.endpoints.len() > ENDPOINTS_MAX - count {
            return ENDPOINTS_MAX + 1;
        }
        count += source.endpoints.len();
    }
    count
}

#[tactic(auto, unfolding(crate::specs::Source::source_in))]
fn source_of<V: JsonValue>(alloc: Global, value: &V) -> Result<Option<SourceItem>, AllocError>
    ensures { IfOk result (λ found. found ≡ source_in (V.seen value.now)) }
{
    if value.get("acquisition-auth").is_some() {
        return Ok(None);
    }
    let Some(protocol) = value.get("protocol").and_then(V::as_str) else {
        return Ok(None);
    };
    let Some(items) = value.get("endpoints").and_then(V::as_array) else {
        return Ok(None);
    };
    let Some(endpoints) = each::<Endpoint, V>(alloc, items)? else {
        return Ok(None);
    };
    Ok(Some(SourceItem {
        protocol: Text::of(alloc, protocol.as_bytes())?,
        endpoints,
    }))
}

#[tactic(auto, unfolding(crate::specs::Source::endpoint_in))]
fn endpoint_of<V: JsonValue>(alloc: Global, value: &V) -> Result<Option<Endpoint>, AllocError>
    ensures { IfOk result (λ found. found ≡ endpoint_in (V.seen value.now)) }
{
    let Some(text) = value.as_str() else {
        return Ok(None);
    };
    match Endpoint::read(alloc, text.as_bytes()) {
        Ok(endpoint) => Ok(Some(endpoint)),
        Err(EndpointFault::Memory) => Err(AllocError),
        Err(_) => Ok(None),
    }
}

impl Item for SourceItem {
    ghost use Rattle.metadata_objects.specs.Source.{source_in};

    ghost reads = { source_in };

    fn read_item<V: JsonValue>(alloc: Global, value: &V) -> Result<Option<SourceItem>, AllocError> {
        source_of(alloc, value)
    }
}

impl Item for Endpoint {
    ghost use Rattle.metadata_objects.specs.Source.{endpoint_in};

    ghost reads = { endpoint_in };

    fn read_item<V: JsonValue>(alloc: Global, value: &V) -> Result<Option<Endpoint>, AllocError> {
        endpoint_of(alloc, value)
    }
}
