//! The value of MI.LocationACL (RFC 8006, section 4.2.2).

ghost use Rattle.std.specs.Prelude.{◌≡◌, IfOk, codes, map, option_map};
ghost use Rattle.serde_json.specs.View.{items_of};
ghost use Rattle.metadata_objects.specs.Items.{each_of, Adds};
ghost use Rattle.metadata_objects.specs.Lists.{footprint_value_in, footprints_in, joined, listed_in, location_rule_in, locations_in};

use crate::items::Item;
use crate::lists::{action_of, rules};
use cdni_base::Listing;
use json_read::JsonValue;
use location_acl::{Footprint, FootprintList, FootprintType, LocationAcl, LocationRule};
use std::alloc::{AllocError, Global};

// the location list of a value, if it reads
#[tactic(auto, unfolding(crate::specs::Lists::locations_in))]
pub(crate) fn locations_of<V: JsonValue>(
    alloc: Global,
    value: &V,
) -> Result<Option<LocationAcl>, AllocError>
    ensures { IfOk result (λ found. found ≡ locations_in (V.seen value.now)) }
{
    match rules::<LocationRule, V>(alloc, value, "locations")? {
        Some(rules) => Ok(LocationAcl::new(rules)),
        None => Ok(None),
    }
}

#[tactic(auto, unfolding(crate::specs::Lists::location_rule_in))]
fn location_rule_of<V: JsonValue>(
    alloc: Global,
    value: &V,
) -> Result<Option<LocationRule>, AllocError>
    ensures { IfOk result (λ found. found ≡ location_rule_in (V.seen value.now)) }
{
    let Some(footprints) = footprints_of(alloc, value)? else {
        return Ok(None);
    };
    let Some(allow) = action_of(value) else {
        return Ok(None);
    };
    Ok(Some(LocationRule { footprints, allow }))
}

// the footprints of all the objects of a rule, in order, if each of them reads
#[tactic(auto, unfolding(crate::specs::Lists::listed_in))]
fn footprints_of<V: JsonValue>(
    alloc: Global,
    value: &V,
) -> Result<Option<FootprintList>, AllocError>
    ensures { IfOk result (λ found. found ≡ option_map joined (listed_in footprints_in (codes "footprints")
        (V.seen value.now))) }
{
    match value.get("footprints").and_then(V::as_array) {
        Some(items) => joined(alloc, items),
        None => Ok(None),
    }
}

fn joined<V: JsonValue>(alloc: Global, items: &[V]) -> Result<Option<FootprintList>, AllocError>
    ensures { IfOk result (λ found. found ≡ option_map joined (each_of footprints_in (items_of
        (map V.seen items.now)))) }
{
    let mut all = Listing::new(alloc);
    'items: for i in 0..items.len() {
        if !add_footprints(&mut all, &items[i])? {
            return Ok(None);
        }
    }
    Ok(Some(all))
}

// adds the values of a footprint, each as a footprint of its own, and tells whether they read
#[tactic(auto, unfolding(crate::specs::Lists::footprints_in))]
fn add_footprints<V: JsonValue>(all: &mut FootprintList, value: &V) -> Result<bool, AllocError>
    ensures { IfOk result (λ added. Adds all.old added all.new (footprints_in (V.seen value.now))) }
{
    let Some(kind) = value.get("footprint-type").and_then(V::as_str) else {
        return Ok(false);
    };
    let Some(items) = value.get("footprint-value").and_then(V::as_array) else {
        return Ok(false);
    };
    let Some(kind) = FootprintType::read(kind.as_bytes()) else {
        return Ok(false);
    };
    add_values(all, kind, items)
}

// adds the values of footprints of this type, and tells whether each of them read
fn add_values<V: JsonValue>(
    all: &mut FootprintList,
    kind: FootprintType,
    items: &[V],
) -> Result<bool, AllocError>
    ensures { IfOk result (λ added. Adds all.old added all.new (each_of (footprint_value_in kind) (items_of
        (map V.seen items.now)))) }
{
    'items: for i in 0..items.len() {
        let Some(footprint) = value_of(kind, &items[i]) else {
            return Ok(false);
        };
        all.push(footprint)?;
    }
    Ok(true)
}

#[tactic(auto, unfolding(crate::specs::Lists::footprint_value_in))]
fn value_of<V: JsonValue>(kind: FootprintType, value: &V) -> Option<Footprint>
    ensures { result ≡ footprint_value_in kind (V.seen value.now) }
{
    match value.as_str() {
        Some(text) => Footprint::read_as(kind, text.as_bytes()),
        None => None,
    }
}

impl Item for LocationRule {
    ghost use Rattle.metadata_objects.specs.Lists.{location_rule_in};

    ghost reads = { location_rule_in };

    fn read_item<V: JsonValue>(
        alloc: Global,
        value: &V,
    ) -> Result<Option<LocationRule>, AllocError> {
        location_rule_of(alloc, value)
    }
}
