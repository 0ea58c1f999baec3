//! What the values of the access lists have in common, and those of time windows and protocols (RFC 8006, sections
//! 4.2.2 to 4.2.4).

ghost use Rattle.std.specs.Prelude.{◌≡◌, IfOk, None};
ghost use Rattle.metadata_objects.specs.Lists.{action_in, listed_in, rules_in, seconds_in, window_in, time_rule_in, times_in, protocol_rule_in, protocols_in};

use crate::items::{Item, each};
use cdni_base::{Listing, Text};
use json_read::JsonValue;
use protocol_acl::{ProtocolAcl, ProtocolRule};
use std::alloc::{AllocError, Global};
use time_window::{TimeRule, TimeWindow, TimeWindowAcl};

/// The greatest second of a time window, 2^53.
pub const SECONDS_MAX: u64 = 9007199254740992;

// whether a rule allows, if its action reads; an absent one denies
#[tactic(auto, unfolding(crate::specs::Lists::action_in))]
pub(crate) fn action_of<V: JsonValue>(value: &V) -> Option<bool>
    ensures { result ≡ action_in (V.seen value.now) }
{
    let Some(member) = value.get("action") else {
        return Some(false);
    };
    let word = member.as_str()?;
    match word {
        "allow" => Some(true),
        "deny" => Some(false),
        _ => None,
    }
}

// the items of a property that must be a list, if they read
#[tactic(auto, unfolding(crate::specs::Lists::listed_in))]
pub(crate) fn listed<T: Item, V: JsonValue>(
    alloc: Global,
    value: &V,
    name: &str,
) -> Result<Option<Listing<T>>, AllocError>
    ensures { IfOk result (λ found. found ≡ listed_in T.reads name.now (V.seen value.now)) }
{
    match value.get(name).and_then(V::as_array) {
        Some(items) => each::<T, V>(alloc, items),
        None => Ok(None),
    }
}

// the rules of an object's property, if they read; an absent one gives none
#[tactic(auto, unfolding(crate::specs::Lists::rules_in))]
pub(crate) fn rules<T: Item, V: JsonValue>(
    alloc: Global,
    value: &V,
    name: &str,
) -> Result<Option<Option<Listing<T>>>, AllocError>
    ensures { IfOk result (λ found. found ≡ rules_in T.reads name.now (V.seen value.now)) }
{
    if !value.is_object() {
        return Ok(None);
    }
    let Some(member) = value.get(name) else {
        return Ok(Some(None));
    };
    let Some(items) = member.as_array() else {
        return Ok(None);
    };
    match each::<T, V>(alloc, items)? {
        Some(rules) => Ok(Some(Some(rules))),
        None => Ok(None),
    }
}

// the time list of a value, if it reads
#[tactic(auto, unfolding(crate::specs::Lists::times_in))]
pub(crate) fn times_of<V: JsonValue>(
    alloc: Global,
    value: &V,
) -> Result<Option<TimeWindowAcl>, AllocError>
    ensures { IfOk result (λ found. found ≡ times_in (V.seen value.now)) }
{
    match rules::<TimeRule, V>(alloc, value, "times")? {
        Some(rules) => Ok(TimeWindowAcl::new(rules)),
        None => Ok(None),
    }
}

// the protocol list of a value, if it reads
#[tactic(auto, unfolding(crate::specs::Lists::protocols_in))]
pub(crate) fn protocols_of<V: JsonValue>(
    alloc: Global,
    value: &V,
) -> Result<Option<ProtocolAcl>, AllocError>
    ensures { IfOk result (λ found. found ≡ protocols_in (V.seen value.now)) }
{
    match rules::<ProtocolRule, V>(alloc, value, "protocol-acl")? {
        Some(rules) => Ok(ProtocolAcl::new(rules)),
        None => Ok(None),
    }
}

// the seconds of a property, at most 2^53
#[tactic(auto, unfolding(crate::specs::Lists::seconds_in))]
fn seconds_of<V: JsonValue>(value: &V, name: &str) -> Option<u64>
    ensures { result ≡ seconds_in name.now (V.seen value.now) }
{
    match value.get(name).and_then(V::as_u64) {
        Some(seconds) if seconds <= SECONDS_MAX => Some(seconds),
        _ => None,
    }
}

#[tactic(auto, unfolding(crate::specs::Lists::window_in))]
fn window_of<V: JsonValue>(value: &V) -> Option<TimeWindow>
    ensures { result ≡ window_in (V.seen value.now) }
{
    let start = seconds_of(value, "start")?;
    let end = seconds_of(value, "end")?;
    Some(TimeWindow { start, end })
}

#[tactic(auto, unfolding(crate::specs::Lists::time_rule_in))]
fn time_rule_of<V: JsonValue>(alloc: Global, value: &V) -> Result<Option<TimeRule>, AllocError>
    ensures { IfOk result (λ found. found ≡ time_rule_in (V.seen value.now)) }
{
    let Some(windows) = listed::<TimeWindow, V>(alloc, value, "windows")? else {
        return Ok(None);
    };
    let Some(allow) = action_of(value) else {
        return Ok(None);
    };
    Ok(Some(TimeRule { windows, allow }))
}

#[tactic(auto, unfolding(crate::specs::Lists::protocol_rule_in))]
fn protocol_rule_of<V: JsonValue>(
    alloc: Global,
    value: &V,
) -> Result<Option<ProtocolRule>, AllocError>
    ensures { IfOk result (λ found. found ≡ protocol_rule_in (V.seen value.now)) }
{
    let Some(protocols) = listed::<Text, V>(alloc, value, "protocols")? else {
        return Ok(None);
    };
    let Some(allow) = action_of(value) else {
        return Ok(None);
    };
    Ok(Some(ProtocolRule { protocols, allow }))
}

impl Item for TimeWindow {
    ghost use Rattle.metadata_objects.specs.Lists.{window_in};

    ghost reads = { window_in };

    fn read_item<V: JsonValue>(
        _alloc: Global,
        value: &V,
    ) -> Result<Option<TimeWindow>, AllocError> {
        Ok(window_of(value))
    }
}

impl Item for TimeRule {
    ghost use Rattle.metadata_objects.specs.Lists.{time_rule_in};

    ghost reads = { time_rule_in };

    fn read_item<V: JsonValue>(alloc: Global, value: &V) -> Result<Option<TimeRule>, AllocError> {
        time_rule_of(alloc, value)
    }
}

impl Item for ProtocolRule {
    ghost use Rattle.metadata_objects.specs.Lists.{protocol_rule_in};

    ghost reads = { protocol_rule_in };

    fn read_item<V: JsonValue>(
        alloc: Global,
        value: &V,
    ) -> Result<Option<ProtocolRule>, AllocError> {
        protocol_rule_of(alloc, value)
    }
}
