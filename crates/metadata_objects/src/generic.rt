//! GenericMetadata (RFC 8006, section 4.1.7).

ghost use Rattle.std.specs.Prelude.{◌≡◌, IfOk, map};
ghost use Rattle.serde_json.specs.View.{items_of};
ghost use Rattle.metadata_objects.specs.Reading.{Gives};
ghost use Rattle.metadata_objects.specs.Generic.{kind_of, understood, understood_list, held_of, generic_of, generics_of};

use crate::cache::{grouping_of, ignored_of};
use crate::fault::MetaFault;
use crate::generic_list::GenericList;
use crate::lists::{protocols_of, times_of};
use crate::location::locations_of;
use crate::object::{flag, one_more, out_of_range, refuse_link, text};
use crate::source::sources_of;
use cdni_base::{Ignored, SourceItemList, Text, TypeName};
use json_read::{JsonPath, JsonValue, need};
use location_acl::LocationAcl;
use protocol_acl::ProtocolAcl;
use std::alloc::{AllocError, Global};
use time_window::TimeWindowAcl;

/// A metadata object of some type.
#[derive(Drop)]
pub struct Generic {
    /// The type's name, 1 to 127 bytes in lower case.
    pub kind: TypeName,
    /// Whether the delivery is forbidden where this object is not understood.
    pub mandatory: bool,
    /// Whether the object may be passed on by a node that does not understand it.
    pub redistribute: bool,
    /// What is understood of it.
    pub held: Held,
}

/// What is understood of a metadata object.
#[derive(Drop)]
pub enum Held {
    /// MI.SourceMetadata (RFC 8006, section 4.2.1).
    Source(SourceItemList),
    /// MI.LocationACL (RFC 8006, section 4.2.2).
    Location(LocationAcl),
    /// MI.TimeWindowACL (RFC 8006, section 4.2.3).
    Time(TimeWindowAcl),
    /// MI.ProtocolACL (RFC 8006, section 4.2.4).
    Protocol(ProtocolAcl),
    /// MI.Cache (RFC 8006, section 4.2.6): what does not count of a query.
    Cache(Ignored),
    /// MI.Grouping (RFC 8006, section 4.2.8): the ccid, if there is one.
    Grouping(Option<Text>),
    /// Nothing.
    NotUnderstood,
}

// the objects of the list at `path`, after `count` objects
pub(crate) fn generics_at<V: JsonValue>(
    alloc: Global,
    items: &[V],
    path: &JsonPath,
    count: u32,
) -> Result<(GenericList, u32), MetaFault>
    ensures { Gives (λ x. (x.0, x.1)) result (generics_of path.now count (items_of (map V.seen items.now))) }
{
    let mut list = GenericList::new(alloc);
    let mut so_far = count;
    'items: for i in 0..items.len() {
        let place = path.item(alloc, i)?;
        let (generic, next) = generic_at(alloc, &items[i], &place, so_far)?;
        list.push(generic)?;
        so_far = next;
    }
    Ok((list, so_far))
}

// the object at `path`, after `count` objects
#[tactic(auto, unfolding(crate::specs::Generic::generic_of))]
fn generic_at<V: JsonValue>(
    alloc: Global,
    value: &V,
    path: &JsonPath,
    count: u32,
) -> Result<(Generic, u32), MetaFault>
    ensures { Gives (λ x. (x.0, x.1)) result (generic_of path.now count (V.seen value.now)) }
{
    let count = one_more(count)?;
    refuse_link(alloc, value, path)?;
    let name = text(alloc, value, path, "generic-metadata-type")?;
    let Some(kind) = kind_at(alloc, name.as_bytes())? else {
        return Err(out_of_range(alloc, path, "generic-metadata-type"));
    };
    let inner = need(alloc, value, path, "generic-metadata-value")?;
    let mandatory = flag(alloc, value, path, "mandatory-to-enforce", true)?;
    let redistribute = flag(alloc, value, path, "safe-to-redistribute", true)?;
    let incomprehensible = flag(alloc, value, path, "incomprehensible", false)?;
    let held = held_at(alloc, incomprehensible, &kind, inner)?;
    Ok((
        Generic {
            kind,
            mandatory,
            redistribute,
            held,
        },
        count,
    ))
}

// a type's name in lower case, if it has 1 to 127 bytes
#[tactic(auto, unfolding(crate::specs::Generic::kind_of))]
fn kind_at(alloc: Global, name: &[u8]) -> Result<Option<TypeName>, AllocError>
    ensures { IfOk result (λ found. found ≡ kind_of name.now) }
{
    if name.is_empty() {
        return Ok(None);
    }
    TypeName::lowered(alloc, name)
}

// what is held of a value of this type
fn held_at<V: JsonValue>(
    alloc: Global,
    incomprehensible: bool,
    kind: &TypeName,
    value: &V,
) -> Result<Held, AllocError>
    ensures { IfOk result (λ held. held ≡ held_of incomprehensible kind.now (V.seen value.now)) }
{
    if incomprehensible {
        return Ok(Held::NotUnderstood);
    }
    understand(alloc, kind, value)
}

// what is understood of a value of this type
#[tactic(auto, unfolding(crate::specs::Generic::understood))]
fn understand<V: JsonValue>(alloc: Global, kind: &TypeName, value: &V) -> Result<Held, AllocError>
    ensures { IfOk result (λ held. held ≡ understood kind.now (V.seen value.now)) }
{
    let held = if kind.is(b"mi.sourcemetadata") {
        sources_of(alloc, value)?.map(Held::Source)
    } else if kind.is(b"mi.cache") {
        ignored_of(alloc, value)?.map(Held::Cache)
    } else if kind.is(b"mi.grouping") {
        grouping_of(alloc, value)?.map(Held::Grouping)
    } else {
        return understand_list(alloc, kind, value);
    };
    Ok(held.unwrap_or(Held::NotUnderstood))
}

// the same of the access lists
#[tactic(auto, unfolding(crate::specs::Generic::understood_list))]
fn understand_list<V: JsonValue>(
    alloc: Global,
    kind: &TypeName,
    value: &V,
) -> Result<Held, AllocError>
    ensures { IfOk result (λ held. held ≡ understood_list kind.now (V.seen value.now)) }
{
    let held = if kind.is(b"mi.locationacl") {
        locations_of(alloc, value)?.map(Held::Location)
    } else if kind.is(b"mi.timewindowacl") {
        times_of(alloc, value)?.map(Held::Time)
    } else if kind.is(b"mi.protocolacl") {
        protocols_of(alloc, value)?.map(Held::Protocol)
    } else {
        None
    };
    Ok(held.unwrap_or(Held::NotUnderstood))
}
