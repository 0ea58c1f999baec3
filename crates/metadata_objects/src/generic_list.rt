//! The metadata objects of one level, with those that a delivery asks for found in advance.

ghost use Rattle.std.specs.Prelude.{◌≡◌, ◌<◌, ◌∷◌, ◌++◌, [], List, ℕ, OnOk, OnErr, Some, length, slice_get, option_map};
ghost use Rattle.std.specs.List.{find, list_any};
ghost use Rattle.metadata_objects.specs.declared.generic.Generic.{Generic};
ghost use Rattle.metadata_objects.specs.GenericList.{is_of_kind, is_understood, is_unenforceable, kind_name, IsFirstAt, AreFirst, no_places, place_of};

use crate::generic::{Generic, Held};
use cdni_base::Listing;
use std::alloc::{AllocError, Global};
use std::marker::Model;

/// Metadata objects in order. It is seen as the list of them. The first object of each type that is understood is found
/// in constant time, however many objects there are.
#[derive(Drop)]
pub struct GenericList {
    items: Listing<Generic>,
    first: Places,
    strict: bool,
}

/// The types that are understood (RFC 8006, section 4.2).
#[derive(Clone, Copy, Debug, PartialEq, Eq)]
pub enum Understood {
    /// MI.SourceMetadata
    Source,
    /// MI.LocationACL
    Location,
    /// MI.TimeWindowACL
    Time,
    /// MI.ProtocolACL
    Protocol,
    /// MI.Cache
    Cache,
    /// MI.Grouping
    Grouping,
}

// where the first object of each of these types stands
#[derive(Clone, Copy, Drop)]
pub(crate) struct Places {
    source: Option<usize>,
    location: Option<usize>,
    time: Option<usize>,
    protocol: Option<usize>,
    cache: Option<usize>,
    grouping: Option<usize>,
}

impl Generic {
    ghost use Rattle.metadata_objects.specs.GenericList.{is_unenforceable};

    /// Whether it is mandatory and not understood (RFC 8006, section 4.1.7).
    pub fn is_unenforceable(&self) -> bool
        ensures { result ≡ is_unenforceable self.now }
    {
        self.mandatory && !is_understood(&self.held)
    }
}

impl Model for GenericList {
    ghost use Rattle.std.specs.Prelude.{◌≡◌, List};
    ghost use Rattle.std.specs.List.{list_any};
    ghost use Rattle.metadata_objects.specs.declared.generic.Generic.{Generic};
    ghost use Rattle.metadata_objects.specs.GenericList.{is_unenforceable, AreFirst};

    ghost Value = { List Generic };

    ghost view = { λ l. l.items };

    ghost invariant = { λ l. AreFirst l.items l.first × (l.strict ≡ list_any is_unenforceable l.items) };
}

impl GenericList {
    /// The empty list. It takes no memory.
    pub fn new(alloc: Global) -> GenericList
        ensures { result ≡ [] }
    {
        GenericList {
            items: Listing::new(alloc),
            first: no_places(),
            strict: false,
        }
    }

    /// How many objects there are.
    pub fn len(&self) -> usize
        ensures { result ≡ length self.now }
    {
        self.items.len()
    }

    /// Object `i`, counted from 0.
    pub fn at(&self, i: usize) -> &Generic
        requires { i < length self.now }
        ensures { slice_get self.now i ≡ Some result.now }
    {
        self.items.at(i)
    }

    /// The objects, in order.
    pub fn as_slice(&self) -> &[Generic]
        ensures { result.now ≡ self.now }
    {
        self.items.as_slice()
    }

    /// Adds an object at the end.
    ///
    /// # Errors
    /// Want of memory. The list is then as before, and the object is dropped.
    pub fn push(&mut self, object: Generic) -> Result<(), AllocError>
        ensures ok { OnOk result (self.new ≡ self.old ++ object ∷ []) }
        ensures err { OnErr result (self.new ≡ self.old) }
    {
        let first = self.first.and(self.items.len(), &object);
        let strict = self.strict || object.is_unenforceable();
        self.items.push(object)?;
        self.first = first;
        self.strict = strict;
        Ok(())
    }

    /// The first object of this type.
    pub fn first(&self, kind: Understood) -> Option<&Generic>
        ensures { option_map (λ object. object.now) result ≡ find (is_of_kind (kind_name kind)) self.now }
    {
        object_at(self.items.as_slice(), self.first.of(kind))
    }

    /// Whether an object is mandatory and not understood (RFC 8006, section 4.1.7).
    pub fn has_unenforceable(&self) -> bool
        ensures { result ≡ list_any is_unenforceable self.now }
    {
        self.strict
    }
}

// no object stands anywhere
fn no_places() -> Places
    ensures { result ≡ no_places }
{
    Places {
        source: None,
        location: None,
        time: None,
        protocol: None,
        cache: None,
        grouping: None,
    }
}

impl Places {
    // where the first object of this type stands
    fn of(&self, kind: Understood) -> Option<usize>
        ensures { result ≡ place_of self.now kind }
    {
        match kind {
            Understood::Source => self.source,
            Understood::Location => self.location,
            Understood::Time => self.time,
            Understood::Protocol => self.protocol,
            Understood::Cache => self.cache,
            Understood::Grouping => self.grouping,
        }
    }

    // the same with one object more, at this place
    fn and(self, at: usize, object: &Generic) -> Places
        ensures { (items : List Generic) → length items ≡ at → AreFirst items self
            → AreFirst (items ++ object.now ∷ []) result }
    {
        Places {
            source: first_of(self.source, at, object, b"mi.sourcemetadata"),
            location: first_of(self.location, at, object, b"mi.locationacl"),
            time: first_of(self.time, at, object, b"mi.timewindowacl"),
            protocol: first_of(self.protocol, at, object, b"mi.protocolacl"),
            cache: first_of(self.cache, at, object, b"mi.cache"),
            grouping: first_of(self.grouping, at, object, b"mi.grouping"),
        }
    }
}

// where the first object of a type stands, with one object more
fn first_of(found: Option<usize>, at: usize, object: &Generic, kind: &[u8]) -> Option<usize>
    ensures { (items : List Generic) → length items ≡ at → IsFirstAt kind.now items found
        → IsFirstAt kind.now (items ++ object.now ∷ []) result }
{
    match found {
        Some(place) => Some(place),
        None => { if object.kind.is(kind) { Some(at) } else { None } }
    }
}

// the object at this place
fn object_at(objects: &[Generic], place: Option<usize>) -> Option<&Generic>
    ensures { (kind : List ℕ) → IsFirstAt kind objects.now place
        → option_map (λ object. object.now) result ≡ find (is_of_kind kind) objects.now }
{
    match place {
        Some(i) => objects.get(i),
        None => None,
    }
}

fn is_understood(held: &Held) -> bool
    ensures { result ≡ is_understood held.now }
{
    match held {
        Held::NotUnderstood => false,
        _ => true,
    }
}
