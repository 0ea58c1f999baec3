//! The effective metadata of a target, and what is held of it.

ghost use Rattle.std.specs.Prelude.{◌≡◌, IfSome, option_map, map};
ghost use Rattle.std.specs.List.{find};
ghost use Rattle.metadata_objects.specs.GenericList.{is_of_kind, kind_name};
ghost use Rattle.inheritance.specs.Held.{held_in, as_source, as_location, as_time, as_protocol, as_ignored, as_ccid, sources_of, location_of, time_of, protocol_of, ignored_of, ccid_of, unenforceable_of};

use crate::laws::effective_object_is_innermost;
use cdni_base::{Ignored, SourceItemList, Text, TypeName};
use location_acl::LocationAcl;
use metadata_objects::{Generic, GenericList, Held, Understood};
use protocol_acl::ProtocolAcl;
use std::marker::Model;
use time_window::TimeWindowAcl;

/// The effective metadata of a target: one object for each type, borrowed from the tree. It is seen as their list, in
/// the order of first appearance of their types from outside.
#[derive(Drop)]
pub struct Effective<'t> {
    pub(crate) arrays: Vec<&'t GenericList>,
    pub(crate) unenforceable: Option<&'t Generic>,
}

impl<'t> Model for Effective<'t> {
    ghost use Rattle.std.specs.Prelude.{◌≡◌, List, map, option_map};
    ghost use Rattle.std.specs.List.{find};
    ghost use Rattle.metadata_objects.specs.GenericList.{is_unenforceable};
    ghost use Rattle.metadata_objects.specs.declared.generic.Generic.{Generic};
    ghost use Rattle.inheritance.specs.Effective.{effective};

    ghost Value = { List Generic };

    ghost view = { λ e. effective (map (λ objects. objects.now) e.arrays.items) };

    ghost invariant = { λ e. option_map (λ object. object.now) e.unenforceable ≡ find is_unenforceable
        (effective (map (λ objects. objects.now) e.arrays.items)) };
}

impl<'t> Effective<'t> {
    /// The sources (MI.SourceMetadata, RFC 8006, section 4.2.1), where such an object is effective and understood.
    pub fn sources(&self) -> Option<&SourceItemList>
        ensures { option_map (λ held. held.now) result ≡ sources_of self.now }
    {
        match self.held(Understood::Source) {
            Some(Held::Source(held)) => Some(held),
            _ => None,
        }
    }

    /// The location list (MI.LocationACL, RFC 8006, section 4.2.2), where one is effective and understood.
    pub fn location(&self) -> Option<&LocationAcl>
        ensures { option_map (λ held. held.now) result ≡ location_of self.now }
    {
        match self.held(Understood::Location) {
            Some(Held::Location(held)) => Some(held),
            _ => None,
        }
    }

    /// The time list (MI.TimeWindowACL, RFC 8006, section 4.2.3), where one is effective and understood.
    pub fn time(&self) -> Option<&TimeWindowAcl>
        ensures { option_map (λ held. held.now) result ≡ time_of self.now }
    {
        match self.held(Understood::Time) {
            Some(Held::Time(held)) => Some(held),
            _ => None,
        }
    }

    /// The protocol list (MI.ProtocolACL, RFC 8006, section 4.2.4), where one is effective and understood.
    pub fn protocol(&self) -> Option<&ProtocolAcl>
        ensures { option_map (λ held. held.now) result ≡ protocol_of self.now }
    {
        match self.held(Understood::Protocol) {
            Some(Held::Protocol(held)) => Some(held),
            _ => None,
        }
    }

    /// What does not count of a query (MI.Cache, RFC 8006, section 4.2.6), where this is effective and understood.
    pub fn ignored(&self) -> Option<&Ignored>
        ensures { option_map (λ held. held.now) result ≡ ignored_of self.now }
    {
        match self.held(Understood::Cache) {
            Some(Held::Cache(held)) => Some(held),
            _ => None,
        }
    }

    /// The ccid (MI.Grouping, RFC 8006, section 4.2.8), where such an object is effective, understood and has one.
    pub fn ccid(&self) -> Option<&Text>
        ensures { option_map (λ held. held.now) result ≡ ccid_of self.now }
    {
        match self.held(Understood::Grouping) {
            Some(Held::Grouping(Some(ccid))) => Some(ccid),
            _ => None,
        }
    }

    /// The first type whose object is mandatory and not understood (RFC 8006, section 4.1.7).
    pub fn unenforceable(&self) -> Option<&TypeName>
        ensures { option_map (λ kind. kind.now) result ≡ unenforceable_of self.now }
    {
        match self.unenforceable {
            Some(object) => Some(&object.kind),
            None => None,
        }
    }

    // what is held of the object of this type
    fn held(&self, kind: Understood) -> Option<&Held>
        ensures { option_map (λ held. held.now) result ≡ held_in (kind_name kind) self.now }
    {
        match self.object(kind) {
            Some(object) => Some(&object.held),
            None => None,
        }
    }

    // the object of this type: the first of the innermost array that has one
    fn object(&self, kind: Understood) -> Option<&Generic>
        ensures { option_map (λ object. object.now) result ≡ find (is_of_kind (kind_name kind)) self.now }
    {
        effective_object_is_innermost();
        let mut found = None;
        'arrays: for objects in &self.arrays {
            if let Some(object) = objects.first(kind) {
                found = Some(object);
            }
        }
        found
    }
}
