//! Rules of places, and what they decide.

ghost use Rattle.std.specs.Prelude.{◌≡◌};
ghost use Rattle.location_acl.specs.Acl.{rule_holds};

use crate::footprint::{Footprint, Place};
use listing::{AccessList, AccessRule, Listing};

/// A list of footprints.
pub type FootprintList = Listing<Footprint>;

/// What is to be done at the places that one of the footprints holds.
#[derive(Clone, Drop)]
pub struct LocationRule {
    pub footprints: FootprintList,
    /// Whether a delivery is then allowed.
    pub allow: bool,
}

/// A list of rules.
pub type LocationRuleList = Listing<LocationRule>;

/// MI.LocationACL (RFC 8006, section 4.2.2): rules, fewer than 2^32, or none given.
/// `LocationAcl::decide` of a `&Place` says whether a delivery is allowed there, and by which rule.
pub type LocationAcl = AccessList<LocationRule>;

impl<'p> AccessRule<&'p Place> for LocationRule {
    ghost holds = { λ place rule. rule_holds place.now rule };

    ghost allows = { λ rule. rule.allow };

    /// Whether one of the rule's footprints holds this place.
    fn holds(&self, place: &'p Place) -> bool
        ensures { result ≡ rule_holds place.now self.now }
    {
        self.footprints
            .as_slice()
            .iter()
            .any(|footprint| footprint.holds(place))
    }

    fn allows(&self) -> bool
        ensures { result ≡ self.now.allow }
    {
        self.allow
    }
}
