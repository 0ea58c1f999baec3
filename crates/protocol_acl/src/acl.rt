//! Rules of protocols, and what they decide.

ghost use Rattle.std.specs.Prelude.{◌≡◌};
ghost use Rattle.protocol_acl.specs.Acl.{names};

use listing::{AccessList, AccessRule, Listing, Text};

/// Names of protocols, as `http/1.1` (RFC 8006, section 7.3).
pub type NameList = Listing<Text>;

/// What is to be done where a delivery's protocol is one of these.
#[derive(Clone, Drop)]
pub struct ProtocolRule {
    pub protocols: NameList,
    /// Whether a delivery is then allowed.
    pub allow: bool,
}

/// A list of rules.
pub type ProtocolRuleList = Listing<ProtocolRule>;

/// MI.ProtocolACL (RFC 8006, section 4.2.4): rules, fewer than 2^32, or none given.
/// `ProtocolAcl::decide` of a protocol's name, a `&[u8]`, says whether a delivery by it is allowed, and by which rule.
pub type ProtocolAcl = AccessList<ProtocolRule>;

impl<'p> AccessRule<&'p [u8]> for ProtocolRule {
    ghost holds = { λ protocol rule. names protocol.now rule };

    ghost allows = { λ rule. rule.allow };

    /// Whether one of the rule's names is this protocol, in any case.
    fn holds(&self, protocol: &'p [u8]) -> bool
        ensures { result ≡ names protocol.now self.now }
    {
        self.protocols
            .as_slice()
            .iter()
            .any(|name| name.bytes().eq_ignore_ascii_case(protocol))
    }

    fn allows(&self) -> bool
        ensures { result ≡ self.now.allow }
    {
        self.allow
    }
}
