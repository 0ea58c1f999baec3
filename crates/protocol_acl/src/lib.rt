//! Lists of protocols, by which an upstream CDN says how a delivery is allowed (RFC 8006, section 4.2.4).
#![tactic(auto)]

mod acl;

pub use acl::{NameList, ProtocolAcl, ProtocolRule, ProtocolRuleList};
