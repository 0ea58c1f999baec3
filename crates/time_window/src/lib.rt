//! Lists of time windows, by which an upstream CDN says when a delivery is allowed (RFC 8006, section 4.2.3).
#![tactic(auto)]

mod acl;

pub use acl::{TimeRule, TimeRuleList, TimeWindow, TimeWindowAcl, TimeWindowList};
pub use listing::Moment;
