//! What is asked for and from where: targets and their keys, bodies, the ids of providers, the rules that forbid a
//! delivery, and the limits of a node.
#![tactic(auto)]

mod asked;
mod body;
mod date;
mod key;
pub mod laws;
mod limits;
mod provider;
mod rule;
mod scratch;
mod source_item;
mod type_name;

pub use asked::Asked;
pub use body::Body;
pub use date::{DATE_END, put_date};
pub use key::{Ignored, Key, is_same_key, url_key};
pub use limits::Limits;
pub use listing::{Listing, Moment, Text, TextList};
pub use provider::{AS_DIGITS, ProviderFault, ProviderId, QUALIFIER_MAX};
pub use rule::{RULE_TEXT_MAX, Rule};
pub use scratch::Scratch;
pub use source_item::{SourceItem, SourceItemList};
pub use targets::{
    Endpoint, EndpointFault, EndpointList, HOST_NAME_MAX, HTTP_PORT, HTTPS_PORT, HostName,
    PORT_DIGITS, PORT_MAX, Protocol, TARGET_MAX, Target, TargetFault,
};
pub use type_name::{TYPE_NAME_MAX, TypeName};
