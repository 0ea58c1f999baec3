//! Trigger commands of an upstream CDN (RFC 8007, section 5.1.1): their values, which keys a selection hits, and the
//! reading of a command's JSON.
#![tactic(auto)]

mod command;
mod draft;
mod fault;
pub mod numbers;
mod reading;
mod selection;
mod spec;
mod trigger_url;

pub use command::{Act, Command, IdList, ProviderIdList};
pub use fault::CommandFault;
pub use selection::{PatternItem, PatternItemList, Selection, UrlItem, UrlItemList};
pub use spec::{SELECTION_MAX, Spec, TriggerKind};
