//! The metadata objects of RFC 8006: a HostIndex is read whole, or refused with the exact place of its first fault.
#![tactic(auto)]

mod cache;
mod fault;
mod generic;
mod generic_list;
mod host;
mod items;
pub mod laws;
mod level;
mod lists;
mod location;
mod object;
mod source;
mod tree;

pub use cache::CCID_MAX;
pub use fault::MetaFault;
pub use generic::{Generic, Held};
pub use generic_list::{GenericList, Understood};
pub use host::{DOCUMENT_MAX, HostIndex, HostMatch, HostMatchList, NESTING_MAX};
pub use level::{Level, PathMatch, PathMatchList};
pub use lists::SECONDS_MAX;
pub use object::OBJECTS_MAX;
pub use source::ENDPOINTS_MAX;
pub use tree::{KeyList, Tree};
