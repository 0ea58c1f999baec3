//! Gathering metadata: the root document, and the documents that its Links name (RFC 8006, sections 4.3.1 and 6.3).
#![tactic(auto)]

mod documents;
mod fault;
mod finding;
mod gathering;
mod href;
mod joining;
mod link;
pub mod numbers;
mod tree;

pub use fault::LinkFault;
pub use gathering::{DOCUMENTS_MAX, TEXTS_MAX};
pub use tree::gather;
