//! A metadata tree, with the documents that it was made of.

use crate::host::HostIndex;
use cdni_base::{Key, Listing};

/// A list of keys.
pub type KeyList = Listing<Key>;

/// A metadata tree, and the keys of the URLs of all documents that it was made of, in the order in which they were
/// fetched.
#[derive(Drop)]
pub struct Tree {
    pub index: HostIndex,
    pub resources: KeyList,
}
