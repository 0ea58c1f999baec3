//! Links and the places where they stand.

use cdni_base::{Listing, Target};

/// Where a document, or a Link to one, stands in the metadata. All but the first are places of a Link (RFC 8006,
/// section 4.3.1).
#[derive(Clone, Copy)]
pub(crate) enum Place {
    /// The root: a HostIndex.
    Index,
    /// A HostMatch.
    Host,
    /// A HostMetadata or PathMetadata.
    Level,
    /// A PathMatch.
    Path,
    /// A GenericMetadata.
    Generic,
}

/// A Link: the document that it names, where it stands, and in how many PathMatch objects the document stands, itself
/// counted if it is one. Past 17 they are not counted.
#[derive(Clone, Drop)]
pub(crate) struct Link {
    pub target: Target,
    pub place: Place,
    pub depth: u32,
}

/// A list of Links.
pub(crate) type LinkList = Listing<Link>;
