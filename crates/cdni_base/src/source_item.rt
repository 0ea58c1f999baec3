//! Sources of content.

use listing::{Listing, Text};
use targets::EndpointList;

/// One source of MI.SourceMetadata (RFC 8006, section 4.2.1): its protocol and its endpoints, in order.
#[derive(Clone, Drop)]
pub struct SourceItem {
    pub protocol: Text,
    pub endpoints: EndpointList,
}

/// A list of sources.
pub type SourceItemList = Listing<SourceItem>;
