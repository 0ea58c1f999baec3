//! What a session is told of its client and of the node.

use cdni_base::{HostName, Protocol, ProviderId, Target};
use cdni_log::FieldList;
use footprints::AdvertSettings;
use location_acl::Place;

/// The client of a connection.
#[derive(Clone, Copy)]
pub struct Peer {
    pub place: Place,
}

/// What holds for all connections of a node.
#[derive(Drop)]
pub struct Settings {
    /// The delivery protocol of the requests.
    pub protocol: Protocol,
    /// The host to which requests of the upstream CDN are made.
    pub control: HostName,
    /// The URL of the metadata's root document.
    pub root: Target,
    /// The id of this CDN.
    pub own: ProviderId,
    /// What this CDN tells of itself.
    pub advert: AdvertSettings,
    /// The fields of each record of its log files, in their order (RFC 7937, section 3.4.1).
    pub fields: FieldList,
}
