//! Lists of places, by which an upstream CDN says where a delivery is allowed (RFC 8006, section 4.2.2), and the
//! addresses, blocks and footprints that they are made of.
#![tactic(auto)]

mod acl;
mod block;
mod dotted;
mod footprint;
mod groups;
mod ip;
pub mod laws;
mod line;
pub mod plain;
mod six;
mod table;

pub use acl::{FootprintList, LocationAcl, LocationRule, LocationRuleList};
pub use block::{Block, BlockFault};
pub use footprint::{
    Footprint, FootprintType, Place, asn_of, country_of, read_country, read_network,
};
pub use ip::{AddressFault, Ip};
pub use line::PlaceLine;
pub use table::{PlaceFault, PlaceTable};
