//! What this CDN advertises of itself to its upstream CDNs: its capabilities, and the footprints for which they hold
//! (RFC 8008).
#![tactic(auto)]

mod advertisement;
mod capability;
pub mod laws;
mod logging;
mod settings;
mod write;

pub use advertisement::advert;
pub use settings::AdvertSettings;
