//! The side of the core that delivers: the installed metadata, what is kept of fetches, the deliveries, fetches and
//! refreshes that are open, the rows of finished deliveries, and what starts of triggers do to these. It sees no history:
//! its value is what a history leaves of these, without positions.
#![tactic(auto)]

mod decision;
mod edge;
mod installed;
mod records;
mod refreshes;
mod results;

pub use edge::Edge;
pub use refreshes::Noted;
pub use results::{Admitted, Began, Planned, RefreshEnded};
pub use shelf::{Flight, Open};
