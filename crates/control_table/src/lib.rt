//! The requests of the upstream CDN: what each method asks for at each path of the control host.
#![tactic(auto)]

mod ask;
mod path;

pub use ask::{ControlAsk, control_ask};
pub use path::{ControlPath, read_path};
