//! What a client asks for.

use listing::Text;
use targets::{Protocol, Target};

/// A client's request.
#[derive(Clone, Drop)]
pub struct Asked {
    pub method: Text,
    pub protocol: Protocol,
    pub target: Target,
}
