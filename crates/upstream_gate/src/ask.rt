//! What is asked of an origin.

ghost use Rattle.std.specs.Prelude.{◌≡◌, IfOk};

use cdni_base::{Endpoint, Text};
use std::alloc::{AllocError, Global};

/// A GET of a target (RFC 9112, section 3.2.1: a path, and `?` and a query where there is one) at an endpoint.
#[derive(Clone, Drop)]
pub struct Ask {
    pub endpoint: Endpoint,
    pub target: Text,
}

impl Ask {
    // a copy of what is asked
    pub(crate) fn of(_alloc: Global, endpoint: &Endpoint, target: &Text) -> Result<Ask, AllocError>
        ensures { IfOk result (λ ask. ask ≡ record { endpoint = endpoint.now; target = target.now }) }
    {
        Ok(Ask {
            endpoint: endpoint.clone()?,
            target: target.clone()?,
        })
    }
}
