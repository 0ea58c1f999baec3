//! The node of a script, as trigger commands and their answers know it.

ghost use Rattle.std.specs.Prelude.{◌≡◌, IfOk};
ghost use Rattle.script_line.specs.Own.{own_id, control_host};

use cdni_base::{HostName, ProviderId, Text};
use std::alloc::{AllocError, Global};

// the id of the node (RFC 8007, section 4.6)
pub(crate) fn own_id(alloc: Global) -> Result<ProviderId, AllocError>
    ensures { IfOk result (λ id. id ≡ own_id) }
{
    Ok(ProviderId(Text::of(alloc, b"AS64496:0")?))
}

// the host at which its triggers have their status resources
pub(crate) fn control_host(alloc: Global) -> Result<HostName, AllocError>
    ensures { IfOk result (λ host. host ≡ control_host) }
{
    Ok(HostName(Text::of(alloc, b"control.example")?))
}
