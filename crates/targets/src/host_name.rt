//! Hosts (RFC 3986, section 3.2.2, in the form of this project).

ghost use Rattle.std.specs.Prelude.{◌≡◌, ◌≤◌, ◌↔◌, length, IfOk, IsTrue, bytes_eq};
ghost use Rattle.std.specs.Cmp.{partial_equiv_from_equiv};
ghost use Rattle.std.specs.Cmp.Lexicographic.{nat_list_eq_equiv, bytes_decides};
ghost use Rattle.std.specs.Hash as fed;
ghost use Rattle.std.specs.Hash.{same_Alike};
ghost use Rattle.std.specs.Str.{str_to_ascii_lowercase};
ghost use Rattle.targets.specs.declared.host_name.TheConstants.{HOST_NAME_MAX};

use listing::Text;
use std::alloc::{AllocError, Global};
use std::hash::{Hash, Hasher};
use std::marker::Model;

/// The most bytes of a host.
pub const HOST_NAME_MAX: usize = 255;

/// A host, in lower case: a name or address of 1 to 255 bytes, or an address in brackets. It is seen as its bytes, of
/// which there are never more than 255.
#[derive(Clone, Drop)]
pub struct HostName(pub Text);

impl Model for HostName {
    ghost use Rattle.std.specs.Prelude.{ℕ, ◌≤◌, List, length};
    ghost use Rattle.targets.specs.declared.host_name.TheConstants.{HOST_NAME_MAX};

    ghost Value = { List ℕ };

    ghost view = { λ host. host.0 };

    ghost invariant = { λ host. length host.0 ≤ HOST_NAME_MAX };
}

impl HostName {
    /// The bytes, at most 255.
    pub fn bytes(&self) -> &[u8]
        ensures bytes { result.now ≡ self.now }
        ensures short { length self.now ≤ HOST_NAME_MAX }
    {
        self.0.bytes()
    }

    // the bytes in lower case
    pub(crate) fn lowered(alloc: Global, bytes: &[u8]) -> Result<HostName, AllocError>
        requires { length bytes.now ≤ HOST_NAME_MAX }
        ensures { IfOk result (λ host. host ≡ str_to_ascii_lowercase bytes.now) }
    {
        Ok(HostName(Text::lowered(alloc, bytes)?))
    }
}

impl PartialEq for HostName {
    ghost eq = { bytes_eq };

    ghost laws = { partial_equiv_from_equiv nat_list_eq_equiv };

    /// Whether both have the same bytes.
    fn eq(&self, other: &HostName) -> bool
        ensures value { result ≡ bytes_eq self.now other.now }
        ensures same { IsTrue result ↔ (self.now ≡ other.now) }
    {
        self.0 == other.0
    }
}

impl Eq for HostName {
    ghost laws = { nat_list_eq_equiv };
}

impl Hash for HostName {
    ghost hash_input = { fed.slice fed.u8 };

    ghost respects_eq = { (same_Alike (fed.slice fed.u8) bytes_decides).fed };

    fn hash<H: Hasher>(&self, state: &mut H) {
        self.0.hash(state);
    }
}
