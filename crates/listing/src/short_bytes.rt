//! A few bytes that stand in the value itself.

ghost use Rattle.std.specs.Prelude.{◌≡◌, ◌≤◌, length, bytes_eq};
ghost use Rattle.std.specs.Str.{str_to_ascii_lowercase};
ghost use Rattle.listing.specs.declared.short_bytes.TheConstants.{SHORT_MAX};

use std::alloc::AllocError;
use std::marker::Model;

/// The most bytes of a short text.
pub(crate) const SHORT_MAX: usize = 16;

/// At most 16 bytes, in the value itself. It is seen as the list of them.
#[derive(Drop)]
pub(crate) struct ShortBytes {
    length: usize,
    bytes: [u8; SHORT_MAX],
}

impl Model for ShortBytes {
    ghost use Rattle.std.specs.Prelude.{ℕ, ◌≤◌, List, take};
    ghost use Rattle.listing.specs.declared.short_bytes.TheConstants.{SHORT_MAX};
    ghost use Rattle.listing.specs.ShortBytes.{IsZeroFrom};

    ghost Value = { List ℕ };

    ghost view = { λ s. take s.length s.bytes };

    ghost invariant = { λ s. (s.length ≤ SHORT_MAX) × IsZeroFrom s.length s.bytes };
}

impl ShortBytes {
    /// A copy of these bytes. It takes no memory.
    pub fn of(bytes: &[u8]) -> ShortBytes
        requires { length bytes.now ≤ SHORT_MAX }
        ensures { result ≡ bytes.now }
    {
        let mut kept = [0; SHORT_MAX];
        kept[..bytes.len()].copy_from_slice(bytes);
        ShortBytes {
            bytes: kept,
            length: bytes.len(),
        }
    }

    /// A copy of these bytes in ASCII lower case. It takes no memory.
    pub fn lowered(bytes: &[u8]) -> ShortBytes
        requires { length bytes.now ≤ SHORT_MAX }
        ensures { result ≡ str_to_ascii_lowercase bytes.now }
    {
        let mut kept = [0; SHORT_MAX];
        let front = &mut kept[..bytes.len()];
        front.copy_from_slice(bytes);
        front.make_ascii_lowercase();
        ShortBytes {
            bytes: kept,
            length: bytes.len(),
        }
    }

    /// Whether both are the same bytes.
    pub fn is_same(&self, other: &ShortBytes) -> bool
        ensures { result ≡ bytes_eq self.now other.now }
    {
        self.length == other.length && is_same_array(self.bytes, other.bytes)
    }

    /// The bytes.
    pub fn bytes(&self) -> &[u8]
        ensures { result.now ≡ self.now }
    {
        &self.bytes[..self.length]
    }
}

// whether both are the same bytes, compared as one number
fn is_same_array(bytes: [u8; SHORT_MAX], others: [u8; SHORT_MAX]) -> bool
    ensures { result ≡ bytes_eq bytes others }
{
    u128::from_le_bytes(bytes) == u128::from_le_bytes(others)
}

impl Clone for ShortBytes {
    ghost is_clone = { λ bytes copy. copy ≡ bytes };

    /// The same bytes. It takes no memory, and does not fail.
    fn clone(&self) -> Result<ShortBytes, AllocError> {
        Ok(ShortBytes {
            bytes: self.bytes,
            length: self.length,
        })
    }
}
