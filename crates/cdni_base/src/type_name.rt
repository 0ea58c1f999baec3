//! Names of types, of contents and of metadata objects.

ghost use Rattle.std.specs.Prelude.{◌≡◌, ◌≤◌, ◌↔◌, length, IfOk, IsTrue, bytes_eq};
ghost use Rattle.std.specs.Str.{str_to_ascii_lowercase};
ghost use Rattle.cdni_base.specs.TypeName.{named};
ghost use Rattle.cdni_base.specs.declared.type_name.TheConstants.{TYPE_NAME_MAX};

use listing::Text;
use std::alloc::{AllocError, Global};
use std::marker::Model;

/// The most bytes of a type's name (RFC 6838, section 4.2, has this number for each half of a media type).
pub const TYPE_NAME_MAX: usize = 127;

/// The name of a content type or of a metadata type. It is seen as its bytes, of which there are never more than 127.
#[derive(Clone, Drop)]
pub struct TypeName(pub Text);

impl Model for TypeName {
    ghost use Rattle.std.specs.Prelude.{ℕ, ◌≤◌, List, length};
    ghost use Rattle.cdni_base.specs.declared.type_name.TheConstants.{TYPE_NAME_MAX};

    ghost Value = { List ℕ };

    ghost view = { λ name. name.0 };

    ghost invariant = { λ name. length name.0 ≤ TYPE_NAME_MAX };
}

impl TypeName {
    /// The name of these bytes, or `None` exactly where they are more than 127.
    ///
    /// # Errors
    /// Want of memory.
    pub fn of(alloc: Global, bytes: &[u8]) -> Result<Option<TypeName>, AllocError>
        ensures { IfOk result (λ name. name ≡ named bytes.now) }
    {
        if !is_short(bytes) {
            return Ok(None);
        }
        Ok(Some(TypeName(Text::of(alloc, bytes)?)))
    }

    /// The name of these bytes in ASCII lower case, or `None` exactly where they are more than 127.
    ///
    /// # Errors
    /// Want of memory.
    pub fn lowered(alloc: Global, bytes: &[u8]) -> Result<Option<TypeName>, AllocError>
        ensures { IfOk result (λ name. name ≡ named (str_to_ascii_lowercase bytes.now)) }
    {
        if !is_short(bytes) {
            return Ok(None);
        }
        Ok(Some(TypeName(Text::lowered(alloc, bytes)?)))
    }

    /// The bytes, at most 127.
    pub fn bytes(&self) -> &[u8]
        ensures bytes { result.now ≡ self.now }
        ensures short { length self.now ≤ TYPE_NAME_MAX }
    {
        self.0.bytes()
    }

    /// Whether these are the name's bytes.
    pub fn is(&self, bytes: &[u8]) -> bool
        ensures same { IsTrue result ↔ (self.now ≡ bytes.now) }
        ensures value { result ≡ bytes_eq self.now bytes.now }
    {
        self.0.is(bytes)
    }
}

fn is_short(bytes: &[u8]) -> bool
    ensures { IsTrue result ↔ (length bytes.now ≤ TYPE_NAME_MAX) }
{
    bytes.len() <= TYPE_NAME_MAX
}
