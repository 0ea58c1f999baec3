//! The bytes of an object.

ghost use Rattle.std.specs.Prelude.{◌≡◌, IfOk};

use listing::Text;
use std::alloc::{AllocError, Global};
use std::marker::Model;

/// Bytes that several owners hold. It is seen as the list of them.
#[derive(Drop)]
pub struct Body {
    text: Text,
}

impl Model for Body {
    ghost use Rattle.std.specs.Prelude.{ℕ, List};

    ghost Value = { List ℕ };

    ghost view = { λ b. b.text };
}

impl Body {
    /// A copy of `bytes`.
    ///
    /// # Errors
    /// Want of memory.
    pub fn of(alloc: Global, bytes: &[u8]) -> Result<Body, AllocError>
        ensures { IfOk result (λ body. body ≡ bytes.now) }
    {
        Ok(Body {
            text: Text::shared(alloc, bytes)?,
        })
    }

    /// One more owner of the same bytes, of which none is copied but where there are at most 16.
    ///
    /// # Errors
    /// Want of memory.
    pub fn share(&self, _alloc: Global) -> Result<Body, AllocError>
        ensures { IfOk result (λ body. body ≡ self.now) }
    {
        Ok(Body {
            text: self.text.clone()?,
        })
    }

    /// The bytes.
    pub fn bytes(&self) -> &[u8]
        ensures { result.now ≡ self.now }
    {
        self.text.bytes()
    }
}
