//! JSON pointers.

ghost use Rattle.std.specs.Prelude.{◌≡◌, [], IfOk};
ghost use Rattle.json_read.specs.Path.{child_of, item_of, IsName};

use std::alloc::{AllocError, Global};
use std::marker::Model;

/// A JSON pointer (RFC 6901). It is seen as its bytes.
#[derive(Drop)]
pub struct JsonPath {
    pointer: Vec<u8>,
}

impl Model for JsonPath {
    ghost use Rattle.std.specs.Prelude.{ℕ, List};

    ghost Value = { List ℕ };

    ghost view = { λ p. p.pointer.items };
}

impl JsonPath {
    /// The pointer of the whole document, which is empty. It takes no memory.
    pub fn root(alloc: Global) -> JsonPath
        ensures { result ≡ [] }
    {
        JsonPath {
            pointer: Vec::new(alloc),
        }
    }

    /// The pointer of the member `name` of this object.
    ///
    /// # Errors
    /// Want of memory.
    pub fn child(&self, alloc: Global, name: &str) -> Result<JsonPath, AllocError>
        requires { IsName name.now }
        ensures { IfOk result (λ p. p ≡ child_of self.now name.now) }
    {
        self.extended(alloc, name.as_bytes())
    }

    /// The pointer of item `i`, counted from 0, of this list.
    ///
    /// # Errors
    /// Want of memory.
    pub fn item(&self, alloc: Global, i: usize) -> Result<JsonPath, AllocError>
        ensures { IfOk result (λ p. p ≡ item_of self.now i) }
    {
        let number = format!(in alloc; "{i}")?;
        self.extended(alloc, number.as_bytes())
    }

    /// The bytes of the pointer.
    pub fn bytes(&self) -> &[u8]
        ensures { result.now ≡ self.now }
    {
        &self.pointer
    }

    /// The same pointer once more.
    ///
    /// # Errors
    /// Want of memory.
    pub fn copy(&self, alloc: Global) -> Result<JsonPath, AllocError>
        ensures { IfOk result (λ p. p ≡ self.now) }
    {
        Ok(JsonPath {
            pointer: Vec::from_slice(alloc, &self.pointer)?,
        })
    }

    // this pointer, `/` and the token
    #[tactic(auto, unfolding(crate::specs::Path::child_of))]
    fn extended(&self, alloc: Global, token: &[u8]) -> Result<JsonPath, AllocError>
        ensures { IfOk result (λ p. p ≡ child_of self.now token.now) }
    {
        let mut pointer = Vec::from_slice(alloc, &self.pointer)?;
        pointer.extend_from_slice(b"/")?;
        pointer.extend_from_slice(token)?;
        Ok(JsonPath { pointer })
    }
}
