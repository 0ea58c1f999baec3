//! A text of bytes.

ghost use Rattle.std.specs.Prelude.{◌≡◌, ℕ, List, IfOk, IsTrue, ◌↔◌, bytes_eq};
ghost use Rattle.std.specs.Cmp.{partial_equiv_from_equiv};
ghost use Rattle.std.specs.Cmp.Lexicographic.{nat_list_eq_equiv, bytes_decides};
ghost use Rattle.std.specs.Hash as fed;
ghost use Rattle.std.specs.Hash.{same_Alike};
ghost use Rattle.std.specs.Str.{str_to_ascii_lowercase};

use crate::shared_bytes::{SharedBytes, SharedPart};
use crate::short_bytes::{SHORT_MAX, ShortBytes};
use std::alloc::{AllocError, Global};
use std::hash::{Hash, Hasher};
use std::marker::Model;

/// A text of bytes, of any values. It is seen as the list of them. At most 16 bytes stand in the value itself, and a part of
/// shared bytes has none of its own: neither these nor their copies take memory.
#[derive(Drop)]
pub struct Text {
    held: Held,
}

/// How a text holds its bytes.
#[derive(Drop)]
pub(crate) enum Held {
    /// In the value itself.
    Short(ShortBytes),
    /// As their only owner.
    Own(Vec<u8>),
    /// As one owner of several.
    Part(SharedPart),
}

impl Model for Text {
    ghost use Rattle.std.specs.Prelude.{ℕ, List};
    ghost use Rattle.listing.specs.Text.{bytes_of};

    ghost Value = { List ℕ };

    ghost view = { λ t. bytes_of t.held };
}

impl Text {
    /// A copy of `bytes`.
    ///
    /// # Errors
    /// Want of memory.
    pub fn of(alloc: Global, bytes: &[u8]) -> Result<Text, AllocError>
        ensures { IfOk result (λ t. t ≡ bytes.now) }
    {
        let held = if bytes.len() <= SHORT_MAX {
            Held::Short(ShortBytes::of(bytes))
        } else {
            Held::Own(Vec::from_slice(alloc, bytes)?)
        };
        Ok(Text { held })
    }

    /// A copy of `bytes` in ASCII lower case.
    ///
    /// # Errors
    /// Want of memory.
    pub fn lowered(alloc: Global, bytes: &[u8]) -> Result<Text, AllocError>
        ensures { IfOk result (λ text. text ≡ str_to_ascii_lowercase bytes.now) }
    {
        if bytes.len() <= SHORT_MAX {
            return Ok(Text {
                held: Held::Short(ShortBytes::lowered(bytes)),
            });
        }
        Ok(Text::from_vec(
            bytes
                .iter()
                .map(|byte| byte.to_ascii_lowercase())
                .collect(alloc)?,
        ))
    }

    /// A copy of `bytes`, whose own copies share its bytes.
    ///
    /// # Errors
    /// Want of memory.
    pub fn shared(alloc: Global, bytes: &[u8]) -> Result<Text, AllocError>
        ensures { IfOk result (λ text. text ≡ bytes.now) }
    {
        if bytes.len() <= SHORT_MAX {
            return Text::of(alloc, bytes);
        }
        SharedBytes::of(alloc, bytes)?.front(bytes.len())
    }

    /// The text of these bytes, which are moved and not copied.
    pub fn from_vec(bytes: Vec<u8>) -> Text
        ensures { result ≡ bytes.items }
    {
        Text {
            held: Held::Own(bytes),
        }
    }

    /// The text of these bytes, which are moved and not copied, and which its own copies share.
    ///
    /// # Errors
    /// Want of memory.
    pub fn shared_from_vec(alloc: Global, bytes: Vec<u8>) -> Result<Text, AllocError>
        ensures { IfOk result (λ text. text ≡ bytes.items) }
    {
        let end = bytes.len();
        SharedBytes::from_vec(alloc, bytes)?.front(end)
    }

    // the text that is this part of shared bytes
    pub(crate) fn of_part(part: SharedPart) -> Text
        ensures { result ≡ part }
    {
        Text {
            held: Held::Part(part),
        }
    }

    /// The bytes.
    pub fn bytes(&self) -> &[u8]
        ensures { result.now ≡ self.now }
    {
        match &self.held {
            Held::Short(bytes) => bytes.bytes(),
            Held::Own(bytes) => bytes.as_slice(),
            Held::Part(bytes) => bytes.bytes(),
        }
    }

    /// Whether these are the text's bytes.
    pub fn is(&self, bytes: &[u8]) -> bool
        ensures same { IsTrue result ↔ (self.now ≡ bytes.now) }
        ensures value { result ≡ bytes_eq self.now bytes.now }
    {
        self.bytes() == bytes
    }
}

impl Clone for Text {
    ghost is_clone = { λ text copy. copy ≡ text };

    /// The same bytes. They are copied only where the text is their only owner.
    fn clone(&self) -> Result<Text, AllocError> {
        let held = match &self.held {
            Held::Short(bytes) => Held::Short(bytes.clone()?),
            Held::Own(bytes) => Held::Own(copy_of(bytes)?),
            Held::Part(bytes) => Held::Part(bytes.clone()?),
        };
        Ok(Text { held })
    }
}

// a copy of these bytes
fn copy_of(bytes: &Vec<u8>) -> Result<Vec<u8>, AllocError>
    ensures { IfOk result (λ copy. copy.items ≡ bytes.now.items) }
{
    Vec::from_slice(*bytes.allocator(), bytes.as_slice())
}

impl PartialEq for Text {
    ghost eq = { bytes_eq };

    ghost laws = { partial_equiv_from_equiv nat_list_eq_equiv };

    /// Whether both have the same bytes.
    fn eq(&self, other: &Text) -> bool
        ensures value { result ≡ bytes_eq self.now other.now }
        ensures same { IsTrue result ↔ (self.now ≡ other.now) }
    {
        match (&self.held, &other.held) {
            (Held::Short(bytes), Held::Short(others)) => bytes.is_same(others),
            _ => self.is(other.bytes()),
        }
    }
}

impl Eq for Text {
    ghost laws = { nat_list_eq_equiv };
}

impl Hash for Text {
    ghost hash_input = { fed.slice fed.u8 };

    ghost respects_eq = { (same_Alike (fed.slice fed.u8) bytes_decides).fed };

    fn hash<H: Hasher>(&self, state: &mut H) {
        self.bytes().hash(state);
    }
}
