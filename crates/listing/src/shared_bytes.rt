//! Bytes of which several texts are parts.

ghost use Rattle.std.specs.Prelude.{◌≡◌, ◌≤◌, length, take, drop, slice_range, IfOk};

use crate::text::Text;
use std::alloc::{AllocError, Global};
use std::marker::Model;
use std::sync::Arc;

/// Bytes that texts share: a part of them is a text, and neither the part nor its copies have bytes of their own. They go
/// with the last of these texts. It is seen as the list of bytes.
#[derive(Drop)]
pub struct SharedBytes {
    bytes: Arc<Vec<u8>>,
}

impl Model for SharedBytes {
    ghost use Rattle.std.specs.Prelude.{ℕ, List};

    ghost Value = { List ℕ };

    ghost view = { λ b. b.bytes.value.items };
}

impl SharedBytes {
    /// A copy of `bytes`.
    ///
    /// # Errors
    /// Want of memory.
    pub fn of(alloc: Global, bytes: &[u8]) -> Result<SharedBytes, AllocError>
        ensures { IfOk result (λ shared. shared ≡ bytes.now) }
    {
        Ok(SharedBytes {
            bytes: Arc::new(alloc, Vec::from_slice(alloc, bytes)?)?,
        })
    }

    /// These bytes, which are moved and not copied.
    ///
    /// # Errors
    /// Want of memory.
    pub fn from_vec(alloc: Global, bytes: Vec<u8>) -> Result<SharedBytes, AllocError>
        ensures { IfOk result (λ shared. shared ≡ bytes.items) }
    {
        Ok(SharedBytes {
            bytes: Arc::new(alloc, bytes)?,
        })
    }

    /// The first `end` bytes.
    ///
    /// # Errors
    /// Want of memory.
    pub fn front(&self, end: usize) -> Result<Text, AllocError>
        requires { end ≤ length self.now }
        ensures { IfOk result (λ text. text ≡ take end self.now) }
    {
        self.part(0, end)
    }

    /// The bytes from `start` on.
    ///
    /// # Errors
    /// Want of memory.
    pub fn rest(&self, start: usize) -> Result<Text, AllocError>
        requires { start ≤ length self.now }
        ensures { IfOk result (λ text. text ≡ drop start self.now) }
    {
        self.part(start, self.bytes.len())
    }

    // the bytes between two places
    fn part(&self, start: usize, end: usize) -> Result<Text, AllocError>
        requires order { start ≤ end }
        requires within { end ≤ length self.now }
        ensures { IfOk result (λ text. text ≡ slice_range self.now start end) }
    {
        Ok(Text::of_part(SharedPart {
            whole: Arc::try_clone(&self.bytes)?,
            start,
            end,
        }))
    }
}

/// A part of shared bytes. It is seen as the list of its bytes.
#[derive(Drop)]
pub(crate) struct SharedPart {
    whole: Arc<Vec<u8>>,
    start: usize,
    end: usize,
}

impl Model for SharedPart {
    ghost use Rattle.std.specs.Prelude.{ℕ, ◌≤◌, List, length, slice_range};

    ghost Value = { List ℕ };

    ghost view = { λ p. slice_range p.whole.value.items p.start p.end };

    ghost invariant = { λ p. (p.start ≤ p.end) × (p.end ≤ length p.whole.value.items) };
}

impl SharedPart {
    /// The bytes.
    pub fn bytes(&self) -> &[u8]
        ensures { result.now ≡ self.now }
    {
        &self.whole.as_slice()[self.start..self.end]
    }
}

impl Clone for SharedPart {
    ghost is_clone = { λ part copy. copy ≡ part };

    /// One more owner of the same bytes, of which none is copied.
    fn clone(&self) -> Result<SharedPart, AllocError> {
        Ok(SharedPart {
            whole: Arc::try_clone(&self.whole)?,
            start: self.start,
            end: self.end,
        })
    }
}
