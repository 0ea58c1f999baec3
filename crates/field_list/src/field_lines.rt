//! Heads whose header fields are read one after the other.

ghost use Rattle.std.specs.Prelude.{◌≡◌, ◌<◌, ℕ, List, length, Some, slice_get};

use http_wire::{Head, Header, ResponseHead};

/// A head with header fields: that of a request or of a response.
pub trait FieldLines: Drop {
    ghost lines: { Self → List (List ℕ × List ℕ) };

    /// How many header fields there are.
    fn count(&self) -> usize
        ensures { result ≡ length (lines self.now) };

    /// Header field `i`, counted from 0.
    fn line(&self, i: usize) -> Header<'_>
        requires { i < length (lines self.now) }
        ensures { slice_get (lines self.now) i ≡ Some (result.name.now, result.value.now) };
}

impl FieldLines for Head {
    ghost lines = { λ head. head.headers };

    fn count(&self) -> usize {
        self.header_count()
    }

    fn line(&self, i: usize) -> Header<'_> {
        self.header(i)
    }
}

impl FieldLines for ResponseHead {
    ghost lines = { λ head. head.headers };

    fn count(&self) -> usize {
        self.header_count()
    }

    fn line(&self, i: usize) -> Header<'_> {
        self.header(i)
    }
}
