//! What is kept of a fetch, and how it is looked up.

ghost use Rattle.std.specs.Prelude.{◌≡◌};
ghost use Rattle.std.specs.Cmp.{decided, on_equiv, on_per, partial_equiv_from_equiv};
ghost use Rattle.std.specs.Hash.{same_Alike};
ghost use Rattle.cdni_base.specs.Key.{same_key, fed_key};
ghost use Rattle.cdni_base.specs.KeyEqualityLemmas.{key_decides};

use cdni_base::{Body, Key, Text, TypeName};
use indexmap::Equivalent;
use std::hash::{Hash, Hasher};

/// What a fetch brought for a key. Two objects are equal where their keys are: a table has one of a key at most.
#[derive(Drop)]
pub struct Object {
    /// What it is kept under.
    pub key: Key,
    /// The number of the fetch that brought it.
    pub fetch: u64,
    /// The collection to which it belongs (RFC 8006, section 4.2.8).
    pub ccid: Option<Text>,
    /// Its content type.
    pub kind: TypeName,
    /// Its bytes.
    pub body: Body,
    /// The last start of a trigger that need not be tried on it: the last one when its fetch was opened.
    pub begun: u64,
}

impl PartialEq for Object {
    ghost eq = { λ x y. same_key x.key y.key };

    ghost laws = { on_per (λ x. x.key) (partial_equiv_from_equiv (decided same_key key_decides)) };

    /// Whether the keys are the same.
    fn eq(&self, other: &Object) -> bool {
        self.key == other.key
    }
}

impl Eq for Object {
    ghost laws = { on_equiv (λ x. x.key) (decided same_key key_decides) };
}

impl Hash for Object {
    ghost hash_input = { λ o. fed_key o.key };

    ghost respects_eq = { λ x y. (same_Alike fed_key key_decides).fed x.key y.key };

    /// Feeds the key.
    fn hash<H: Hasher>(&self, state: &mut H) {
        self.key.hash(state);
    }
}

/// A query for the object of a key.
#[derive(Clone, Copy, PartialEq, Eq, Hash)]
pub struct Wanted<'k> {
    pub key: &'k Key,
}

impl<'k> Equivalent<Object> for Wanted<'k> {
    ghost equivalent = { λ q o. same_key q.key.now o.key };

    ghost respects_hash = { λ q o. (same_Alike fed_key key_decides).fed q.key.now o.key };

    ghost respects_eq = { λ q x y. (decided same_key key_decides).congr q.key.now x.key y.key };

    fn equivalent(&self, object: &Object) -> bool {
        *self.key == object.key
    }
}
