//! What a pass began under a number, and has not ended.

ghost use Rattle.std.specs.Prelude.{◌≡◌, nat_eq, ◌&&◌};
ghost use Rattle.std.proofs.Common.{rules};
ghost use Rattle.std.specs.Cmp.Rules.{comparing, hashing};
ghost use Rattle.std.specs.Hash as fed;
ghost use Rattle.shelf.specs.OpenEquality.{named_alike};

use indexmap::Equivalent;
use std::hash::{Hash, Hasher};

/// What a pass began under a number, and has not ended. Two are equal where their numbers and passes are.
#[derive(Drop)]
pub struct Open<T> {
    pub number: u64,
    pub pass: u32,
    pub what: T,
}

impl<T> PartialEq for Open<T> {
    ghost eq = { λ x y. nat_eq x.number y.number && nat_eq x.pass y.pass };

    ghost laws = { Prim.search (comparing, rules) };

    /// Whether number and pass are the same.
    fn eq(&self, other: &Open<T>) -> bool {
        self.number == other.number && self.pass == other.pass
    }
}

impl<T> Eq for Open<T> {
    ghost laws = { Prim.search (comparing, rules) };
}

impl<T> Hash for Open<T> {
    ghost hash_input = { λ x. fed.u64 x.number };

    ghost respects_eq = { Prim.search (hashing, rules) };

    /// Feeds the number.
    fn hash<H: Hasher>(&self, state: &mut H) {
        self.number.hash(state);
    }
}

/// A query for what this pass began under this number.
#[derive(Clone, Copy)]
pub struct Named {
    pub number: u64,
    pub pass: u32,
}

impl PartialEq for Named {
    ghost eq = { λ x y. nat_eq x.number y.number && nat_eq x.pass y.pass };

    ghost laws = { Prim.search (comparing, rules) };

    /// Whether number and pass are the same.
    fn eq(&self, other: &Named) -> bool {
        self.number == other.number && self.pass == other.pass
    }
}

impl Eq for Named {
    ghost laws = { Prim.search (comparing, rules) };
}

impl Hash for Named {
    ghost hash_input = { λ x. fed.u64 x.number };

    ghost respects_eq = { Prim.search (hashing, rules) };

    /// Feeds the number.
    fn hash<H: Hasher>(&self, state: &mut H) {
        self.number.hash(state);
    }
}

impl<T> Equivalent<Open<T>> for Named {
    ghost equivalent = { λ q x. nat_eq x.number q.number && nat_eq x.pass q.pass };

    ghost respects_hash = { Prim.search (hashing, rules) };

    ghost respects_eq = { λ q x y.
        named_alike (q.number, q.pass) (x.number, x.pass) (y.number, y.pass) };

    /// Whether it stands for this.
    fn equivalent(&self, open: &Open<T>) -> bool {
        open.number == self.number && open.pass == self.pass
    }
}
