//! A list with reserved places: a place is reserved where memory may end, and an item is pushed later without memory.

ghost use Rattle.std.specs.Prelude.{◌≡◌, ◌<◌, ◌≤◌, [], length, slice_get, Some, IsOk, OnOk, OnErr};
ghost use Rattle.listing.specs.ReservedList.{with_item, emptied};

use std::alloc::{AllocError, Global};
use std::marker::Model;

/// Items in order, seen as the list of them and the number of places that are reserved for more.
#[derive(Drop)]
pub struct ReservedList<T> {
    items: Vec<T>,
}

impl<T> Model for ReservedList<T> {
    ghost use Rattle.std.specs.Prelude.{◌-◌, vec_len};
    ghost use Rattle.std.specs.Vec.{vec_capacity};
    ghost use Rattle.listing.specs.ReservedList.{Places};

    ghost Value = { Places T };

    ghost view = { λ l. record { items = l.items.items; spare = vec_capacity l.items - vec_len l.items } };
}

impl<T> ReservedList<T> {
    /// The empty list, with no reserved place. It takes no memory.
    pub fn new(alloc: Global) -> ReservedList<T>
        ensures { result ≡ record { items = []; spare = 0 } }
    {
        ReservedList {
            items: Vec::new(alloc),
        }
    }

    /// Reserves places, so that at least `n` items can be pushed without memory. It takes memory only where there are
    /// fewer, and then so much that a push costs the same on average whatever the list holds.
    ///
    /// # Errors
    /// Want of memory. The list is then as before.
    pub fn reserve(&mut self, _alloc: Global, n: usize) -> Result<(), AllocError>
        ensures places { OnOk result (n ≤ self.new.spare) }
        ensures kept { self.new.items ≡ self.old.items }
        ensures no_fewer { self.old.spare ≤ self.new.spare }
        ensures refused { OnErr result (self.new ≡ self.old) }
        ensures at_hand { n ≤ self.old.spare → IsOk result }
    {
        if n <= self.spare() {
            return Ok(());
        }
        match self.items.reserve_exact(n.max(self.items.len())) {
            Ok(()) => Ok(()),
            Err(_) => self.items.reserve_exact(n),
        }
    }

    /// Adds `item` at the end, at a reserved place. It takes no memory.
    pub fn push_reserved(&mut self, item: T)
        requires { 0 < self.old.spare }
        ensures { self.new ≡ with_item self.old item }
    {
        self.items.push_reserved(item);
    }

    /// Drops all items. Their places stay reserved, with those that were.
    pub fn clear(&mut self)
    where
        T: Drop,
        ensures { self.new ≡ emptied self.old }
    {
        self.items.clear();
    }

    /// How many items there are.
    pub fn len(&self) -> usize
        ensures { result ≡ length self.now.items }
    {
        self.items.len()
    }

    /// How many more items can be pushed without memory.
    pub fn spare(&self) -> usize
        ensures { result ≡ self.now.spare }
    {
        self.items.capacity() - self.items.len()
    }

    /// Item `i`, counted from 0.
    pub fn at(&self, i: usize) -> &T
        requires { i < length self.now.items }
        ensures { slice_get self.now.items i ≡ Some result.now }
    {
        &self.items[i]
    }

    /// The items, in order.
    pub fn as_slice(&self) -> &[T]
        ensures { result.now ≡ self.now.items }
    {
        &self.items
    }
}
