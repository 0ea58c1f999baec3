//! Items in a log of places: each item is found by its key, and knows its place.

ghost use Rattle.std.specs.Prelude.{◌≡◌, ◌+◌, ◌<◌, ◌≤◌, ◌^◌, ◌⊎◌, ℕ, [], ◌∷◌, ◌++◌, true, false, None, Some, is_some, length, get_or, set, take, drop, slice_get, option_map, vec_len, IfSome, IfNone, IsOk, OnOk};
ghost use Rattle.std.specs.Vec.{vec_capacity};
ghost use Rattle.indexmap.specs.IndexMap.{spare};
ghost use Rattle.rows.specs.Cells.{AreApart, AreTied, cell_of, cells_of, present, relinked, slid};

use indexmap::{Equivalent, IndexMap};
use std::alloc::{AllocError, Global};
use std::hash::Hash;
use std::marker::Model;

/// Items and gaps in places. It is seen as what stands in each place, how many more items can be pushed without memory,
/// and how many places can be added without memory.
#[derive(Drop)]
pub struct Cells<T: Eq + Hash + Drop> {
    objects: IndexMap<T, usize>,
    log: Vec<Option<usize>>,
}

impl<T: Eq + Hash + Drop> Model for Cells<T> {
    ghost use Rattle.std.specs.Prelude.{◌-◌, vec_len};
    ghost use Rattle.std.specs.Vec.{vec_capacity};
    ghost use Rattle.indexmap.specs.IndexMap.{spare};
    ghost use Rattle.rows.specs.Cells.{CellsSeen, cells_of, AreTied};

    ghost Value = { CellsSeen T };

    ghost view = { λ c. record {
      cells = cells_of c.objects.entries c.log.items;
      spare = spare c.objects;
      room = vec_capacity c.log - vec_len c.log;
    } };

    ghost invariant = { λ c. AreTied c.objects.entries c.log.items };
}

impl<T: Eq + Hash + Drop> Cells<T> {
    /// No places. It takes no memory.
    pub fn new(alloc: Global) -> Cells<T>
        ensures { result.cells ≡ [] }
    {
        Cells {
            objects: IndexMap::new(alloc),
            log: Vec::new(alloc),
        }
    }

    /// How many places there are.
    pub fn len(&self) -> usize
        ensures { result ≡ length self.now.cells }
    {
        self.log.len()
    }

    /// How many places can be added without memory.
    pub fn room(&self) -> usize
        ensures room { result ≡ self.now.room }
        ensures small { self.now.room + length self.now.cells < 2 ^ 64 }
    {
        self.log.capacity() - self.log.len()
    }

    /// The place of the item that the query stands for.
    pub fn place_of<Q: Equivalent<T>>(&self, query: Q) -> Option<usize>
        ensures found { IfSome result (λ p.
            (o : T) × (get_or self.now.cells p None ≡ Some o) × (Q.equivalent query o ≡ true)) }
        ensures none { IfNone result (
            (p : ℕ) (o : T) → get_or self.now.cells p None ≡ Some o → Q.equivalent query o ≡ false) }
        ensures apart { AreApart (Q.equivalent query) self.now.cells }
    {
        match self.objects.get_index_of(query) {
            Some(index) => match self.objects.get_index(index) {
                Some((_, place)) => Some(*place),
                None => unreachable!(),
            },
            None => None,
        }
    }

    /// The item at a place.
    pub fn get(&self, p: usize) -> Option<&T>
        requires { p < length self.now.cells }
        ensures { option_map (λ o. o.now) result ≡ get_or self.now.cells p None }
    {
        let index = self.log[p]?;
        let (object, _) = self.objects.get_index(index)?;
        Some(object)
    }

    /// Whether a place has an item.
    pub fn has(&self, p: usize) -> bool
        requires { p < length self.now.cells }
        ensures { result ≡ is_some (get_or self.now.cells p None) }
    {
        self.log[p].is_some()
    }

    /// Takes the item out of a place, which is a gap then.
    pub fn take(&mut self, p: usize) -> Option<T>
        requires { p < length self.old.cells }
        ensures taken { result ≡ get_or self.old.cells p None }
        ensures cells { self.new.cells ≡ set self.old.cells p None }
        ensures spare { self.old.spare ≤ self.new.spare }
        ensures room { self.new.room ≡ self.old.room }
    {
        match self.log[p] {
            Some(index) => take_entry(&mut self.objects, &mut self.log, p, index),
            None => None,
        }
    }

    /// Adds a gap at the end.
    pub fn push_gap(&mut self)
        requires { 0 < self.old.room }
        ensures cells { self.new.cells ≡ self.old.cells ++ None ∷ [] }
        ensures spare { self.new.spare ≡ self.old.spare }
        ensures room { self.new.room + 1 ≡ self.old.room }
    {
        self.log.push_reserved(None);
    }

    /// Adds an item at the end.
    pub fn push(&mut self, item: T)
        requires absent { (p : ℕ) (o : T) → get_or self.old.cells p None ≡ Some o → T.eq item o ≡ false }
        requires spare { 0 < self.old.spare }
        requires room { 0 < self.old.room }
        ensures cells { self.new.cells ≡ self.old.cells ++ Some item ∷ [] }
        ensures spare { self.old.spare ≤ self.new.spare + 1 }
        ensures room { self.new.room + 1 ≡ self.old.room }
    {
        let place = self.log.len();
        self.log.push_reserved(Some(self.objects.len()));
        match self.objects.insert(item, place) {
            Ok(_) => {}
            Err(_) => unreachable!(),
        }
    }

    /// Moves what stands at place `p` to the place `to`, which is a gap or the same place.
    pub fn slide(&mut self, p: usize, to: usize)
        requires within { p < length self.old.cells }
        requires to { to < length self.old.cells }
        requires gap { (to ≡ p) ⊎ (get_or self.old.cells to None ≡ None) }
        ensures cells { self.new.cells ≡ slid self.old.cells p to (get_or self.old.cells p None) }
        ensures spare { self.new.spare ≡ self.old.spare }
        ensures room { self.new.room ≡ self.old.room }
    {
        if let Some(index) = self.log[p] {
            self.log[p] = None;
            self.log[to] = Some(index);
            self.objects[index] = to;
        }
    }

    /// Takes away the places from `n` on, which are gaps.
    pub fn truncate(&mut self, n: usize)
        requires { present (drop n self.old.cells) ≡ [] }
        ensures cells { self.new.cells ≡ take n self.old.cells }
        ensures spare { self.new.spare ≡ self.old.spare }
        ensures total { self.new.room + length self.new.cells ≡ self.old.room + length self.old.cells }
    {
        self.log.truncate(n);
    }

    /// Reserves memory, so that at least `n` items can be pushed, and there are at least `places` places in all.
    ///
    /// # Errors
    /// Want of memory. All items stand where they were.
    pub fn reserve(&mut self, n: usize, places: usize) -> Result<(), AllocError>
        ensures cells { self.new.cells ≡ self.old.cells }
        ensures enough { OnOk result (n ≤ self.new.spare) }
        ensures places { OnOk result (places ≤ self.new.room + length self.new.cells) }
        ensures spare { self.old.spare ≤ self.new.spare }
        ensures room { self.old.room ≤ self.new.room }
    {
        self.objects.reserve(n)?;
        self.log.reserve(places.saturating_sub(self.log.len()))
    }
}

// takes the entry out of the map, and the last entry gets its number
fn take_entry<T: Eq + Hash + Drop>(
    objects: &mut IndexMap<T, usize>,
    log: &mut Vec<Option<usize>>,
    p: usize,
    index: usize,
) -> Option<T>
    requires tied { AreTied objects.old.entries log.old.items }
    requires there { get_or log.old.items p None ≡ Some index }
    ensures taken { result ≡ cell_of objects.old.entries (Some index) }
    ensures tied { AreTied objects.new.entries log.new.items }
    ensures cells { cells_of objects.new.entries log.new.items
        ≡ set (cells_of objects.old.entries log.old.items) p None }
    ensures spare { spare objects.old ≤ spare objects.new }
    ensures len { vec_len log.new ≡ vec_len log.old }
    ensures capacity { vec_capacity log.new ≡ vec_capacity log.old }
{
    log[p] = None;
    let (object, _) = objects.swap_remove_index(index)?;
    relink(objects, log, index);
    Some(object)
}

// the place of the entry names it by its number
fn relink<T: Eq + Hash + Drop>(
    objects: &IndexMap<T, usize>,
    log: &mut Vec<Option<usize>>,
    index: usize,
)
    requires { IfSome (slice_get objects.now.entries index) (λ e. e.1 < length log.old.items) }
    ensures items { log.new.items ≡ relinked (slice_get objects.now.entries index) index log.old.items }
    ensures len { vec_len log.new ≡ vec_len log.old }
    ensures capacity { vec_capacity log.new ≡ vec_capacity log.old }
{
    if let Some((_, place)) = objects.get_index(index) {
        log[*place] = Some(index);
    }
}
