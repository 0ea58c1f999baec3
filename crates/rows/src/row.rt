//! A row of items: each is found by its key in constant time, and they keep their order.

ghost use Rattle.std.specs.Prelude.{◌≡◌, ◌+◌, ◌-◌, ◌*◌, ◌<◌, ◌≤◌, ◌^◌, [], ◌∷◌, ◌++◌, true, not, None, Some, is_some, max, length, get_or, set, take, remove, slice_get, option_map, option_to_list, find, filter, IfSome, IfNone, IsOk, OnOk, OnErr};
ghost use Rattle.rows.specs.Cells.{present};
ghost use Rattle.std.specs.Prelude.{All, Contains};
ghost use Rattle.rows.specs.Row.{moved, ArePassed, IsTakenOut};

use crate::cells::Cells;
use indexmap::Equivalent;
use std::alloc::{AllocError, Global};
use std::hash::Hash;
use std::marker::Model;

/// Items in order, no two with equal keys, and reserved places for more. It is seen as the list of items, the number of
/// reserved places, and how many items a walk from the first on has passed. Each call takes constant time on average,
/// whatever the number of items: the log that keeps the order has at least twice as many places as there are items and
/// reserved places, and is closed up when it is full.
#[derive(Drop)]
pub struct Row<T: Eq + Hash + Drop> {
    cells: Cells<T>,
    count: usize,
    front: usize,
    spare: usize,
    walk: usize,
}

impl<T: Eq + Hash + Drop> Model for Row<T> {
    ghost use Rattle.std.specs.Prelude.{length, take};
    ghost use Rattle.rows.specs.Cells.{present};
    ghost use Rattle.rows.specs.Row.{RowSeen, IsRow};

    ghost Value = { RowSeen T };

    ghost view = { λ r. record {
      items = present r.cells.cells;
      spare = r.spare;
      passed = length (present (take r.walk r.cells.cells));
    } };

    ghost invariant = { λ r. IsRow r.cells r.count r.front r.spare r.walk };
}

impl<T: Eq + Hash + Drop> Row<T> {
    /// The empty row, with no reserved place. It takes no memory.
    pub fn new(alloc: Global) -> Row<T>
        ensures { result ≡ record { items = []; spare = 0; passed = 0 } }
    {
        Row {
            cells: Cells::new(alloc),
            count: 0,
            front: 0,
            spare: 0,
            walk: 0,
        }
    }

    /// How many items there are.
    pub fn len(&self) -> usize
        ensures { result ≡ length self.now.items }
    {
        self.count
    }

    /// How many more items can be pushed without memory.
    pub fn spare(&self) -> usize
        ensures { result ≡ self.now.spare }
    {
        self.spare
    }

    /// Reserves places, so that at least `n` items can be pushed without memory. It takes memory only where there are
    /// fewer, and then so much that a push costs the same on average whatever the row holds.
    ///
    /// # Errors
    /// Want of memory. The row is then as before.
    pub fn reserve(&mut self, _alloc: Global, n: usize) -> Result<(), AllocError>
        ensures places { OnOk result (self.new ≡ record self.old { spare = max self.old.spare n }) }
        ensures refused { OnErr result (self.new ≡ self.old) }
        ensures at_hand { n ≤ self.old.spare → IsOk result }
    {
        if n <= self.spare {
            return Ok(());
        }
        let Some(places) = places_for(self.count, n) else {
            return Err(AllocError);
        };
        self.cells.reserve(n, places)?;
        self.spare = n;
        Ok(())
    }

    /// Gives one reserved place back.
    pub fn give_back(&mut self)
        requires { 0 < self.old.spare }
        ensures { self.new ≡ record self.old { spare = self.old.spare - 1 } }
    {
        self.spare -= 1;
    }

    /// The item that the query stands for.
    pub fn find<Q: Equivalent<T>>(&self, query: Q) -> Option<&T>
        ensures { option_map (λ o. o.now) result ≡ find (Q.equivalent query) self.now.items }
    {
        match self.cells.place_of(query) {
            Some(p) => self.cells.get(p),
            None => None,
        }
    }

    /// Adds an item at the end, at a reserved place. It takes no memory.
    pub fn push(&mut self, item: T)
        requires absent { find (T.eq item) self.old.items ≡ None }
        requires spare { 0 < self.old.spare }
        ensures after { self.new ≡ record {
          items = self.old.items ++ item ∷ [];
          spare = self.old.spare - 1;
          passed = self.new.passed;
        } }
        ensures passed { ArePassed self.old self.new }
    {
        make_room(&mut self.cells, &mut self.front, &mut self.walk);
        self.cells.push(item);
        self.count += 1;
        self.spare -= 1;
    }

    /// Takes out the item that the query stands for. It takes no memory.
    pub fn take<Q: Equivalent<T>>(&mut self, query: Q) -> Option<T>
        ensures found { result ≡ find (Q.equivalent query) self.old.items }
        ensures after { self.new ≡ record self.old {
          items = filter (λ o. not (Q.equivalent query o)) self.old.items;
          passed = self.new.passed;
        } }
        ensures passed { ArePassed self.old self.new }
        ensures one { IsTakenOut result self.old.items self.new.items }
    {
        let Some(p) = self.cells.place_of(query) else {
            return None;
        };
        let taken = self.cells.take(p);
        self.count -= 1;
        self.front = first_place(&self.cells, self.front);
        taken
    }

    /// Moves the item that the query stands for to the end. It takes no memory.
    pub fn touch<Q: Equivalent<T>>(&mut self, query: Q)
        ensures after { self.new ≡ record self.old {
          items = moved (Q.equivalent query) self.old.items;
          passed = self.new.passed;
        } }
        ensures passed { ArePassed self.old self.new }
        ensures one { IsTakenOut (find (Q.equivalent query) self.old.items) self.old.items
            (filter (λ o. not (Q.equivalent query o)) self.old.items) }
    {
        make_room(&mut self.cells, &mut self.front, &mut self.walk);
        let Some(p) = self.cells.place_of(query) else {
            return;
        };
        move_to_end(&mut self.cells, p);
        self.front = first_place(&self.cells, self.front);
    }

    /// The first item.
    pub fn first(&self) -> Option<&T>
        ensures { option_map (λ o. o.now) result ≡ slice_get self.now.items 0 }
    {
        let p = first_place(&self.cells, self.front);
        if p == self.cells.len() {
            return None;
        }
        self.cells.get(p)
    }

    /// Takes out the first item, and a walk begins anew. It takes no memory.
    pub fn take_first(&mut self) -> Option<T>
        ensures taken { self.old.items ≡ option_to_list result ++ self.new.items }
        ensures none { IfNone result (self.old.items ≡ []) }
        ensures spare { self.new.spare ≡ self.old.spare }
        ensures passed { self.new.passed ≡ 0 }
    {
        self.walk = 0;
        let p = first_place(&self.cells, self.front);
        if p == self.cells.len() {
            return None;
        }
        let taken = self.cells.take(p);
        self.count -= 1;
        self.front = p;
        taken
    }

    /// The item that a walk comes to next.
    pub fn next(&self) -> Option<&T>
        ensures { option_map (λ o. o.now) result ≡ slice_get self.now.items self.now.passed }
    {
        let place = next_place(&self.cells, self.walk);
        if place == self.cells.len() {
            return None;
        }
        self.cells.get(place)
    }

    /// A walk passes the next item.
    pub fn pass(&mut self)
        requires { self.old.passed < length self.old.items }
        ensures { self.new ≡ record self.old { passed = self.old.passed + 1 } }
    {
        let p = next_place(&self.cells, self.walk);
        self.walk = next_place(&self.cells, p + 1);
    }

    /// Takes out the item that a walk comes to next; the others keep their order. It takes no memory.
    pub fn take_next(&mut self) -> T
        requires { self.old.passed < length self.old.items }
        ensures out { slice_get self.old.items self.old.passed ≡ Some result }
        ensures after { self.new ≡ record self.old { items = remove self.old.items self.old.passed } }
    {
        let p = next_place(&self.cells, self.walk);
        let taken = self.cells.take(p);
        self.count -= 1;
        self.walk = next_place(&self.cells, p);
        self.front = first_place(&self.cells, self.front);
        match taken {
            Some(item) => item,
            None => unreachable!(),
        }
    }

    /// A walk begins anew, at the first item.
    pub fn walk_anew(&mut self)
        ensures { self.new ≡ record self.old { passed = 0 } }
    {
        self.walk = 0;
    }
}

// twice as many places as there are items and reserved places
fn places_for(items: usize, spare: usize) -> Option<usize>
    ensures { IfSome result (λ n. n ≡ 2 * (items + spare)) }
{
    items.checked_add(spare)?.checked_mul(2)
}

// the first place that has an item, where none before this one has, or the number of places
fn first_place<T: Eq + Hash + Drop>(cells: &Cells<T>, from: usize) -> usize
    requires gone { present (take from cells.now.cells) ≡ [] }
    requires within { from ≤ length cells.now.cells }
    ensures gone { present (take result cells.now.cells) ≡ [] }
    ensures within { result ≤ length cells.now.cells }
    ensures there { result < length cells.now.cells → is_some (get_or cells.now.cells result None) ≡ true }
{
    next_place(cells, from)
}

// the first place from here on that has an item, or the number of places
fn next_place<T: Eq + Hash + Drop>(cells: &Cells<T>, from: usize) -> usize
    requires { from ≤ length cells.now.cells }
    ensures same { present (take result cells.now.cells) ≡ present (take from cells.now.cells) }
    ensures small { length cells.now.cells < 2 ^ 64 }
    ensures within { result ≤ length cells.now.cells }
    ensures there { result < length cells.now.cells → is_some (get_or cells.now.cells result None) ≡ true }
{
    'places: for p in from..cells.len() {
        if cells.has(p) {
            return p;
        }
    }
    cells.len()
}

// closes the log up where there is no room for a place, and a walk begins anew then
fn make_room<T: Eq + Hash + Drop>(cells: &mut Cells<T>, front: &mut usize, walk: &mut usize)
    requires gone { present (take front.old cells.old.cells) ≡ [] }
    requires within { front.old ≤ length cells.old.cells }
    requires walk { walk.old ≤ length cells.old.cells }
    ensures items { present cells.new.cells ≡ present cells.old.cells }
    ensures gone { present (take front.new cells.new.cells) ≡ [] }
    ensures within { front.new ≤ length cells.new.cells }
    ensures walk { walk.new ≤ length cells.new.cells }
    ensures passed { All (Contains (present (take walk.old cells.old.cells))) (present (take walk.new cells.new.cells)) }
    ensures spare { cells.new.spare ≡ cells.old.spare }
    ensures total { cells.new.room + length cells.new.cells ≡ cells.old.room + length cells.old.cells }
    ensures small { cells.new.room + length cells.new.cells < 2 ^ 64 }
    ensures room { length (present cells.old.cells) < cells.old.room + length cells.old.cells → 0 < cells.new.room }
{
    if cells.room() > 0 {
        return;
    }
    squeeze(cells);
    *front = 0;
    *walk = 0;
}

// moves all items to the front, and takes the gaps away
fn squeeze<T: Eq + Hash + Drop>(cells: &mut Cells<T>)
    ensures items { present cells.new.cells ≡ present cells.old.cells }
    ensures full { length cells.new.cells ≡ length (present cells.old.cells) }
    ensures spare { cells.new.spare ≡ cells.old.spare }
    ensures total { cells.new.room + length cells.new.cells ≡ cells.old.room + length cells.old.cells }
{
    let mut to = 0;
    'squeeze: for p in 0..cells.len() {
        if cells.has(p) {
            cells.slide(p, to);
            to += 1;
        }
    }
    cells.truncate(to);
}

// moves the item at a place to the end
fn move_to_end<T: Eq + Hash + Drop>(cells: &mut Cells<T>, p: usize)
    requires within { p < length cells.old.cells }
    requires room { 0 < cells.old.room }
    ensures moved { (o : T) → get_or cells.old.cells p None ≡ Some o
        → cells.new.cells ≡ set cells.old.cells p None ++ Some o ∷ [] }
    ensures spare { cells.new.spare ≡ cells.old.spare }
    ensures room { cells.new.room + 1 ≡ cells.old.room }
{
    let to = cells.len();
    cells.push_gap();
    cells.slide(p, to);
}
