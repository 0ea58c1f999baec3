//! The table of kept objects.

ghost use Rattle.std.specs.Prelude.{◌≡◌, ◌+◌, ◌-◌, ◌<◌, ◌≤◌, ◌^◌, [], ◌∷◌, ◌++◌, Ok, Some, OnOk, OnErr, length, remove, slice_get};
ghost use Rattle.std.specs.Option.{option_map};
ghost use Rattle.rows.specs.Row as rows;
ghost use Rattle.rows.specs.Row.{moved};
ghost use Rattle.object_cache.specs.ObjectTable.{AreApart, ArePassed, evicted, filled, is_filled, is_newer, is_of, kept_of, length_of, others, renewed, total};

use crate::object::{Object, Wanted};
use cdni_base::{Body, Key};
use rows::Row;
use std::alloc::{AllocError, Global};
use std::marker::Model;

/// The objects that are kept, the least recently used first. It is seen as the most bytes that they may have together,
/// the list of them, how many more can be filled in without memory, and how many of them a walk from the first on has
/// passed. Each call takes constant time on average, whatever the number of objects; of those that leave, each counts for
/// itself.
#[derive(Drop)]
pub struct ObjectTable {
    row: Row<Object>,
    sum: u64,
    limit: u64,
}

impl Model for ObjectTable {
    ghost use Rattle.std.specs.Prelude.{◌≡◌, ◌≤◌, []};
    ghost use Rattle.object_cache.specs.ObjectTable.{AreApart, Kept, total};

    ghost Value = { Kept };

    ghost view = { λ t. record {
      limit = t.limit;
      objects = t.row.items;
      spare = t.row.spare;
      passed = t.row.passed;
    } };

    ghost invariant = { λ t. (t.sum ≡ total t.row.items) × (t.sum ≤ t.limit) × AreApart [] t.row.items };
}

impl ObjectTable {
    /// A table without objects that keeps at most `limit` bytes. It takes no memory, and does not fail.
    pub fn new(alloc: Global, limit: u64) -> Result<ObjectTable, AllocError>
        ensures { result ≡ Ok (record { limit = limit; objects = []; spare = 0; passed = 0 }) }
    {
        Ok(ObjectTable {
            row: Row::new(alloc),
            sum: 0,
            limit,
        })
    }

    /// Reserves memory, so that one more object can be filled in without memory.
    ///
    /// # Errors
    /// Want of memory. The table is then as before.
    pub fn reserve_fill(&mut self, alloc: Global) -> Result<(), AllocError>
        ensures more { OnOk result (self.new ≡ record self.old { spare = self.old.spare + 1 }) }
        ensures refused { OnErr result (self.new ≡ self.old) }
    {
        let Some(spare) = self.row.spare().checked_add(1) else {
            return Err(AllocError);
        };
        self.row.reserve(alloc, spare)
    }

    /// Gives the memory for one object back.
    pub fn give_back(&mut self)
        requires { 0 < self.old.spare }
        ensures { self.new ≡ record self.old { spare = self.old.spare - 1 } }
    {
        self.row.give_back();
    }

    /// The object that is kept under the key.
    pub fn find(&self, key: &Key) -> Option<&Object>
        ensures found { option_map (λ o. o.now) result ≡ kept_of key.now self.now.objects }
        ensures apart { AreApart [] self.now.objects }
    {
        self.row.find(Wanted { key })
    }

    /// Moves the object that is kept under the key to the end, as the most recently used. It takes no memory.
    pub fn touch(&mut self, key: &Key)
        ensures after { self.new ≡ record self.old {
          objects = moved (is_of key.now) self.old.objects;
          passed = self.new.passed;
        } }
        ensures passed { ArePassed self.old self.new }
        ensures apart { AreApart [] self.old.objects }
    {
        self.row.touch(Wanted { key });
    }

    /// Moves the object that is kept under the key to the end, as `touch` does, and notes that the starts up to this one
    /// need not be tried on it.
    ///
    /// # Errors
    /// Want of memory. The table is then as before.
    pub fn renew(&mut self, alloc: Global, key: &Key, begun: u64) -> Result<(), AllocError>
        ensures after { OnOk result (self.new ≡ record self.old {
          objects = renewed key.now begun self.old.objects;
          passed = self.new.passed;
        }) }
        ensures passed { ArePassed self.old self.new }
        ensures apart { AreApart [] self.old.objects }
        ensures refused { OnErr result (self.new ≡ self.old) }
    {
        let Some(spare) = self.row.spare().checked_add(1) else {
            return Err(AllocError);
        };
        self.row.reserve(alloc, spare)?;
        renew(&mut self.row, key, begun);
        Ok(())
    }

    /// Takes out the object that is kept under the key. It takes no memory.
    pub fn take(&mut self, key: &Key)
        ensures after { self.new ≡ record self.old {
          objects = others key.now self.old.objects;
          passed = self.new.passed;
        } }
        ensures passed { ArePassed self.old self.new }
        ensures apart { AreApart [] self.old.objects }
    {
        take_key(&mut self.row, &mut self.sum, key);
    }

    /// The lengths of all objects together, in bytes.
    pub fn held(&self) -> u64
        ensures { result ≡ total self.now.objects }
    {
        self.sum
    }

    /// How many objects are kept.
    pub fn len(&self) -> usize
        ensures { result ≡ length self.now.objects }
    {
        self.row.len()
    }

    /// The object that a walk comes to next.
    pub fn next(&self) -> Option<&Object>
        ensures { option_map (λ o. o.now) result ≡ slice_get self.now.objects self.now.passed }
    {
        self.row.next()
    }

    /// A walk passes the next object.
    pub fn pass(&mut self)
        requires { self.old.passed < length self.old.objects }
        ensures { self.new ≡ record self.old { passed = self.old.passed + 1 } }
    {
        self.row.pass();
    }

    /// Takes out the object that a walk comes to next, and answers it. The others keep their order, and as many can be
    /// filled in without memory as before.
    pub fn take_next(&mut self) -> Object
        requires { self.old.passed < length self.old.objects }
        ensures out { slice_get self.old.objects self.old.passed ≡ Some result }
        ensures after { self.new ≡ record self.old { objects = remove self.old.objects self.old.passed } }
    {
        let object = self.row.take_next();
        self.sum -= body_length(&object.body);
        object
    }

    /// A walk begins anew, at the first object.
    pub fn walk_anew(&mut self)
        ensures { self.new ≡ record self.old { passed = 0 } }
    {
        self.row.walk_anew();
    }

    /// Keeps an object, where no kept object of its key has a greater fetch and its length is at most the limit. It
    /// takes the place of the key's object and goes to the end, and the first objects leave until all have at most the
    /// limit together. It takes no memory, and uses one place of those that `reserve_fill` reserved.
    ///
    /// The answer is whether it is kept.
    pub fn fill_reserved(&mut self, object: Object) -> bool
        requires { 0 < self.old.spare }
        ensures reply { result ≡ is_filled self.old.limit self.old.objects object }
        ensures after { self.new ≡ record self.old {
          objects = filled self.old.limit self.old.objects object;
          spare = self.old.spare - 1;
          passed = self.new.passed;
        } }
        ensures within { total self.new.objects ≤ self.new.limit }
    {
        if !is_filled(&self.row, self.limit, &object) {
            self.row.give_back();
            return false;
        }
        let most = self.limit - body_length(&object.body);
        replace(&mut self.row, &mut self.sum, object, most);
        true
    }
}

// how long a body is
fn body_length(body: &Body) -> u64
    ensures { result ≡ length body.now }
{
    body.bytes().len() as u64
}

// whether the object is kept beside those of the row
fn is_filled(row: &Row<Object>, limit: u64, object: &Object) -> bool
    ensures { result ≡ is_filled limit row.now.items object.now }
{
    body_length(&object.body) <= limit && !is_newer(row, object)
}

// whether the kept object of the key comes from a later fetch
fn is_newer(row: &Row<Object>, object: &Object) -> bool
    ensures { result ≡ is_newer object.now.fetch (kept_of object.now.key row.now.items) }
{
    match row.find(Wanted { key: &object.key }) {
        Some(kept) => object.fetch < kept.fetch,
        None => false,
    }
}

// puts the object into the place of its key's, and lets the first leave until the others have at most `most` bytes
fn replace(row: &mut Row<Object>, sum: &mut u64, object: Object, most: u64)
    requires spare { 0 < row.old.spare }
    requires small { most + length_of object < 2 ^ 64 }
    requires sum { sum.old ≡ total row.old.items }
    ensures row { row.new ≡ record {
      items = evicted most (others object.key row.old.items) ++ object ∷ [];
      spare = row.old.spare - 1;
      passed = row.new.passed;
    } }
    ensures sum { sum.new ≡ total row.new.items }
    ensures within { sum.new ≤ most + length_of object }
{
    take_key(row, sum, &object.key);
    evict(row, sum, most);
    *sum += body_length(&object.body);
    row.push(object);
}

// takes the key's object out
fn take_key(row: &mut Row<Object>, sum: &mut u64, key: &Key)
    requires { sum.old ≡ total row.old.items }
    ensures row { row.new ≡ record row.old { items = others key.now row.old.items; passed = row.new.passed } }
    ensures passed { rows.ArePassed row.old row.new }
    ensures sum { sum.new ≡ total row.new.items }
    ensures lower { sum.new ≤ sum.old }
{
    match row.take(Wanted { key }) {
        Some(object) => lower(sum, object),
        None => {}
    }
}

// moves the key's object to the end at a reserved place, with another last start
fn renew(row: &mut Row<Object>, key: &Key, begun: u64)
    requires { 0 < row.old.spare }
    ensures row { row.new ≡ record {
      items = renewed key.now begun row.old.items;
      spare = row.old.spare - 1;
      passed = row.new.passed;
    } }
    ensures passed { rows.ArePassed row.old row.new }
    ensures total { total row.new.items ≡ total row.old.items }
{
    match row.take(Wanted { key }) {
        Some(object) => row.push(Object {
            key: object.key,
            fetch: object.fetch,
            ccid: object.ccid,
            kind: object.kind,
            body: object.body,
            begun,
        }),
        None => row.give_back(),
    }
}

// lets the first objects leave until all have at most `most` bytes together
fn evict(row: &mut Row<Object>, sum: &mut u64, most: u64)
    requires { sum.old ≡ total row.old.items }
    ensures row { row.new ≡ record row.old { items = evicted most row.old.items; passed = row.new.passed } }
    ensures sum { sum.new ≡ total row.new.items }
    ensures within { sum.new ≤ most }
{
    'evict: while *sum > most {
        take_one(row, sum);
    }
}

// lets the first object leave
fn take_one(row: &mut Row<Object>, sum: &mut u64)
    requires sum { sum.old ≡ total row.old.items }
    requires some { 0 < sum.old }
    ensures first { (o : Object) × (row.old.items ≡ o ∷ row.new.items) }
    ensures sum { sum.new ≡ total row.new.items }
    ensures spare { row.new.spare ≡ row.old.spare }
{
    match row.take_first() {
        Some(object) => lower(sum, object),
        None => {}
    }
}

// the sum without the object, which leaves
fn lower(sum: &mut u64, object: Object)
    requires { length_of object ≤ sum.old }
    ensures { sum.new + length_of object ≡ sum.old }
{
    *sum -= body_length(&object.body);
}
