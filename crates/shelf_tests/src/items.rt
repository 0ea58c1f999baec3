// What no clause says: that the calls succeed, that items may be found by parts of them, and that a long script of
// calls agrees with a plain list.

ghost use Rattle.std.specs.Prelude.{◌≡◌, nat_eq, IfOk};
ghost use Rattle.std.specs.Cmp.{nat_eq_equiv, on_equiv, on_per, partial_equiv_from_equiv};
ghost use Rattle.std.specs.Hash as fed;
ghost use Rattle.std.proofs.Common.{rules};

use indexmap::Equivalent;
use rows::Row;
use std::alloc::{AllocError, Global};
use std::hash::{Hash, Hasher};
use std::test::Fail;

/// A text with a number, which is its key.
#[derive(Drop)]
struct Named {
    number: u64,
    name: String,
}

impl PartialEq for Named {
    ghost eq = { λ x y. nat_eq x.number y.number };

    ghost laws = { on_per (λ x. x.number) (partial_equiv_from_equiv nat_eq_equiv) };

    fn eq(&self, other: &Named) -> bool {
        self.number == other.number
    }
}

impl Eq for Named {
    ghost laws = { on_equiv (λ x. x.number) nat_eq_equiv };
}

impl Hash for Named {
    ghost hash_input = { λ o. fed.u64 o.number };

    ghost respects_eq = { Prim.search rules };

    fn hash<H: Hasher>(&self, state: &mut H) {
        self.number.hash(state);
    }
}

#[derive(Clone, Copy, PartialEq, Eq, Hash)]
struct Number {
    number: u64,
}

impl Equivalent<Named> for Number {
    ghost equivalent = { λ q o. nat_eq q.number o.number };

    ghost respects_hash = { Prim.search rules };

    ghost respects_eq = { λ q x y. nat_eq_equiv.congr q.number x.number y.number };

    fn equivalent(&self, key: &Named) -> bool {
        self.number == key.number
    }
}

fn make_named(alloc: Global, number: u64, name: &str) -> Result<Named, AllocError>
    ensures { IfOk result (λ o. o.number ≡ number) }
{
    Ok(Named {
        number,
        name: String::from_str(alloc, name)?,
    })
}

#[test]
fn items_are_found_by_their_numbers(rt: HostRuntime) -> Result<(), Fail> {
    let mut row = Row::new(rt.alloc());
    row.reserve(rt.alloc(), 2)?;
    assert_eq!(rt; row.spare(), 2);
    row.push(make_named(rt.alloc(), 7, "seven")?);
    assert!(rt; row.find(Number { number: 9 }).is_none());
    row.give_back();
    assert_eq!(rt; row.spare(), 0);
    assert_eq!(rt; row.len(), 1);
    row.touch(Number { number: 7 });
    let Some(found) = row.find(Number { number: 7 }) else {
        return Err(Fail::from("no item"));
    };
    assert_eq!(rt; found.name.as_str(), "seven");
    let Some(taken) = row.take(Number { number: 7 }) else {
        return Err(Fail::from("no item"));
    };
    assert_eq!(rt; taken.name.as_str(), "seven");
    assert!(rt; row.first().is_none());
    Ok(())
}

// adds a number to both, where they have none that is equal
fn add(
    alloc: Global,
    row: &mut Row<u64>,
    list: &mut Vec<u64>,
    number: u64,
) -> Result<(), AllocError> {
    if row.find(&number).is_some() {
        return Ok(());
    }
    row.reserve(alloc, 1)?;
    row.push(number);
    list.push(number)?;
    Ok(())
}

// takes a number out of the list
fn take_of(list: &mut Vec<u64>, number: u64) -> Option<u64> {
    let place = list.iter().position(|other| *other == number)?;
    Some(list.remove(place))
}

// one random call on both, and whether they answer the same
fn agree(
    alloc: Global,
    row: &mut Row<u64>,
    list: &mut Vec<u64>,
    random: u64,
) -> Result<bool, AllocError> {
    let number = random / 16 % 64;
    match random % 16 {
        0..8 => {
            add(alloc, row, list, number)?;
            Ok(true)
        }
        8 => Ok(row.take(&number) == take_of(list, number)),
        9..11 => {
            row.touch(&number);
            if let Some(taken) = take_of(list, number) {
                list.push(taken)?;
            }
            Ok(true)
        }
        11 => {
            row.walk_anew();
            Ok(true)
        }
        12..14 => {
            pass(row);
            Ok(true)
        }
        14 => {
            let first = if list.is_empty() {
                None
            } else {
                Some(list.remove(0))
            };
            Ok(row.take_first() == first)
        }
        _ => Ok(row.find(&number).is_some() == list.contains(&number)),
    }
}

#[test]
fn ten_thousand_calls_are_those_of_a_list(rt: HostRuntime) -> Result<(), Fail> {
    let mut row = Row::new(rt.alloc());
    let mut list = Vec::new(rt.alloc());
    let mut random = 1u64;
    for _ in 0..10_000 {
        random = random
            .wrapping_mul(6_364_136_223_846_793_005)
            .wrapping_add(1_442_695_040_888_963_407);
        assert!(rt; agree(rt.alloc(), &mut row, &mut list, random >> 33)?);
        assert_eq!(rt; row.len(), list.len());
        assert_eq!(rt; row.first().copied(), list.first().copied());
    }
    assert!(rt; list.len() > 8);
    for number in list {
        assert_eq!(rt; row.take_first(), Some(number));
    }
    assert_eq!(rt; row.len(), 0);
    Ok(())
}

// a row of the first numbers
fn first_numbers(alloc: Global, n: u64) -> Result<Row<u64>, AllocError> {
    let mut row = Row::new(alloc);
    let mut list = Vec::new(alloc);
    for number in 0..n {
        add(alloc, &mut row, &mut list, number)?;
    }
    Ok(row)
}

// passes the next item of a walk
fn pass(row: &mut Row<u64>) -> Option<u64> {
    let number = *row.next()?;
    row.pass();
    Some(number)
}

// takes out the next item of a walk
fn take_next(row: &mut Row<u64>) -> Option<u64> {
    row.next()?;
    Some(row.take_next())
}

#[test]
fn a_walk_comes_to_the_items_in_their_order(rt: HostRuntime) -> Result<(), Fail> {
    let mut row = first_numbers(rt.alloc(), 4)?;
    assert_eq!(rt; pass(&mut row), Some(0));
    assert_eq!(rt; pass(&mut row), Some(1));
    row.touch(&0);
    assert_eq!(rt; row.next().copied(), Some(2));
    row.take(&1);
    assert_eq!(rt; take_next(&mut row), Some(2));
    assert_eq!(rt; pass(&mut row), Some(3));
    assert_eq!(rt; pass(&mut row), Some(0));
    assert!(rt; pass(&mut row).is_none());
    row.walk_anew();
    assert_eq!(rt; take_next(&mut row), Some(3));
    Ok(())
}

#[test]
fn a_walk_ends_while_items_move(rt: HostRuntime) -> Result<(), Fail> {
    let mut row = first_numbers(rt.alloc(), 64)?;
    for step in 0..1_000u64 {
        match row.next().copied() {
            Some(number) if number % 2 == 1 => take_next(&mut row),
            _ => pass(&mut row),
        };
        if step % 2 == 0 {
            row.touch(&(step % 64));
        }
    }
    assert!(rt; row.next().is_none());
    assert_eq!(rt; row.len(), 32);
    Ok(())
}
