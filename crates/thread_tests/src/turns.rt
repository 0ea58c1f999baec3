ghost use Rattle.std.specs.Prelude.{◌≡◌, ℕ, [], ◌∷◌, All, IfSome};
ghost use Rattle.turn_cell.specs.Cell.{number_of, numbers_of, seen_of, IsOf};

use std::alloc::Global;
use std::marker::{Brand, PhantomData};
use std::snapshot::Snapshot;
use std::sync::Wait;
use std::test::Fail;
use std::thread;
use std::thread::{Threads, join};
use std::time::{Clock, Duration};
use turn_cell::{Diary, Pass, PassList, Stands, TurnCell, note, rule_of_a_cell};

// The last pass of a list, if it has this number.
fn last_of(cell: &TurnCell<Diary>, list: &mut PassList<u64>, number: u32) -> Option<Pass<u64>>
    requires cell { All (λ pass. IsOf cell.now pass) list.old }
    requires own { All (λ pass. numbers_of pass ≡ number_of pass ∷ []) list.old }
    ensures cell { All (λ pass. IsOf cell.now pass) list.new }
    ensures own { All (λ pass. numbers_of pass ≡ number_of pass ∷ []) list.new }
    ensures found { IfSome result (λ pass. IsOf cell.now pass × (numbers_of pass ≡ number ∷ [])) }
{
    let pass = list.pop()?;
    if pass.number() == number {
        Some(pass)
    } else {
        None
    }
}

// Notes 0, 1, and so on, by one turn each.
fn note_all<R: Threads + Wait + Sync>(
    rt: &R,
    cell: &TurnCell<Diary>,
    pass: Pass<u64>,
    count: u64,
) -> Pass<u64>
    requires { IsOf cell.now pass }
    ensures { IsOf cell.entry.now result × (numbers_of result ≡ numbers_of pass) }
{
    let mut pass = pass;
    for entry in 0..count {
        if note(rt, cell, &mut pass, entry).is_err() {
            break;
        }
    }
    pass
}

// The same, and each turn sleeps for a millisecond.
fn note_slowly<R: Threads + Wait + Sync + Clock>(
    rt: &R,
    cell: &TurnCell<Diary>,
    pass: Pass<u64>,
    count: u64,
) -> Pass<u64>
    requires { IsOf cell.now pass }
    ensures { IsOf cell.entry.now result × (numbers_of result ≡ numbers_of pass) }
{
    let mut pass = pass;
    for entry in 0..count {
        let number = pass.number();
        let mut turn = cell.take(rt, &mut pass);
        thread::sleep(rt, Duration::from_millis(1));
        match turn.value().entries.push((number, entry)) {
            Ok(()) => turn.give_entry(&mut pass, Snapshot::of(&entry)),
            Err(_) => {
                turn.give_same(&mut pass);
                break;
            }
        }
    }
    pass
}

// Two passes work at the same time.
fn two_work<R: Threads + Wait + Sync>(
    rt: &R,
    cell: &TurnCell<Diary>,
    a: Pass<u64>,
    b: Pass<u64>,
    first: u64,
    second: u64,
) -> (Pass<u64>, Pass<u64>)
    requires a { IsOf cell.now a }
    requires b { IsOf cell.now b }
    ensures a { IsOf cell.entry.now result.0 × (numbers_of result.0 ≡ numbers_of a) }
    ensures b { IsOf cell.entry.now result.1 × (numbers_of result.1 ≡ numbers_of b) }
{
    join(
        rt,
        move || -> Pass<u64>
            requires { IsOf cell.now a }
            ensures { IsOf cell.entry.now result × (numbers_of result ≡ numbers_of a) }
        { note_all(rt, cell, a, first) },
        move || -> Pass<u64>
            requires { IsOf cell.now b }
            ensures { IsOf cell.entry.now result × (numbers_of result ≡ numbers_of b) }
        { note_all(rt, cell, b, second) },
    )
}

// The diary of two threads, which note so many entries each.
fn diary_of_two<R: Threads + Wait + Sync>(
    rt: &R,
    alloc: Global,
    first: u64,
    second: u64,
) -> Option<Diary> {
    let Ok((cell, mut list)) = TurnCell::new(rt, alloc, Diary::new(alloc), 2) else {
        return None;
    };
    let b = last_of(&cell, &mut list, 1)?;
    let a = last_of(&cell, &mut list, 0)?;
    let (mut a, b) = two_work(rt, &cell, a, b, first, second);
    cell.join_pass(&mut a, b);
    Some(cell.close(a))
}

// Three passes work at the same time. The turns of the third sleep, if asked.
fn three_work<R: Threads + Wait + Sync + Clock>(
    rt: &R,
    cell: &TurnCell<Diary>,
    passes: (Pass<u64>, Pass<u64>, Pass<u64>),
    counts: (u64, u64, u64),
    slowly: bool,
) -> (Pass<u64>, (Pass<u64>, Pass<u64>))
    requires a { IsOf cell.now passes.0 }
    requires b { IsOf cell.now passes.1 }
    requires c { IsOf cell.now passes.2 }
    ensures a { IsOf cell.entry.now result.1.0 × (numbers_of result.1.0 ≡ numbers_of passes.0) }
    ensures b { IsOf cell.entry.now result.1.1 × (numbers_of result.1.1 ≡ numbers_of passes.1) }
    ensures c { IsOf cell.entry.now result.0 × (numbers_of result.0 ≡ numbers_of passes.2) }
{
    let (a, b, c) = passes;
    let (first, second, third) = counts;
    join(
        rt,
        move || -> Pass<u64>
            requires { IsOf cell.now c }
            ensures { IsOf cell.entry.now result × (numbers_of result ≡ numbers_of c) }
        {
            if slowly {
                note_slowly(rt, cell, c, third)
            } else {
                note_all(rt, cell, c, third)
            }
        },
        move || -> (Pass<u64>, Pass<u64>)
            requires { IsOf cell.now a × IsOf cell.now b }
            ensures { (IsOf cell.entry.now result.0 × (numbers_of result.0 ≡ numbers_of a))
                × (IsOf cell.entry.now result.1 × (numbers_of result.1 ≡ numbers_of b)) }
        { two_work(rt, cell, a, b, first, second) },
    )
}

// The diary of three threads.
fn diary_of_three<R: Threads + Wait + Sync + Clock>(
    rt: &R,
    alloc: Global,
    counts: (u64, u64, u64),
    slowly: bool,
) -> Option<Diary> {
    let Ok((cell, mut list)) = TurnCell::new(rt, alloc, Diary::new(alloc), 3) else {
        return None;
    };
    let c = last_of(&cell, &mut list, 2)?;
    let b = last_of(&cell, &mut list, 1)?;
    let a = last_of(&cell, &mut list, 0)?;
    let (c, (mut a, mut b)) = three_work(rt, &cell, (a, b, c), counts, slowly);
    cell.join_pass(&mut b, c);
    cell.join_pass(&mut a, b);
    Some(cell.close(a))
}

// Whether the entries of this number are 0, 1, and so on, and so many.
fn has_in_order(entries: &[(u32, u64)], number: u32, count: u64) -> bool {
    let mut next = 0;
    for (by, entry) in entries {
        if *by == number {
            if next >= count || *entry != next {
                return false;
            }
            next += 1;
        }
    }
    next == count
}

#[test]
fn two_threads_note_a_hundred_entries_each(rt: HostRuntime) {
    let Some(diary) = diary_of_two(&rt, rt.alloc(), 100, 100) else {
        panic!(rt; "no memory, or another number")
    };
    let entries = diary.entries.as_slice();
    assert!(rt; entries.len() == 200);
    assert!(rt; has_in_order(entries, 0, 100) && has_in_order(entries, 1, 100));
}

#[test]
fn three_threads_of_uneven_lengths_and_one_that_sleeps(rt: HostRuntime) {
    for (counts, slowly) in [((40, 3, 90), false), ((30, 60, 8), true)] {
        let Some(diary) = diary_of_three(&rt, rt.alloc(), counts, slowly) else {
            panic!(rt; "no memory, or another number")
        };
        let entries = diary.entries.as_slice();
        let (first, second, third) = counts;
        assert!(rt; entries.len() as u64 == first + second + third);
        assert!(rt; has_in_order(entries, 0, first));
        assert!(rt; has_in_order(entries, 1, second));
        assert!(rt; has_in_order(entries, 2, third));
    }
}

#[test]
fn a_list_of_passes_is_a_list(rt: HostRuntime) -> Result<(), Fail> {
    let alloc = rt.alloc();
    let (cell, mut list) = TurnCell::new(&rt, alloc, Diary::new(alloc), 2)?;
    assert!(rt; list.len() == 2 && list.at(0).number() == 0 && list.at(1).number() == 1);
    let mut other = PassList::new(alloc);
    if let Some(pass) = list.pop() {
        other.push(pass)?;
    }
    assert!(rt; other.into_vec().len() == 1 && list.len() == 1);
    drop(cell);
    rule_of_a_cell::<Diary>();
    Ok(())
}

// A part of a cell's value that stays as the cell was made with it. The call that makes the cell picks it.
trait Fixed {
    ghost limit: { ℕ };
}

impl Fixed for Brand {
    ghost limit = { 0 };
}

// A value whose limit is the fixed one in each history.
#[derive(Drop)]
struct Limited<J: Fixed> {
    limit: u64,
    of: PhantomData<J>,
}

impl<J: Fixed> Stands for Limited<J> {
    type Entry = u64;

    ghost stands = { λ value history. value.limit ≡ J.limit };
}

// The limit that a turn finds. The turn makes an entry of it.
fn limit_at<J: Fixed, R: Wait>(rt: &R, cell: &TurnCell<Limited<J>>, pass: &mut Pass<u64>) -> u64
    requires { IsOf cell.now pass.old }
    ensures limit { result ≡ J.limit }
    ensures pass { IsOf cell.now pass.new }
{
    let mut turn = cell.take(rt, pass);
    let limit = turn.value().limit;
    turn.give_entry(pass, Snapshot::of(&limit));
    limit
}

// The limits that two turns of two passes find, in a cell that is made with this limit.
fn limits_as<J: Fixed, R: Wait>(rt: &R, alloc: Global, limit: u64) -> Option<(u64, u64)>
    requires { limit ≡ J.limit }
    ensures { IfSome result (λ found. (found.0 ≡ limit) × (found.1 ≡ limit)) }
{
    let value = Limited {
        limit,
        of: PhantomData,
    };
    let Ok((cell, mut list)) = TurnCell::<Limited<J>>::new(rt, alloc, value, 2) else {
        return None;
    };
    let mut a = any_of(&cell, &mut list)?;
    let mut b = any_of(&cell, &mut list)?;
    Some((limit_at(rt, &cell, &mut a), limit_at(rt, &cell, &mut b)))
}

// the last pass of a list
fn any_of<V: Stands>(cell: &TurnCell<V>, list: &mut PassList<V::Entry>) -> Option<Pass<V::Entry>>
    requires { All (λ pass. IsOf cell.now pass) list.old }
    ensures cell { All (λ pass. IsOf cell.now pass) list.new }
    ensures found { IfSome result (λ pass. IsOf cell.now pass) }
{
    list.pop()
}

// Whoever calls this knows the limit of each turn, and no brand.
fn limits_of_two_turns<R: Wait>(rt: &R, alloc: Global, limit: u64) -> Option<(u64, u64)>
    ensures { IfSome result (λ found. (found.0 ≡ limit) × (found.1 ≡ limit)) }
{
    limits_as::<Brand, R>(rt, alloc, limit)
}

#[test]
fn each_turn_knows_what_its_cell_was_made_with(rt: HostRuntime) -> Result<(), Fail> {
    let (first, second) = limits_of_two_turns(&rt, rt.alloc(), 77).ok_or("no memory")?;
    prove!(first == 77 && second == 77);
    assert_eq!(rt; (first, second), (77, 77));
    Ok(())
}
