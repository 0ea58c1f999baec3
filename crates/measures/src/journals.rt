//! Pushes and retires entries of a journal, so that the instructions of both can be counted (bench/instructions/journal.sh), and
//! prints how many entries are stored and retired. Numbers: how many entries stay stored, and how often one is
//! pushed and one retired. Without numbers 1,000 stay and 10,000 go through.
ghost use Rattle.std.specs.Prelude.{◌≡◌, ◌+◌, ◌≤◌, length, IfOk};

use journal::Journal;
use std::alloc::{AllocError, Global};

// A journal with so many entries and at least so many more reserved places.
fn filled(alloc: Global, stored: u32, spare: u32) -> Result<Journal<u64>, AllocError>
    ensures { IfOk result (λ journal. spare ≤ journal.spare) }
{
    let mut journal = Journal::new(alloc)?;
    for number in 0..stored {
        journal.reserve(alloc, 1)?;
        journal.push_reserved(u64::from(number));
    }
    journal.reserve(alloc, spare as usize)?;
    Ok(journal)
}

// Pushes and retires so many entries, one after the other.
fn pass_through(journal: &mut Journal<u64>, count: u32)
    requires { count ≤ journal.old.spare }
    ensures { length journal.new.stored ≡ length journal.old.stored }
{
    'entries: for number in 0..count {
        journal.push_reserved(u64::from(number));
        journal.retire(1);
    }
}

/// Runs it as these numbers say, or on its sample where there are none.
pub fn run<R: Print>(rt: &R, alloc: Global, numbers: &[u32]) -> anyhow::Result<()> {
    let (stored, count) = match numbers {
        [stored, count] => (*stored, *count),
        _ => (1_000, 10_000),
    };
    let mut journal = filled(alloc, stored, count)?;
    pass_through(&mut journal, count);
    println!(rt;
        "stored {}, retired {}",
        journal.stored(),
        journal.retired()
    )?;
    Ok(())
}
