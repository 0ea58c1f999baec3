ghost use Rattle.std.specs.Prelude.{◌≡◌, [], OnOk, OnErr};
ghost use Rattle.turn_cell.specs.History.{FollowedByOthers, FollowedByOthersAnd};
ghost use Rattle.turn_cell.specs.Cell.{number_of, numbers_of, seen_of, IsOf};

use crate::cell::TurnCell;
use crate::pass::Pass;
use crate::stands::Stands;
use std::alloc::{AllocError, Global};
use std::snapshot::Snapshot;
use std::sync::Wait;

/// A value that keeps its whole history. Each entry is the number of the pass that made it, and a number that it noted.
#[derive(Drop)]
pub struct Diary {
    pub entries: Vec<(u32, u64)>,
}

impl Stands for Diary {
    type Entry = u64;

    ghost stands = { λ d h. d.entries.items ≡ h };
}

impl Diary {
    /// A diary with no entry. It takes no memory.
    pub fn new(alloc: Global) -> Diary
        ensures { result.entries.items ≡ [] }
    {
        Diary {
            entries: Vec::new(alloc),
        }
    }
}

/// Takes a turn and notes one entry. The pass has then seen what it had seen, entries of other passes, and this one.
///
/// # Errors
/// Want of memory. Nothing is noted, and the pass has seen what it had seen and entries of other passes.
pub fn note<R: Wait>(
    rt: &R,
    cell: &TurnCell<Diary>,
    pass: &mut Pass<u64>,
    entry: u64,
) -> Result<(), AllocError>
    requires { IsOf cell.now pass.old }
    ensures pass { IsOf cell.now pass.new }
    ensures number { number_of pass.new ≡ number_of pass.old }
    ensures numbers { numbers_of pass.new ≡ numbers_of pass.old }
    ensures noted { OnOk result (FollowedByOthersAnd (numbers_of pass.old) (seen_of pass.old)
        (number_of pass.old, entry) (seen_of pass.new)) }
    ensures not_noted { OnErr result (FollowedByOthers (numbers_of pass.old) (seen_of pass.old) (seen_of pass.new)) }
{
    let number = pass.number();
    let mut turn = cell.take(rt, pass);
    match turn.value().entries.push((number, entry)) {
        Ok(()) => {
            turn.give_entry(pass, Snapshot::of(&entry));
            Ok(())
        }
        Err(refused) => {
            turn.give_same(pass);
            Err(AllocError::from(refused))
        }
    }
}
