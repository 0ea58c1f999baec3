ghost use Rattle.std.specs.Prelude.{All};
ghost use Rattle.turn_cell.specs.Cell.{IsOf};

use crate::tally::{Tally, count_turn};
use std::alloc::{AllocError, Global};
use std::sync::Wait;
use std::thread::{Threads, map_vec};
use std::time::{Clock, Duration};
use turn_cell::{Pass, TurnCell};

fn work<R: Threads + Wait + Sync + Clock>(
    rt: &R,
    cell: &TurnCell<Tally>,
    mut pass: Pass<()>,
    turns: u64,
    nap: Duration,
)
    requires { IsOf cell.now pass }
{
    for _ in 0..turns {
        count_turn(rt, cell, &mut pass, nap);
    }
}

fn work_all<R: Threads + Wait + Sync + Clock>(
    rt: &R,
    cell: &TurnCell<Tally>,
    passes: Vec<Pass<()>>,
    turns: u64,
    nap: Duration,
) -> Result<(), AllocError>
    requires { All (λ pass. IsOf cell.now pass) passes.items }
{
    map_vec(
        rt,
        passes,
        &|pass: Pass<()>| -> u64
            requires { IsOf cell.now pass }
        {
            work(rt, cell, pass, turns, nap);
            0
        },
    )?;
    Ok(())
}

/// So many threads take so many turns each, and sleep so long in each. Returns what was counted.
pub fn run<R: Threads + Wait + Sync + Clock>(
    rt: &R,
    alloc: Global,
    threads: u32,
    turns: u64,
    nap: Duration,
) -> Result<u64, AllocError> {
    let (cell, mut passes) = TurnCell::new(
        rt,
        alloc,
        Tally { count: 0 },
        threads.saturating_add(1),
    )?;
    let Some(mut last) = passes.pop() else {
        return Ok(0);
    };
    work_all(rt, &cell, passes.into_vec(), turns, nap)?;
    let mut turn = cell.take(rt, &mut last);
    let count = turn.value().count;
    turn.give(&mut last);
    Ok(count)
}
