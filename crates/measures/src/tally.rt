ghost use Rattle.turn_cell.specs.Cell.{IsOf};

use std::sync::Wait;
use std::thread;
use std::thread::Threads;
use std::time::{Clock, Duration};
use turn_cell::{Pass, Stands, TurnCell};

/// How many turns were taken, modulo 2^64. Turns are timed here and nothing is claimed of the count: it stands for each
/// history.
#[derive(Drop)]
pub struct Tally {
    pub count: u64,
}

impl Stands for Tally {
    type Entry = ();

    ghost stands = { λ _ _. Unit {0} };
}

/// Takes a turn, sleeps for so long and counts the turn.
pub fn count_turn<R: Threads + Wait + Sync + Clock>(
    rt: &R,
    cell: &TurnCell<Tally>,
    pass: &mut Pass<()>,
    nap: Duration,
)
    requires { IsOf cell.now pass.old }
    ensures { IsOf cell.now pass.new }
{
    let mut turn = cell.take(rt, pass);
    if !nap.is_zero() {
        thread::sleep(rt, nap);
    }
    let tally = turn.value();
    tally.count = tally.count.wrapping_add(1);
    turn.give(pass);
}
