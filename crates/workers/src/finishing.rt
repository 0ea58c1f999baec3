//! What follows when all workers have served: their passes are joined, and they are given back.

ghost use Rattle.std.specs.Prelude.{◌≡◌, ◌≤◌, ◌<◌, ◌+◌, ◌-◌, ◌^◌, [], ◌∷◌, List, All, IfSome, length, map, min};
ghost use Rattle.edge_base.specs.Causes.{Rose};
ghost use Rattle.doors.specs.Outside.{DiaryGrows, tells_of};
ghost use Rattle.node_cell.specs.Standing.{Standing};
ghost use Rattle.turn_cell.specs.Cell.{IsOf, SitsAt, numbers_of, passes_of, seen_of};
ghost use Rattle.workers.specs.Crew.{Shift, after_end};
ghost use Rattle.workers.specs.Finishing.{Finished, TakesIn};
ghost use Rattle.workers.specs.Job.{DoneFrom, IsInCell, post_of};
ghost use Rattle.workers.specs.declared.crew.Crew.{Crew};

use crate::job::Job;
use doors::{DoorEnd, Outside};
use edge_base::Status;
use history::Call;
use node_cell::{MadeWith, NodeCell};
use turn_cell::Pass;

// joins the passes of all workers and gives the workers back, in order; the status of how they ended
pub(crate) fn finish<J: MadeWith + Send + Sync, O: Outside>(
    cell: &NodeCell<J>,
    jobs: Vec<Job<'_, J, O::D, O::G, O::C>>,
    outside: &mut O,
) -> Status
    requires cell { All (IsInCell cell.now.turns.table.shared.table_id (passes_of cell.now.turns))
        (map (post_of (tells_of O.D.book O.D.faults O.G.exchanges O.C.given)) jobs.items) }
    ensures finished { (crew : Crew) (shifts : List Shift)
        → DoneFrom J.made crew cell.entry.now.turns.table.shared.table_id (passes_of cell.entry.now.turns) 0
        (map (post_of (tells_of O.D.book O.D.faults O.G.exchanges O.C.given)) jobs.entry.items) shifts
        → Finished J.made crew (passes_of cell.entry.now.turns) shifts (O.diary outside.old) (O.diary outside.new)
        (O.returned outside.old) (O.returned outside.new) (O.faults outside.old) (O.faults outside.new) result }
    ensures later { O.faults outside.old ≤ O.faults outside.new }
{
    let mut kept: Option<Pass<Call>> = None;
    let mut status = Status::Done;
    'jobs: for job in jobs {
        status = end_job(cell, job, &mut kept, outside, status);
    }
    status
}

// joins the pass of a worker into the one that is kept, and gives the worker back
fn end_job<J: MadeWith + Send + Sync, O: Outside>(
    cell: &NodeCell<J>,
    job: Job<'_, J, O::D, O::G, O::C>,
    kept: &mut Option<Pass<Call>>,
    outside: &mut O,
    status: Status,
) -> Status
    requires cell { IsInCell cell.now.turns.table.shared.table_id (passes_of cell.now.turns)
        (post_of (tells_of O.D.book O.D.faults O.G.exchanges O.C.given) job) }
    requires kept { IfSome kept.old (λ keep. IsOf cell.now.turns keep) }
    ensures kept { TakesIn job.entry.home kept.old kept.new }
    ensures diary { DiaryGrows (O.diary outside.old) (O.diary outside.new) []
        (tells_of O.D.book O.D.faults O.G.exchanges O.C.given job.entry.worker ∷ []) }
    ensures returned { O.returned outside.new ≡ min (O.returned outside.old + 1) (2 ^ 64 - 1) }
    ensures later { O.faults outside.old ≤ O.faults outside.new }
    ensures cause { 0 < O.D.faults job.entry.worker.door → Rose (O.faults outside.old) (O.faults outside.new) }
    ensures status { result ≡ after_end status job.entry.end }
{
    let Job { home, worker, end } = job;
    take_in(cell, kept, home.into_pass());
    outside.give_back(worker);
    after_end(status, end)
}

// joins a pass into the one that is kept, or keeps it where none is
fn take_in<J: MadeWith>(cell: &NodeCell<J>, kept: &mut Option<Pass<Call>>, pass: Pass<Call>)
    requires pass { IsOf cell.now.turns pass }
    requires kept { IfSome kept.old (λ keep. IsOf cell.now.turns keep) }
    ensures { (home : Standing) → SitsAt home.table home.passes pass → numbers_of pass ≡ home.numbers
        → seen_of pass ≡ home.seen → home.table ≡ cell.entry.now.turns.table.shared.table_id
        → home.passes ≡ passes_of cell.entry.now.turns → TakesIn home kept.old kept.new }
{
    match kept {
        Some(keep) => cell.join_pass(keep, pass),
        None => *kept = Some(pass),
    }
}

// the status after one more door: that of a fault before that of want of memory
fn after_end(status: Status, end: DoorEnd) -> Status
    ensures { result ≡ after_end status end }
{
    match end {
        DoorEnd::Closed | DoorEnd::Served => status,
        DoorEnd::Failed => Status::Outside,
        DoorEnd::Memory => after_memory(status),
    }
}

fn after_memory(status: Status) -> Status
    ensures { result ≡ after_end status DoorEnd.Memory }
{
    match status {
        Status::Outside => Status::Outside,
        _ => Status::Memory,
    }
}
