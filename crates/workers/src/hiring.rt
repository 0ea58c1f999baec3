//! The hiring of workers.

ghost use Rattle.std.specs.Prelude.{◌≡◌, ◌≤◌, ◌+◌, ◌++◌, [], ◌∷◌, true, length, map, replicate, IfErr, OnErr, OnOk};
ghost use Rattle.doors.specs.Outside.{DiaryGrows, Hired, tells_of};
ghost use Rattle.workers.specs.Crew.{GaveBack, refused};
ghost use Rattle.workers.specs.Hiring.{HasCause, HiredOne, IsNewPass, NewFrom, asked_in};
ghost use Rattle.workers.specs.Job.{ReadyFrom, post_of};
ghost use Rattle.turn_cell.specs.Cell.{passes_of};

use crate::job::Job;
use doors::{DoorEnd, Outside, OutsideFault};
use history::Call;
use node_cell::{CellHome, MadeWith, NodeCell};
use std::alloc::Global;
use std::sync::Wait;
use std::thread::Threads;
use turn_cell::{Pass, PassList};

/// Why a worker was not hired.
#[derive(Clone, Copy, PartialEq, Eq)]
pub enum Unhired {
    /// No memory was found for it, and the outside was not asked.
    Memory,
    /// The outside met this fault.
    Fault(OutsideFault),
}

// hires a worker for each pass, up to the first that is not hired
pub(crate) fn hire_all<'c, R: Threads + Wait + Sync, J: MadeWith + Send + Sync, O: Outside>(
    rt: &R,
    alloc: Global,
    cell: &'c NodeCell<J>,
    passes: PassList<Call>,
    outside: &mut O,
    jobs: &mut Vec<Job<'c, J, O::D, O::G, O::C>>,
) -> Result<(), Unhired>
    requires passes { NewFrom cell.now.turns.table.shared.table_id (passes_of cell.now.turns) 0 passes }
    requires none { jobs.old.items ≡ [] }
    ensures ready { ReadyFrom cell.entry.now.turns.table.shared.table_id (passes_of cell.entry.now.turns) 0
        (map (post_of (tells_of O.D.book O.D.faults O.G.exchanges O.C.given)) jobs.new.items) }
    ensures all { OnOk result (length jobs.new.items ≡ length passes) }
    ensures fewer { length jobs.new.items ≤ length passes }
    ensures diary { OnOk result (DiaryGrows (O.diary outside.old) (O.diary outside.new)
        (replicate (length jobs.new.items) (Hired true)) []) }
    ensures refused { IfErr result (λ why. DiaryGrows (O.diary outside.old) (O.diary outside.new)
        (replicate (length jobs.new.items) (Hired true) ++ refused why) []) }
    ensures cause { IfErr result (λ why. HasCause (O.faults outside.old) (O.faults outside.new) why) }
    ensures returned { O.returned outside.new ≡ O.returned outside.old }
    ensures later { O.faults outside.old ≤ O.faults outside.new }
{
    'passes: for pass in passes.into_vec() {
        match hire(rt, alloc, cell, pass, outside, jobs) {
            Ok(()) => {}
            Err(why) => return Err(why),
        }
    }
    Ok(())
}

// hires a worker for this pass
fn hire<'c, R: Threads + Wait + Sync, J: MadeWith + Send + Sync, O: Outside>(
    rt: &R,
    alloc: Global,
    cell: &'c NodeCell<J>,
    pass: Pass<Call>,
    outside: &mut O,
    jobs: &mut Vec<Job<'c, J, O::D, O::G, O::C>>,
) -> Result<(), Unhired>
    requires pass { IsNewPass cell.now.turns.table.shared.table_id (passes_of cell.now.turns) (length jobs.old.items) pass }
    ensures hired { OnOk result (HiredOne cell.entry.now.turns.table.shared.table_id (passes_of cell.entry.now.turns)
        (map (post_of (tells_of O.D.book O.D.faults O.G.exchanges O.C.given)) jobs.old.items)
        (map (post_of (tells_of O.D.book O.D.faults O.G.exchanges O.C.given)) jobs.new.items)) }
    ensures unhired { OnErr result (jobs.new.items ≡ jobs.old.items) }
    ensures diary { DiaryGrows (O.diary outside.old) (O.diary outside.new) (asked_in result) [] }
    ensures cause { IfErr result (λ why. HasCause (O.faults outside.old) (O.faults outside.new) why) }
    ensures returned { O.returned outside.new ≡ O.returned outside.old }
    ensures later { O.faults outside.old ≤ O.faults outside.new }
{
    if jobs.reserve(1).is_err() {
        return Err(Unhired::Memory);
    }
    match outside.worker(rt, alloc) {
        Ok(worker) => {
            let home = CellHome::new(cell, pass);
            let end = DoorEnd::Memory;
            match jobs.push(Job { home, worker, end }) {
                Ok(()) => Ok(()),
                Err(_) => unreachable!(),
            }
        }
        Err(fault) => Err(Unhired::Fault(fault)),
    }
}

// gives workers back, in order
pub(crate) fn dismiss_all<J: MadeWith, O: Outside>(
    jobs: Vec<Job<'_, J, O::D, O::G, O::C>>,
    outside: &mut O,
)
    ensures diary { DiaryGrows (O.diary outside.old) (O.diary outside.new) []
        (map (λ job. tells_of O.D.book O.D.faults O.G.exchanges O.C.given job.worker) jobs.entry.items) }
    ensures returned { GaveBack (O.returned outside.old) (O.returned outside.new) (length jobs.entry.items) }
    ensures later { O.faults outside.old ≤ O.faults outside.new }
{
    'jobs: for job in jobs {
        let Job {
            home: _,
            worker,
            end: _,
        } = job;
        outside.give_back(worker);
    }
}
