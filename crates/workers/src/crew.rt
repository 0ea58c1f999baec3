//! Workers that serve together.

ghost use Rattle.std.specs.Prelude.{◌≡◌, ◌≤◌, [], length, map};
ghost use Rattle.doors.specs.Outside.{tells_of};
ghost use Rattle.node_core.specs.Node.{Stands};
ghost use Rattle.turn_cell.specs.Cell.{passes_of};
ghost use Rattle.workers.specs.Crew.{Served, Serves, fault_status, refused_status};
ghost use Rattle.workers.specs.Hiring.{NewFrom};
ghost use Rattle.workers.specs.Job.{ReadyFrom, post_of};

use crate::finishing::finish;
use crate::hiring::{Unhired, dismiss_all, hire_all};
use crate::job::{Job, serve_jobs};
use doors::law::what_visits_open_is_ended;
use doors::{Outside, OutsideFault};
use edge_base::Status;
use history::Call;
use location_acl::PlaceTable;
use node_cell::{MadeWith, NodeCell};
use node_core::{Node, every_answer_is_lawful};
use session::Settings;
use std::alloc::Global;
use std::marker::Brand;
use std::sync::Wait;
use std::thread::Threads;
use turn_cell::PassList;

/// How many workers serve together, and what holds for all their connections.
#[derive(Drop)]
pub struct Crew {
    pub workers: u32,
    /// How many connections each worker serves, where it is not without end.
    pub connections: Option<u64>,
    pub places: PlaceTable,
    pub settings: Settings,
}

/// Serves over a node that stands for no call: hires a worker of the outside for each pass of the node, up to the first that
/// is not hired; serves the connections of each worker's door in a thread of its own; then joins the passes, and gives the
/// workers back in order. It may wait, and need not return.
///
/// All that the workers call stands in one history, worker k's calls under number k - 1. The status is `Done` where each
/// door has no connection left or gave as many as asked for; `Outside` only where the outside's count of faults rose; and
/// else `Memory`, for want of memory.
pub fn serve_workers<R: Threads + Wait + Sync, O: Outside>(
    rt: &R,
    alloc: Global,
    node: Node,
    crew: &Crew,
    outside: &mut O,
) -> Status
    requires fresh { Stands node node.made [] }
    ensures serves { Serves node.made crew.now (O.diary outside.old) (O.diary outside.new) (O.returned outside.old)
        (O.returned outside.new) (O.faults outside.old) (O.faults outside.new) result }
    ensures later { O.faults outside.old ≤ O.faults outside.new }
{
    serve_as::<Brand, R, O>(rt, alloc, node, crew, outside)
}

// the same where it is known of each node in the cell with what it is made
fn serve_as<J: MadeWith + Send + Sync, R: Threads + Wait + Sync, O: Outside>(
    rt: &R,
    alloc: Global,
    node: Node,
    crew: &Crew,
    outside: &mut O,
) -> Status
    requires fresh { Stands node J.made [] }
    ensures serves { Serves J.made crew.now (O.diary outside.old) (O.diary outside.new) (O.returned outside.old)
        (O.returned outside.new) (O.faults outside.old) (O.faults outside.new) result }
    ensures later { O.faults outside.old ≤ O.faults outside.new }
{
    match NodeCell::<J>::new(rt, alloc, node, crew.workers) {
        Ok((cell, passes)) => serve_over(rt, alloc, &cell, passes, crew, outside),
        Err(_) => Status::Memory,
    }
}

// hires a worker for each pass, and serves
fn serve_over<R: Threads + Wait + Sync, J: MadeWith + Send + Sync, O: Outside>(
    rt: &R,
    alloc: Global,
    cell: &NodeCell<J>,
    passes: PassList<Call>,
    crew: &Crew,
    outside: &mut O,
) -> Status
    requires passes { NewFrom cell.now.turns.table.shared.table_id (passes_of cell.now.turns) 0 passes }
    requires count { length passes ≡ crew.now.workers }
    requires made { passes_of cell.now.turns ≡ crew.now.workers }
    ensures serves { Serves J.made crew.now (O.diary outside.old) (O.diary outside.new) (O.returned outside.old)
        (O.returned outside.new) (O.faults outside.old) (O.faults outside.new) result }
    ensures later { O.faults outside.old ≤ O.faults outside.new }
{
    let mut jobs = Vec::new(alloc);
    match hire_all(rt, alloc, cell, passes, outside, &mut jobs) {
        Ok(()) => serve_hired(rt, alloc, cell, jobs, crew, outside),
        Err(why) => {
            dismiss_all(jobs, outside);
            refused_status(why)
        }
    }
}

// serves with the workers that were hired, and ends
fn serve_hired<R: Threads + Wait + Sync, J: MadeWith + Send + Sync, O: Outside>(
    rt: &R,
    alloc: Global,
    cell: &NodeCell<J>,
    jobs: Vec<Job<'_, J, O::D, O::G, O::C>>,
    crew: &Crew,
    outside: &mut O,
) -> Status
    requires ready { ReadyFrom cell.now.turns.table.shared.table_id (passes_of cell.now.turns) 0
        (map (post_of (tells_of O.D.book O.D.faults O.G.exchanges O.C.given)) jobs.items) }
    requires count { length jobs.items ≡ crew.now.workers }
    requires made { passes_of cell.now.turns ≡ crew.now.workers }
    ensures served { Served J.made crew.now [] (O.diary outside.old) (O.diary outside.new) (O.returned outside.old)
        (O.returned outside.new) (O.faults outside.old) (O.faults outside.new) result }
    ensures later { O.faults outside.old ≤ O.faults outside.new }
{
    every_answer_is_lawful();
    what_visits_open_is_ended();
    let mut jobs = jobs;
    serve_jobs(rt, alloc, jobs.as_mut_slice(), crew);
    finish(cell, jobs, outside)
}

fn refused_status(why: Unhired) -> Status
    ensures { result ≡ refused_status why }
{
    match why {
        Unhired::Memory => Status::Memory,
        Unhired::Fault(fault) => fault_status(fault),
    }
}

/// The status of a fault of the outside.
pub fn fault_status(fault: OutsideFault) -> Status
    ensures { result ≡ fault_status fault }
{
    match fault {
        OutsideFault::BadAddress | OutsideFault::Failed => Status::Outside,
        OutsideFault::Memory => Status::Memory,
    }
}
