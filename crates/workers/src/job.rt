//! What one worker does.

ghost use Rattle.std.specs.Prelude.{◌≡◌, ◌<◌, ℕ, length, map, slice_index_or};
ghost use Rattle.doors.specs.Outside.{tells_of};
ghost use Rattle.doors.specs.Served.{HasServedAll};
ghost use Rattle.workers.specs.Job.{AllWorked, Worked, post_of};

use crate::crew::Crew;
use doors::{Door, DoorEnd, Worker, serve_door};
use edge_base::Clock;
use node_cell::{CellHome, MadeWith};
use std::alloc::Global;
use std::sync::Wait;
use std::thread;
use std::thread::Threads;
use upstream_gate::Gate;

/// In how many threads the workers serve at most.
const MOST_THREADS: usize = 64;

/// A worker, the home of its pass, and how the serving of its door ended.
#[derive(Drop)]
pub(crate) struct Job<'c, J: MadeWith, D, G, C> {
    pub home: CellHome<'c, J>,
    pub worker: Worker<D, G, C>,
    pub end: DoorEnd,
}

// serves the doors of all workers, at which nothing waits to be served, each in a thread of its own; where no thread can be
// made, one after the other
pub(crate) fn serve_jobs<
    R: Threads + Wait + Sync,
    J: MadeWith + Send + Sync,
    D: Door + Send,
    G: Gate + Send,
    C: Clock + Send,
>(rt: &R, alloc: Global, jobs: &mut [Job<'_, J, D, G, C>], crew: &Crew)
    requires rest { (i : ℕ) (d : _) → i < length jobs.old
        → HasServedAll (post_of (tells_of D.book D.faults G.exchanges C.given) (slice_index_or jobs.old i d)).tells.book }
    ensures len { length jobs.new ≡ length jobs.old }
    ensures each { (i : ℕ) (d : _) → i < length jobs.old → Worked J.made crew.now
        (post_of (tells_of D.book D.faults G.exchanges C.given) (slice_index_or jobs.old i d))
        (post_of (tells_of D.book D.faults G.exchanges C.given) (slice_index_or jobs.new i d)) }
{
    thread::for_each_mut(
        rt,
        jobs,
        MOST_THREADS,
        &|_, job: &mut Job<J, D, G, C>|
            requires { HasServedAll (post_of (tells_of D.book D.faults G.exchanges C.given) job.old).tells.book }
            ensures { Worked J.made crew.entry.now (post_of (tells_of D.book D.faults G.exchanges C.given) job.old)
                (post_of (tells_of D.book D.faults G.exchanges C.given) job.new) }
        {
            serve_job(rt, alloc, job, crew);
        },
    );
}

// serves the connections of a worker
fn serve_job<
    R: Threads + Wait + Sync,
    J: MadeWith + Send + Sync,
    D: Door + Send,
    G: Gate + Send,
    C: Clock + Send,
>(rt: &R, alloc: Global, job: &mut Job<'_, J, D, G, C>, crew: &Crew)
    requires { HasServedAll (post_of (tells_of D.book D.faults G.exchanges C.given) job.old).tells.book }
    ensures { Worked J.made crew.now (post_of (tells_of D.book D.faults G.exchanges C.given) job.old)
        (post_of (tells_of D.book D.faults G.exchanges C.given) job.new) }
{
    job.end = serve_door(
        rt,
        alloc,
        &mut job.home,
        &mut job.worker,
        &crew.places,
        &crew.settings,
        crew.connections,
    );
}
