//! The rounds in which a command is passed on.

ghost use Rattle.std.specs.Prelude.{◌≡◌, ◌+◌, ◌≤◌, List, map, IfOk, OnOk};
ghost use Rattle.std.specs.Result.{result_ok};
ghost use Rattle.edge_base.specs.Clock.{Grows};
ghost use Rattle.trigger_cascade.specs.Cdn.{fault_of};
ghost use Rattle.trigger_cascade.specs.Passing.{end_of, is_named, standing_at, started, Counts, Passes, Rises, Visit};
ghost use Rattle.trigger_cascade.specs.Passing.{Visits};
ghost use Rattle.trigger_cascade.specs.declared.link.LinkCall.{LinkCall};

use crate::cdn::{Cdn, Standing, after_poll, after_post};
use crate::link::Link;
use cdni_base::ProviderId;
use std::alloc::{AllocError, Global};
use std::mem;
use targets::Target;

// marks the CDNs that a command with this path came through
pub(crate) fn skip_named(path: &[ProviderId], cdns: &mut [Cdn])
    ensures { cdns.new ≡ map (started path.now) cdns.old }
{
    'cdns: for i in 0..cdns.len() {
        start(path, &mut cdns[i]);
    }
}

// marks a CDN that a command with this path came through
fn start(path: &[ProviderId], cdn: &mut Cdn)
    ensures { cdn.new ≡ started path.now cdn.old }
{
    if is_named(path, &cdn.id) {
        cdn.standing = Standing::Skipped;
    }
}

// whether the path has this id
fn is_named(path: &[ProviderId], id: &ProviderId) -> bool
    ensures { result ≡ is_named path.now id.now }
{
    path.iter().any(|passed| passed.0 == id.0)
}

// visits the CDNs in a round for the command, and in so many more
pub(crate) fn pass_on<L: Link>(
    alloc: Global,
    link: &mut L,
    body: &[u8],
    rounds: u64,
    cdns: &mut [Cdn],
) -> Result<(), AllocError>
    ensures passes { (made : List LinkCall) × Grows (L.calls link.old) (L.calls link.new) made
        × Passes body.now (rounds + 1) cdns.old made (end_of result cdns.new) }
    ensures faults { OnOk result (Counts (L.faults link.old) (L.faults link.new) cdns.old cdns.new) }
{
    visit_each(alloc, link, body, cdns)?;
    'rounds: for _round in 0..rounds {
        visit_each(alloc, link, body, cdns)?;
    }
    Ok(())
}

// visits the CDNs in order, up to want of memory
fn visit_each<L: Link>(
    alloc: Global,
    link: &mut L,
    body: &[u8],
    cdns: &mut [Cdn],
) -> Result<(), AllocError>
    ensures visits { (made : List LinkCall) × Grows (L.calls link.old) (L.calls link.new) made
        × Visits body.now cdns.old made (end_of result cdns.new) }
    ensures faults { OnOk result (Counts (L.faults link.old) (L.faults link.new) cdns.old cdns.new) }
{
    'cdns: for i in 0..cdns.len() {
        visit(alloc, link, body, &mut cdns[i])?;
    }
    Ok(())
}

// visits a CDN
fn visit<L: Link>(alloc: Global, link: &mut L, body: &[u8], cdn: &mut Cdn) -> Result<(), AllocError>
    ensures visited { (made : List LinkCall) × Grows (L.calls link.old) (L.calls link.new) made
        × Visit body.now cdn.old.to cdn.old.standing made (standing_at result cdn.new) }
    ensures others { OnOk result (cdn.new ≡ record cdn.old { standing = cdn.new.standing }) }
    ensures faults { OnOk result (Rises (L.faults link.old) (L.faults link.new) (fault_of cdn.old.standing)
        (fault_of cdn.new.standing)) }
{
    let standing = mem::replace(&mut cdn.standing, Standing::Waiting);
    cdn.standing = visited(alloc, link, &cdn.to, body, standing)?;
    Ok(())
}

// how a CDN stands after it was visited: it is posted to where it waits, and polled where it took the command and its
// last status is not final
fn visited<L: Link>(
    alloc: Global,
    link: &mut L,
    to: &Target,
    body: &[u8],
    standing: Standing,
) -> Result<Standing, AllocError>
    ensures visited { (made : List LinkCall) × Grows (L.calls link.old) (L.calls link.new) made
        × Visit body.now to.now standing made (result_ok result) }
    ensures later { L.faults link.old ≤ L.faults link.new }
    ensures faults { IfOk result (λ after. Rises (L.faults link.old) (L.faults link.new)
        (fault_of standing) (fault_of after)) }
{
    match standing {
        Standing::Waiting => after_post(link.post(alloc, to, body)),
        Standing::Took { place, last } => {
            if last.is_final() {
                return Ok(Standing::Took { place, last });
            }
            let answer = link.poll(alloc, place.bytes());
            after_poll(place, answer)
        }
        other => Ok(other),
    }
}
