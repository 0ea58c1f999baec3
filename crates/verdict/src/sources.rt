//! From where the content of a delivery can be had.

ghost use Rattle.std.specs.Prelude.{◌≡◌, ◌++◌, [], IfOk, OnOk, IsTrue, ◌↔◌};
ghost use Rattle.std.specs.List.{list_any};
ghost use Rattle.verdict.specs.Plan.{speaks_http, plan_from, plan_of};

use cdni_base::{Endpoint, EndpointList, Listing, SourceItem};
use inheritance::Effective;
use std::alloc::{AllocError, Global};

/// The endpoints of the effective sources that deliver by HTTP/1.1, in order (RFC 8006, section 4.2.1).
///
/// # Errors
/// Want of memory.
pub fn plan(alloc: Global, effective: &Effective) -> Result<EndpointList, AllocError>
    ensures { IfOk result (λ plan. plan ≡ plan_of effective.now) }
{
    match effective.sources() {
        Some(sources) => endpoints(alloc, sources.as_slice()),
        None => Ok(Listing::new(alloc)),
    }
}

// whether there is no such endpoint
pub(crate) fn is_plan_empty(effective: &Effective) -> bool
    ensures { IsTrue result ↔ (plan_of effective.now ≡ []) }
{
    match effective.sources() {
        Some(sources) => have_no_endpoint(sources.as_slice()),
        None => true,
    }
}

#[tactic(auto, unfolding(crate::specs::Plan::plan_from))]
fn have_no_endpoint(sources: &[SourceItem]) -> bool
    ensures { IsTrue result ↔ (plan_from sources.now ≡ []) }
{
    'sources: for source in sources {
        if speaks_http(source) && source.endpoints.len() > 0 {
            return false;
        }
    }
    true
}

// the endpoints of the sources that deliver by HTTP/1.1
#[tactic(auto, unfolding(crate::specs::Plan::plan_from))]
fn endpoints(alloc: Global, sources: &[SourceItem]) -> Result<EndpointList, AllocError>
    ensures { IfOk result (λ plan. plan ≡ plan_from sources.now) }
{
    let mut plan = Listing::new(alloc);
    'sources: for source in sources {
        if speaks_http(source) {
            add_endpoints(&mut plan, &source.endpoints)?;
        }
    }
    Ok(plan)
}

// adds copies of these endpoints
fn add_endpoints(plan: &mut EndpointList, endpoints: &EndpointList) -> Result<(), AllocError>
    ensures { OnOk result (plan.new ≡ plan.old ++ endpoints.now) }
{
    'endpoints: for endpoint in endpoints.as_slice() {
        plan.push(copy_of(endpoint)?)?;
    }
    Ok(())
}

fn copy_of(endpoint: &Endpoint) -> Result<Endpoint, AllocError>
    ensures { IfOk result (λ copy. copy ≡ endpoint.now) }
{
    endpoint.clone()
}

fn speaks_http(source: &SourceItem) -> bool
    ensures { result ≡ speaks_http source.now }
{
    source.protocol.bytes().eq_ignore_ascii_case(b"http/1.1")
}
