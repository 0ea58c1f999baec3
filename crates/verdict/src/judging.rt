//! The verdict on a delivery.

ghost use Rattle.std.specs.Prelude.{◌≡◌, ◌↔◌, ℕ, Bool, IfOk, option_map};
ghost use Rattle.std.specs.Option.{option_map_or};
ghost use Rattle.std.specs.declared.option.Option.{Option};
ghost use Rattle.verdict.specs.Verdict.{protocol_name, location_rule, time_rule, protocol_rule, list_rule, source_rule, first_rule, verdict_of, NoneForbids, IsFirstToForbid};
ghost use Rattle.cdni_base.specs.declared.rule.Rule.{Rule};

use crate::sources::is_plan_empty;
use cdni_base::{Protocol, Rule};
use inheritance::Effective;
use location_acl::Place;
use std::alloc::{AllocError, Global};
use time_window::Moment;

/// Whether a delivery is allowed.
#[derive(Drop)]
pub enum Verdict {
    /// No rule forbids it.
    Allow,
    /// This is the first rule that forbids it.
    Deny(Rule),
}

/// Judges a delivery by the effective metadata. The rules are asked in this order: an object that is mandatory and not
/// understood, the location list, the time list, the protocol list, and that no source can be asked. A kind of list
/// that is not effective forbids nothing.
///
/// # Errors
/// Want of memory.
pub fn judge(
    alloc: Global,
    effective: &Effective,
    protocol: Protocol,
    place: &Place,
    moment: Moment,
) -> Result<Verdict, AllocError>
    ensures verdict { IfOk result (λ verdict. verdict ≡ verdict_of effective.now protocol place.now moment) }
    ensures allow { IfOk result (λ verdict.
        (verdict ≡ Verdict.Allow) ↔ NoneForbids effective.now protocol place.now moment) }

    // It denies by the first rule that forbids.
    ensures deny { IfOk result (λ verdict. (rule : Rule) →
        (verdict ≡ Verdict.Deny rule) ↔ IsFirstToForbid effective.now protocol place.now moment rule) }
{
    let found = first_rule(alloc, effective, protocol, place, moment)?;
    Ok(verdict_by(found))
}

// the verdict by the first rule that forbids, where one does
fn verdict_by(found: Option<Rule>) -> Verdict
    ensures { result ≡ option_map_or Verdict.Deny found Verdict.Allow }
{
    match found {
        Some(rule) => Verdict::Deny(rule),
        None => Verdict::Allow,
    }
}

// the first rule that forbids
#[tactic(auto, unfolding(crate::specs::Verdict::first_rule))]
fn first_rule(
    alloc: Global,
    effective: &Effective,
    protocol: Protocol,
    place: &Place,
    moment: Moment,
) -> Result<Option<Rule>, AllocError>
    ensures { IfOk result (λ found. found ≡ first_rule effective.now protocol place.now moment) }
{
    if let Some(kind) = effective.unenforceable() {
        return Ok(Some(Rule::Unenforceable {
            kind: kind.clone()?,
        }));
    }
    if let Some(rule) = list_rule(effective, protocol, place, moment) {
        return Ok(Some(rule));
    }
    Ok(if is_plan_empty(effective) {
        Some(Rule::NoSource)
    } else {
        None
    })
}

// the first list that denies
fn list_rule(
    effective: &Effective,
    protocol: Protocol,
    place: &Place,
    moment: Moment,
) -> Option<Rule>
    ensures { result ≡ list_rule effective.now protocol place.now moment }
{
    if let Some(rule) = location_rule(effective, place) {
        return Some(rule);
    }
    if let Some(rule) = time_rule(effective, moment) {
        return Some(rule);
    }
    protocol_rule(effective, protocol)
}

fn location_rule(effective: &Effective, place: &Place) -> Option<Rule>
    ensures { result ≡ location_rule effective.now place.now }
{
    let (allowed, rule) = effective.location()?.decide(place);
    if allowed {
        None
    } else {
        Some(Rule::Location { rule })
    }
}

fn time_rule(effective: &Effective, moment: Moment) -> Option<Rule>
    ensures { result ≡ time_rule effective.now moment }
{
    let (allowed, rule) = effective.time()?.decide(moment);
    if allowed {
        None
    } else {
        Some(Rule::Time { rule })
    }
}

fn protocol_rule(effective: &Effective, protocol: Protocol) -> Option<Rule>
    ensures { result ≡ protocol_rule effective.now protocol }
{
    let (allowed, rule) = effective.protocol()?.decide(protocol_name(protocol));
    if allowed {
        None
    } else {
        Some(Rule::Protocol { rule })
    }
}

fn protocol_name(protocol: Protocol) -> &'static [u8]
    ensures { result.now ≡ protocol_name protocol }
{
    match protocol {
        Protocol::Http => b"http/1.1",
        Protocol::Https => b"https/1.1",
    }
}
