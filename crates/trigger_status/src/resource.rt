//! Trigger status resources (RFC 8007, section 5.1.2).

ghost use Rattle.std.specs.Prelude.{◌≡◌, ◌++◌, true, false, codes, IfOk, OnOk};
ghost use Rattle.serde_json.specs.Data.{member, no_members, string};
ghost use Rattle.serde_json.specs.Written.{compact_text, items_text, members_text};
ghost use Rattle.trigger_status.specs.Job.{kind_name, status_name, trigger_data, emeta_data, econtent_data};
ghost use Rattle.trigger_status.specs.Job.{error_items, last_members, job_text};
ghost use Rattle.trigger_status.specs.Write.{AddsMember, AddsOne};

use crate::items::{
    add_pattern_list, add_place_member, add_text_list, add_url_list, add_url_member,
};
use crate::job::{Job, JobStatus};
use crate::write::{add_comma, add_name, add_number_member, add_text_member, end_object};
use listing::Text;
use std::alloc::{AllocError, Global};
use trigger_command::{Spec, TriggerKind};

/// The status resource of a trigger (RFC 8007, section 5.1.2), as JSON without spaces, with the members of each object
/// in the order of their bytes: `ctime` and `mtime` in whole seconds, `errors` where there are any, `status`, and
/// `trigger` with its type and the lists that are not empty.
///
/// # Errors
/// Want of memory.
#[tactic(auto, unfolding(crate::specs::Job::job_data))]
pub fn job_json(alloc: Global, job: &Job) -> Result<Text, AllocError>
    ensures { IfOk result (λ text. text ≡ job_text job.now) }
{
    let mut out = Vec::from_slice(alloc, b"{")?;
    add_number_member(&mut out, false, b"ctime", job.ctime / 1000)?;
    add_errors(&mut out, job)?;
    add_rest(&mut out, job)?;
    Ok(Text::from_vec(out))
}

// adds the last members of the resource, and its end
#[tactic(auto, unfolding(crate::specs::Job::last_members))]
fn add_rest(out: &mut Vec<u8>, job: &Job) -> Result<(), AllocError>
    ensures { OnOk result (out.new.items ≡ out.old.items ++ members_text true (last_members job.now)) }
{
    add_number_member(out, true, b"mtime", job.mtime / 1000)?;
    add_text_member(out, true, b"status", status_name(job.status))?;
    add_trigger_member(out, &job.spec)?;
    end_object(out)?;
    Ok(())
}

// adds the trigger's specification as a member behind others
pub(crate) fn add_trigger_member(out: &mut Vec<u8>, spec: &Spec) -> Result<(), AllocError>
    ensures { OnOk result (AddsOne out.old.items true out.new.items (codes "trigger") (trigger_data spec.now)) }
{
    add_name(out, true, b"trigger")?;
    add_trigger(out, spec)?;
    Ok(())
}

// adds the errors, if there are any
fn add_errors(out: &mut Vec<u8>, job: &Job) -> Result<(), AllocError>
    ensures { OnOk result (AddsMember out.old.items true out.new.items (codes "errors")
        (error_items job.now.emeta job.now.spec job.now.econtent) true) }
{
    let places = job.econtent.as_slice();
    if !job.emeta && places.is_empty() {
        return Ok(());
    }
    add_name(out, true, b"errors")?;
    out.extend_from_slice(b"[")?;
    add_error_items(out, job.emeta, &job.spec, places)?;
    Ok(())
}

fn add_error_items(
    out: &mut Vec<u8>,
    emeta: bool,
    spec: &Spec,
    places: &[u32],
) -> Result<(), AllocError>
    ensures { OnOk result (out.new.items ≡ out.old.items ++ items_text false (error_items emeta spec.now places.now)) }
{
    if emeta {
        add_emeta(out, spec)?;
    }
    if !places.is_empty() {
        add_comma(out, emeta)?;
        add_econtent(out, spec, places)?;
    }
    out.extend_from_slice(b"]")
}

#[tactic(auto, unfolding(crate::specs::Job::emeta_data))]
fn add_emeta(out: &mut Vec<u8>, spec: &Spec) -> Result<(), AllocError>
    ensures { OnOk result (out.new.items ≡ out.old.items ++ compact_text (emeta_data spec.now)) }
{
    out.extend_from_slice(b"{")?;
    add_text_member(out, false, b"error", b"emeta")?;
    add_url_member(
        out,
        true,
        b"metadata.urls",
        spec.selection.metadata_urls.as_slice(),
    )?;
    end_object(out)?;
    Ok(())
}

#[tactic(auto, unfolding(crate::specs::Job::econtent_data))]
fn add_econtent(out: &mut Vec<u8>, spec: &Spec, places: &[u32]) -> Result<(), AllocError>
    ensures { OnOk result (out.new.items ≡ out.old.items ++ compact_text (econtent_data spec.now places.now)) }
{
    out.extend_from_slice(b"{")?;
    let urls = spec.selection.content_urls.as_slice();
    add_place_member(out, false, b"content.urls", urls, places)?;
    add_text_member(out, true, b"error", b"econtent")?;
    end_object(out)?;
    Ok(())
}

// adds the trigger's specification
#[tactic(auto, unfolding(crate::specs::Job::trigger_data))]
fn add_trigger(out: &mut Vec<u8>, spec: &Spec) -> Result<(), AllocError>
    ensures { OnOk result (out.new.items ≡ out.old.items ++ compact_text (trigger_data spec.now)) }
{
    let selection = &spec.selection;
    out.extend_from_slice(b"{")?;
    let ccids = add_text_list(out, false, b"content.ccid", selection.ccids.as_slice())?;
    let patterns = add_pattern_list(
        out,
        ccids,
        b"content.patterns",
        selection.content_patterns.as_slice(),
    )?;
    let urls = add_url_list(
        out,
        patterns,
        b"content.urls",
        selection.content_urls.as_slice(),
    )?;
    let metadata_patterns = add_pattern_list(
        out,
        urls,
        b"metadata.patterns",
        selection.metadata_patterns.as_slice(),
    )?;
    let later = add_url_list(
        out,
        metadata_patterns,
        b"metadata.urls",
        selection.metadata_urls.as_slice(),
    )?;
    add_kind(out, later, spec.kind)?;
    Ok(())
}

// adds the type of the trigger, which is its last member
fn add_kind(out: &mut Vec<u8>, later: bool, kind: TriggerKind) -> Result<(), AllocError>
    ensures { OnOk result (out.new.items ≡ out.old.items
        ++ members_text later (member (codes "type") (string (kind_name kind)) no_members)) }
{
    add_text_member(out, later, b"type", kind_name(kind))?;
    end_object(out)?;
    Ok(())
}

fn kind_name(kind: TriggerKind) -> &'static [u8]
    ensures { result.now ≡ kind_name kind }
{
    match kind {
        TriggerKind::Preposition => b"preposition",
        TriggerKind::Invalidate => b"invalidate",
        TriggerKind::Purge => b"purge",
    }
}

fn status_name(status: JobStatus) -> &'static [u8]
    ensures { result.now ≡ status_name status }
{
    match status {
        JobStatus::Pending => b"pending",
        JobStatus::Active => b"active",
        JobStatus::Complete => b"complete",
        JobStatus::Failed => b"failed",
        JobStatus::Cancelling => b"cancelling",
        JobStatus::Cancelled => b"cancelled",
    }
}
