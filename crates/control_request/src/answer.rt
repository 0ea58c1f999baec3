//! The answers to requests of the upstream CDN.

ghost use Rattle.std.specs.Prelude.{◌≡◌, ◌≢◌, ◌≤◌, ℕ, length, codes, IfOk, IfSome, IsTrue};
ghost use Rattle.answer_head.specs.Answer.{is_answer_status};
ghost use Rattle.cdni_base.specs.declared.type_name.TheConstants.{TYPE_NAME_MAX};
ghost use Rattle.trigger_status.specs.Collection.{collection_text};
ghost use Rattle.trigger_status.specs.Job.{job_text};
ghost use Rattle.control_request.specs.Lists.{numbers_text, statuses_text};
ghost use Rattle.control_request.specs.Answer.{advertised, answer_to, created, empty, made, made_with, refused, refusal_status, with_text};

use crate::lists::{numbers_json, statuses_json};
use answer_head::Made;
use cdni_base::{Moment, Text, TypeName};
use footprints::advert;
use history::Reply;
use session_base::{ControlAnswer, MadeAt, Settings};
use std::alloc::{AllocError, Global};
use trigger_command::{CommandFault, IdList, Spec};
use trigger_status::{Filter, IndexList, Job, JobStatus, JobStatusList, collection_json, job_json};

// The types of texts: a trigger's status, a collection of triggers, a log file, other JSON, and a line.
const STATUS_KIND: &[u8] = b"application/cdni; ptype=ci-trigger-status";

const COLLECTION_KIND: &[u8] = b"application/cdni; ptype=ci-trigger-collection";

const LOG_KIND: &[u8] = b"application/cdni; ptype=logging-file";

const JSON_KIND: &[u8] = b"application/json";

const LINE_KIND: &[u8] = b"text/plain";

// the answer to a reply
pub(crate) fn answer_to(
    alloc: Global,
    settings: &Settings,
    reply: &Reply,
) -> Result<ControlAnswer, AllocError>
    ensures answer { IfOk result (λ answer. answer ≡ answer_to settings.now reply.now) }
    ensures status { IfOk result (λ answer. IsTrue (is_answer_status answer.status)) }
{
    match reply {
        Reply::Resource { job } => resource_answer(alloc, job),
        Reply::Collection { filter, ids } => collection_answer(alloc, settings, *filter, ids),
        Reply::LogText { text } => file_answer(alloc, text),
        Reply::Numbers { list } => numbers_answer(alloc, list),
        Reply::Statuses { list } => statuses_answer(alloc, list),
        Reply::File { number } => made(alloc, Made::LogFile, *number),
        Reply::Deleted | Reply::Dropped | Reply::NothingToCut => empty(alloc, 204),
        _ => empty(alloc, 404),
    }
}

// a log file
fn file_answer(alloc: Global, text: &Text) -> Result<ControlAnswer, AllocError>
    ensures { IfOk result (λ answer. answer ≡ with_text (codes "application/cdni; ptype=logging-file") text.now) }
{
    with_text(alloc, LOG_KIND, text.clone()?)
}

// a trigger
fn resource_answer(alloc: Global, job: &Job) -> Result<ControlAnswer, AllocError>
    ensures { IfOk result (λ answer. answer ≡ with_text (codes "application/cdni; ptype=ci-trigger-status") (job_text job.now)) }
{
    with_text(alloc, STATUS_KIND, job_json(alloc, job)?)
}

// a collection of triggers
fn collection_answer(
    alloc: Global,
    settings: &Settings,
    filter: Filter,
    ids: &IdList,
) -> Result<ControlAnswer, AllocError>
    ensures { IfOk result (λ answer. answer ≡ with_text (codes "application/cdni; ptype=ci-trigger-collection")
        (collection_text ids.now filter settings.now.own settings.now.control)) }
{
    let text = collection_json(alloc, ids, filter, &settings.own, &settings.control)?;
    with_text(alloc, COLLECTION_KIND, text)
}

// the numbers of the log files
fn numbers_answer(alloc: Global, list: &IdList) -> Result<ControlAnswer, AllocError>
    ensures { IfOk result (λ answer. answer ≡ with_text (codes "application/json") (numbers_text list.now)) }
{
    with_text(alloc, JSON_KIND, numbers_json(alloc, list)?)
}

// the statuses of triggers
fn statuses_answer(alloc: Global, list: &JobStatusList) -> Result<ControlAnswer, AllocError>
    ensures { IfOk result (λ answer. answer ≡ with_text (codes "application/json") (statuses_text list.now)) }
{
    with_text(alloc, JSON_KIND, statuses_json(alloc, list)?)
}

// an answer without a text
pub(crate) fn empty(alloc: Global, status: u16) -> Result<ControlAnswer, AllocError>
    ensures { IfOk result (λ answer. answer ≡ empty status) }
{
    Ok(ControlAnswer {
        status,
        kind: kind_of(alloc, b"")?,
        text: Text::of(alloc, b"")?,
        made: None,
    })
}

// a type of text
fn kind_of(alloc: Global, name: &[u8]) -> Result<TypeName, AllocError>
    requires { length name.now ≤ TYPE_NAME_MAX }
    ensures { IfOk result (λ kind. kind ≡ name.now) }
{
    match TypeName::of(alloc, name)? {
        Some(kind) => Ok(kind),
        None => unreachable!(),
    }
}

// a text of this type
fn with_text(alloc: Global, kind: &[u8], text: Text) -> Result<ControlAnswer, AllocError>
    requires { length kind.now ≤ TYPE_NAME_MAX }
    ensures { IfOk result (λ answer. answer ≡ with_text kind.now text) }
{
    Ok(ControlAnswer {
        status: 200,
        kind: kind_of(alloc, kind)?,
        text,
        made: None,
    })
}

// something without a text was made
fn made(alloc: Global, what: Made, number: u64) -> Result<ControlAnswer, AllocError>
    ensures { IfOk result (λ answer. answer ≡ made what number) }
{
    Ok(ControlAnswer {
        status: 201,
        kind: kind_of(alloc, b"")?,
        text: Text::of(alloc, b"")?,
        made: Some(MadeAt { made: what, number }),
    })
}

// the advertisement
pub(crate) fn advertised(alloc: Global, settings: &Settings) -> Result<ControlAnswer, AllocError>
    ensures { IfOk result (λ answer. answer ≡ advertised settings.now) }
{
    with_text(alloc, JSON_KIND, advert(alloc, &settings.advert)?)
}

// a command is refused
pub(crate) fn refused(alloc: Global, fault: &CommandFault) -> Result<ControlAnswer, AllocError>
    requires { fault.now ≢ CommandFault.Memory }
    ensures answer { IfOk result (λ answer. answer ≡ refused fault.now) }
    ensures status { IfOk result (λ answer. IsTrue (is_answer_status answer.status)) }
{
    let line = fault.text(alloc)?;
    let mut text = Vec::from_slice(alloc, line.bytes())?;
    text.extend_from_slice(b"\n")?;
    Ok(ControlAnswer {
        status: refusal_status(fault),
        kind: kind_of(alloc, LINE_KIND)?,
        text: Text::from_vec(text),
        made: None,
    })
}

// the status of a refusal
fn refusal_status(fault: &CommandFault) -> u16
    ensures value { result ≡ refusal_status fault.now }
    ensures status { IsTrue (is_answer_status result) }
{
    match fault {
        CommandFault::Loop => 403,
        _ => 400,
    }
}

// the resource of a trigger that was just commanded at this moment, where memory was found for it, and the trigger again
pub(crate) fn resource_of(alloc: Global, spec: Spec, moment: Moment) -> (Option<Text>, Spec)
    ensures text { IfSome result.0 (λ text. (id : ℕ) → text ≡ (created id spec moment).text) }
    ensures spec { result.1 ≡ spec }
{
    let Ok(econtent) = IndexList::new(alloc) else {
        return (None, spec);
    };
    let job = Job {
        id: 0,
        spec,
        status: JobStatus::Pending,
        ctime: moment,
        mtime: moment,
        emeta: false,
        econtent,
    };
    let text = job_json(alloc, &job);
    let Job { spec, .. } = job;
    match text {
        Ok(text) => (Some(text), spec),
        Err(_) => (None, spec),
    }
}

// the answer that tells where a new trigger stands, with its resource
pub(crate) fn made_with(alloc: Global, id: u64, text: Text) -> Result<ControlAnswer, AllocError>
    ensures { IfOk result (λ answer. answer ≡ made_with id text) }
{
    Ok(ControlAnswer {
        status: 201,
        kind: kind_of(alloc, STATUS_KIND)?,
        text,
        made: Some(MadeAt {
            made: Made::Trigger,
            number: id,
        }),
    })
}
