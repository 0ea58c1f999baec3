//! Lists of statuses and of numbers, as JSON.

ghost use Rattle.std.specs.Prelude.{◌≡◌, ◌++◌, false, IfOk, OnOk, decimal};
ghost use Rattle.serde_json.specs.Written.{comma_if, compact_text, items_text};
ghost use Rattle.trigger_status.specs.Items.{each_as};
ghost use Rattle.trigger_status.specs.Job.{status_name};
ghost use Rattle.control_request.specs.Lists.{number_data, numbers_text, status_data, statuses_text};

use cdni_base::Text;
use itoa::Buffer;
use std::alloc::{AllocError, Global};
use trigger_command::IdList;
use trigger_status::{JobStatus, JobStatusList};

// the numbers of log files as a JSON object
#[tactic(auto, unfolding(crate::specs::Lists::numbers_text, json::specs::Print::escape_byte))]
pub(crate) fn numbers_json(alloc: Global, numbers: &IdList) -> Result<Text, AllocError>
    ensures { IfOk result (λ text. text ≡ numbers_text numbers.now) }
{
    let mut out = Vec::from_slice(alloc, br#"{"logs":["#)?;
    add_numbers(&mut out, numbers.as_slice())?;
    out.extend_from_slice(b"}")?;
    Ok(Text::from_vec(out))
}

// adds the numbers of a list, and its end
#[tactic(auto, using(trigger_status::proofs::ItemLemmas::item_added, trigger_status::proofs::ItemLemmas::items_added))]
fn add_numbers(out: &mut Vec<u8>, numbers: &[u64]) -> Result<(), AllocError>
    ensures { OnOk result (out.new.items ≡ out.old.items ++ items_text false (each_as number_data numbers.now)) }
{
    let mut later = false;
    'items: for i in 0..numbers.len() {
        add_number(out, later, numbers[i])?;
        later = true;
    }
    out.extend_from_slice(b"]")
}

fn add_number(out: &mut Vec<u8>, later: bool, number: u64) -> Result<(), AllocError>
    ensures { OnOk result (out.new.items ≡ out.old.items ++ (comma_if later ++ compact_text (number_data number))) }
{
    let mut digits = Buffer::new();
    add_comma(out, later)?;
    out.extend_from_slice(digits.format(number).as_bytes())
}

fn add_comma(out: &mut Vec<u8>, later: bool) -> Result<(), AllocError>
    ensures { OnOk result (out.new.items ≡ out.old.items ++ comma_if later) }
{
    if later {
        out.extend_from_slice(b",")
    } else {
        Ok(())
    }
}

// the statuses of triggers as a JSON object
#[tactic(auto, unfolding(crate::specs::Lists::statuses_text, json::specs::Print::escape_byte))]
pub(crate) fn statuses_json(alloc: Global, list: &JobStatusList) -> Result<Text, AllocError>
    ensures { IfOk result (λ text. text ≡ statuses_text list.now) }
{
    let mut out = Vec::from_slice(alloc, br#"{"statuses":["#)?;
    add_statuses(&mut out, list.as_slice())?;
    out.extend_from_slice(b"}")?;
    Ok(Text::from_vec(out))
}

// adds the statuses of a list, and its end
#[tactic(auto, using(trigger_status::proofs::ItemLemmas::item_added, trigger_status::proofs::ItemLemmas::items_added))]
fn add_statuses(out: &mut Vec<u8>, list: &[JobStatus]) -> Result<(), AllocError>
    ensures { OnOk result (out.new.items ≡ out.old.items ++ items_text false (each_as status_data list.now)) }
{
    let mut later = false;
    'items: for i in 0..list.len() {
        add_status(out, later, list[i])?;
        later = true;
    }
    out.extend_from_slice(b"]")
}

fn add_status(out: &mut Vec<u8>, later: bool, status: JobStatus) -> Result<(), AllocError>
    ensures { OnOk result (out.new.items ≡ out.old.items ++ (comma_if later ++ compact_text (status_data status))) }
{
    add_comma(out, later)?;
    out.extend_from_slice(quoted_name(status))
}

// the name of a status in quotes
#[tactic(auto, unfolding(json::specs::Print::escape_byte))]
fn quoted_name(status: JobStatus) -> &'static [u8]
    ensures { result.now ≡ compact_text (status_data status) }
{
    match status {
        JobStatus::Pending => b"\"pending\"",
        JobStatus::Active => b"\"active\"",
        JobStatus::Complete => b"\"complete\"",
        JobStatus::Failed => b"\"failed\"",
        JobStatus::Cancelling => b"\"cancelling\"",
        JobStatus::Cancelled => b"\"cancelled\"",
    }
}
