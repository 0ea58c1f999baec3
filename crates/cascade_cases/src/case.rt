//! A case.

use crate::outcome::Outcome;
use crate::wire::differs_in_answer;
use crate::{answer, field};
use edge_base::{MemorySink, MemorySource};
use serde_json::Value;
use std::alloc::Global;
use trigger_cascade::{MemoryLink, cascade_main, far_of};

// Where the case differs, if it does.
pub fn differs(alloc: Global, case: &Value) -> anyhow::Result<Option<&'static str>> {
    if case.get("body").is_some() {
        return differs_in_status(alloc, case);
    }
    if case.get("bytes").is_some() {
        return differs_in_answer(alloc, case);
    }
    differs_in_command(alloc, case)
}

// Whether a status resource shows another status.
fn differs_in_status(alloc: Global, case: &Value) -> anyhow::Result<Option<&'static str>> {
    let body = field::bytes(alloc, case, "body")?;
    let found = far_of(alloc, &body)?;
    let name = match found {
        Some(far) => far.name(),
        None => b"",
    };
    let expected = field::get(case, "far")?.as_str().unwrap_or("");
    Ok(if name == expected.as_bytes() {
        None
    } else {
        Some("its status")
    })
}

// Where a whole command differs.
fn differs_in_command(alloc: Global, case: &Value) -> anyhow::Result<Option<&'static str>> {
    let words = words(alloc, case)?;
    let bytes = field::joined(alloc, case, "input")?;
    let mut input = MemorySource::new(alloc, &bytes, &field::numbers(alloc, case, "reads")?)?;
    let mut output = MemorySink::new(alloc, &field::numbers(alloc, case, "takes")?)?;
    let mut notes = MemorySink::new(alloc, &[])?;
    let mut link = link(alloc, case)?;
    let status = cascade_main(
        alloc,
        &words,
        &mut input,
        &mut output,
        &mut notes,
        &mut link,
    );
    let outcome = Outcome {
        status: status.number(),
        output: output.held(),
        note: notes.held(),
        calls: link.calls(),
        faults: link.faults(),
    };
    outcome.differs(alloc, case)
}

fn link(alloc: Global, case: &Value) -> anyhow::Result<MemoryLink> {
    let posts = answer::posts(alloc, case)?;
    let polls = answer::polls(alloc, case)?;
    Ok(MemoryLink::new(alloc, posts, polls)?)
}

fn words(alloc: Global, case: &Value) -> anyhow::Result<Vec<String>> {
    let mut words = Vec::new(alloc);
    for word in field::list(case, "words")? {
        let text = word.as_str().unwrap_or("");
        words.push(String::from_str(alloc, text)?)?;
    }
    Ok(words)
}
