//! The answers that a link in memory gives.

use crate::field;
use anyhow::bail;
use serde_json::Value;
use std::alloc::Global;
use trigger_cascade::{Far, Polled, PolledList, Posted, PostedList, far_of};

// The status of this name.
pub fn far(alloc: Global, name: &str) -> anyhow::Result<Far> {
    let body = format!(in alloc; "{{\"status\":\"{name}\"}}")?;
    match far_of(alloc, body.as_bytes())? {
        Some(far) => Ok(far),
        None => bail!("a status is missing"),
    }
}

fn posted(alloc: Global, value: &Value) -> anyhow::Result<Posted> {
    Ok(match field::text(value, "answer")? {
        "Created" => Posted::Created {
            place: field::text_of(alloc, value, "place")?,
        },
        "Refused" => Posted::Refused {
            status: field::short(value, "status")?,
        },
        "Malformed" => Posted::Malformed,
        "Failed" => Posted::Failed,
        "Memory" => Posted::Memory,
        _ => bail!("no answer to a command"),
    })
}

fn polled(alloc: Global, value: &Value) -> anyhow::Result<Polled> {
    Ok(match field::text(value, "answer")? {
        "Status" => Polled::Status(far(alloc, field::text(value, "far")?)?),
        "Unreadable" => Polled::Unreadable,
        "Failed" => Polled::Failed,
        "Memory" => Polled::Memory,
        _ => bail!("no answer to a poll"),
    })
}

// The answers to commands.
pub fn posts(alloc: Global, case: &Value) -> anyhow::Result<PostedList> {
    let mut list = PostedList::new(alloc);
    for item in field::list(case, "posts")? {
        let (answer, times) = field::pair(item)?;
        for _ in 0..times {
            list.push(posted(alloc, answer)?)?;
        }
    }
    Ok(list)
}

// The answers to polls.
pub fn polls(alloc: Global, case: &Value) -> anyhow::Result<PolledList> {
    let mut list = PolledList::new(alloc);
    for item in field::list(case, "polls")? {
        let (answer, times) = field::pair(item)?;
        for _ in 0..times {
            list.push(polled(alloc, answer)?)?;
        }
    }
    Ok(list)
}
