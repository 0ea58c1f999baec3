//! What a far CDN answers, over memory.

use crate::answer::far;
use crate::field;
use anyhow::bail;
use cascade_link::{poll_over, post_over};
use edge_base::{MemorySink, MemorySource};
use serde_json::Value;
use std::alloc::Global;
use targets::Target;
use trigger_cascade::{Polled, Posted};

// Whether these bytes mean another answer to the link.
pub fn differs_in_answer(alloc: Global, case: &Value) -> anyhow::Result<Option<&'static str>> {
    let bytes = field::joined(alloc, case, "bytes")?;
    let mut source = MemorySource::new(alloc, &bytes, &[])?;
    let mut sink = MemorySink::new(alloc, &[])?;
    let Ok(to) = Target::read(alloc, b"http://y.example/t", None, false) else {
        bail!("no target");
    };
    let expected = field::get(case, "is")?;
    let is_same = if field::text(case, "to")? == "POST" {
        let posted = post_over(alloc, &mut source, &mut sink, &to, b"{}");
        is_posted(alloc, &posted, expected)?
    } else {
        let polled = poll_over(alloc, &mut source, &mut sink, &to);
        is_polled(alloc, polled, expected)?
    };
    Ok(if is_same { None } else { Some("its meaning") })
}

fn is_posted(alloc: Global, posted: &Posted, expected: &Value) -> anyhow::Result<bool> {
    let name = field::text(expected, "answer")?;
    Ok(match posted {
        Posted::Created { place } => {
            name == "Created" && place.is(&field::bytes(alloc, expected, "place")?)
        }
        Posted::Refused { status } => {
            name == "Refused" && u64::from(*status) == field::number(expected, "status")?
        }
        Posted::Malformed => name == "Malformed",
        Posted::Failed => name == "Failed",
        Posted::Memory => name == "Memory",
    })
}

fn is_polled(alloc: Global, polled: Polled, expected: &Value) -> anyhow::Result<bool> {
    let name = field::text(expected, "answer")?;
    Ok(match polled {
        Polled::Status(status) => {
            name == "Status" && status == far(alloc, field::text(expected, "far")?)?
        }
        Polled::Unreadable => name == "Unreadable",
        Polled::Failed => name == "Failed",
        Polled::Memory => name == "Memory",
    })
}
