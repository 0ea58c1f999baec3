//! What came of a case.

use crate::field;
use listing::Text;
use serde_json::Value;
use std::alloc::Global;
use trigger_cascade::LinkCall;

// The status of a failed output.
const WRITE_FAULT: u8 = 4;

// The status of want of memory.
const WANT_OF_MEMORY: u8 = 5;

// What came of a case.
#[derive(Drop)]
pub struct Outcome<'a> {
    pub status: u8,
    pub output: &'a [u8],
    pub note: &'a [u8],
    pub calls: &'a [LinkCall],
    pub faults: u64,
}

impl Outcome<'_> {
    // Where it differs from what the case says.
    pub fn differs(&self, alloc: Global, case: &Value) -> anyhow::Result<Option<&'static str>> {
        if u64::from(self.status) != field::number(case, "status")? {
            return Ok(Some("its status"));
        }
        if self.note != field::bytes(alloc, case, "note")?.as_slice() {
            return Ok(Some("its note"));
        }
        if self.faults != field::number(case, "faults")? {
            return Ok(Some("the faults of the link"));
        }
        if !are_calls(alloc, self.calls, case)? {
            return Ok(Some("the calls on the link"));
        }
        if !self.is_output(&field::bytes(alloc, case, "output")?) {
            return Ok(Some("its output"));
        }
        Ok(None)
    }

    // Whether the output is this one, or the part of it that is to be there.
    fn is_output(&self, expected: &[u8]) -> bool {
        match self.status {
            WRITE_FAULT => expected.starts_with(self.output) && self.output.len() < expected.len(),
            WANT_OF_MEMORY => self.output.is_empty(),
            _ => self.output == expected,
        }
    }
}

// Whether these are the calls of the case, in order.
fn are_calls(alloc: Global, calls: &[LinkCall], case: &Value) -> anyhow::Result<bool> {
    let mut left = calls.iter();
    for item in field::list(case, "calls")? {
        let (expected, times) = field::pair(item)?;
        for _ in 0..times {
            match left.next() {
                Some(call) if is_call(alloc, call, expected)? => {}
                _ => return Ok(false),
            }
        }
    }
    Ok(left.next().is_none())
}

fn is_call(alloc: Global, call: &LinkCall, expected: &Value) -> anyhow::Result<bool> {
    let kind = field::text(expected, "call")?;
    match call {
        LinkCall::Post { to, body, .. } => {
            let query = expected.get("query").and_then(Value::as_str);
            Ok(
                kind == "post"
                    && to.host.bytes() == field::bytes(alloc, expected, "host")?.as_slice()
                    && u64::from(to.port) == field::number(expected, "port")?
                    && to.path.is(&field::bytes(alloc, expected, "path")?)
                    && is_query(&to.query, query)
                    && body.is(&field::bytes(alloc, expected, "body")?),
            )
        }
        LinkCall::Poll { place, .. } => {
            Ok(kind == "poll" && place.is(&field::bytes(alloc, expected, "place")?))
        }
    }
}

// Whether the query is this one.
fn is_query(query: &Option<Text>, expected: Option<&str>) -> bool {
    match (query, expected) {
        (Some(query), Some(expected)) => query.is(expected.as_bytes()),
        (None, None) => true,
        _ => false,
    }
}
