//! Runs the command that passes trigger commands on over streams and a link in memory, and compares what comes of it with
//! what is to come. Each line of the standard input is a case, a JSON object: either the `body` of a status resource and the
//! status `far` that it shows, or the words of a command, what its input has, what its streams give and take, what its link
//! answers, and the calls on the link, the status, the output and the note that are to come; or the bytes that a far CDN answers
//! and what they mean. A text of a case has a character below U+0100 for each byte. A line is printed for each case that
//! differs, and last how many there were.
#![tactic(auto)]

mod answer;
mod case;
mod field;
mod outcome;
mod wire;

use crate::case::differs;
use anyhow::bail;
use serde_json::Value;
use std::alloc::Global;
use std::io::Read;

// Runs one case, and prints where it differs.
fn run_one<R: Print>(rt: &R, alloc: Global, line: &[u8]) -> anyhow::Result<bool> {
    let Ok(case) = Value::from_slice(alloc, line) else {
        bail!("a line is no JSON");
    };
    match differs(alloc, &case)? {
        Some(place) => {
            let name = case.get("case").and_then(Value::as_str).unwrap_or("a body");
            println!(rt; "{name} differs in {place}")?;
            Ok(true)
        }
        None => Ok(false),
    }
}

fn main(rt: HostRuntime) -> anyhow::Result<()> {
    let alloc = rt.alloc();
    let mut bytes = Vec::new(alloc);
    rt.stdin().read_to_end(&mut bytes)?;
    let mut cases = 0u32;
    let mut differing = 0u32;
    for line in bytes.split(|byte| *byte == b'\n') {
        if line.is_empty() {
            continue;
        }
        cases = cases.saturating_add(1);
        if run_one(&rt, alloc, line)? {
            differing = differing.saturating_add(1);
        }
    }
    println!(&rt; "{cases} cases, {differing} differ")?;
    Ok(())
}
