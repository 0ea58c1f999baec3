//! Runs connections over memory and compares what passes with what is to pass. Each line of the standard input is a case:
//! a JSON object with a node, what its gate and its clock give, and connections that are served one after the other, each
//! with what it reads and with the bytes, calls, asks and ending that are to come of it. A text of the case has a character
//! below U+0100 for each byte. In a case with `silent` no call is written down; in one with `refusing`,
//! which may end for want of memory, each delivery that began is to be finished. A line is printed for each case that differs,
//! and last how many there were.
#![tactic(auto)]

mod case;
mod connection;
mod field;
mod telling;
mod told;

use crate::case::differs;
use anyhow::bail;
use serde_json::Value;
use std::alloc::Global;
use std::io::Read;
use std::sync::Wait;
use std::thread::Threads;

// Runs one case, and prints its name where it differs.
fn run_one<R: Threads + Wait + Sync + Print>(
    rt: &R,
    alloc: Global,
    line: &[u8],
) -> anyhow::Result<bool> {
    let Ok(case) = Value::from_slice(alloc, line) else {
        bail!("a line is no JSON");
    };
    match differs(rt, alloc, &case)? {
        Some(place) => {
            let name = field::text(&case, "case")?;
            println!(rt; "{name} differs in {place}")?;
            Ok(true)
        }
        None => Ok(false),
    }
}

fn main(rt: HostRuntime) -> anyhow::Result<()> {
    let alloc = rt.alloc();
    let mut bytes = Vec::new(alloc);
    rt.stdin().read_to_end(&mut bytes)?;
    let mut cases = 0u32;
    let mut differing = 0u32;
    for line in bytes.split(|byte| *byte == b'\n') {
        if line.is_empty() {
            continue;
        }
        cases = cases.saturating_add(1);
        if run_one(&rt, alloc, line)? {
            differing = differing.saturating_add(1);
        }
    }
    println!(&rt; "{cases} cases, {differing} differ")?;
    Ok(())
}
