//! Runs one part of the node alone, for the scripts in `bench/`, which count its instructions, its time or its memory.
//! The first word names the part, and the others say what is done with it; without words each part runs on its sample.
#![tactic(auto)]

mod gathering;
mod heads;
mod journals;
mod locks;
mod objects;
mod patterns;
mod places;
mod tally;
mod timing;
mod turns;
mod urls;

use anyhow::bail;
use std::alloc::Global;
use std::env;
use std::net::{Net, TcpListener, TcpStream};
use std::sync::Wait;
use std::thread::Threads;
use std::time::Clock;

// The parts that take numbers alone.
const COUNTED: [&str; 6] = ["patterns", "places", "urls", "journals", "heads", "objects"];

// Runs a part that takes numbers alone.
fn run_counted<R: Print>(rt: &R, alloc: Global, part: &str, numbers: &[u32]) -> anyhow::Result<()> {
    match part {
        "patterns" => patterns::run(rt, alloc, numbers),
        "places" => places::run(rt, alloc, numbers),
        "urls" => urls::run(rt, alloc, numbers),
        "journals" => journals::run(rt, alloc, numbers),
        "heads" => heads::run(rt, alloc, numbers),
        "objects" => objects::run(rt, alloc, numbers),
        _ => bail!("there is no such part"),
    }
}

// The numbers that these words are.
fn numbers_of(alloc: Global, words: &[String]) -> anyhow::Result<Vec<u32>> {
    let mut numbers = Vec::new(alloc);
    for word in words {
        numbers.push(word.as_str().parse::<u32>()?)?;
    }
    Ok(numbers)
}

// Runs the part of this name.
fn run_part<
    R: Threads
        + Wait
        + Sync
        + Net<Listener = TcpListener, Stream = TcpStream>
        + Clock
        + Clone
        + Drop
        + Print,
>(rt: &R, alloc: Global, part: &str, words: &[String]) -> anyhow::Result<()> {
    match part {
        "gathering" => gathering::run(rt, alloc, words),
        "turns" => {
            timing::run(rt, alloc, words.first().map(|word| word.as_str()))?;
            Ok(())
        }
        _ => {
            let numbers = numbers_of(alloc, words)?;
            run_counted(rt, alloc, part, numbers.as_slice())
        }
    }
}

fn main(rt: HostRuntime) -> anyhow::Result<()> {
    let alloc = rt.alloc();
    let mut words: Vec<String> = Vec::new(alloc);
    for word in env::args(&rt)?.skip(1) {
        words.push(word)?;
    }
    if let Some((part, others)) = words.as_slice().split_first() {
        return run_part(&rt, alloc, part.as_str(), others);
    }
    for part in COUNTED {
        run_counted(&rt, alloc, part, &[])?;
    }
    run_part(&rt, alloc, "gathering", &[])?;
    run_part(&rt, alloc, "turns", &[])
}
