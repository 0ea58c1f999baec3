//! Counts turns and locks that threads take. With the word `times` it says how long they took;
//! with `sleeping-turns` or `sleeping-locks` the threads sleep while they have the turn or the lock.
use crate::{locks, turns};
use std::alloc::Global;
use std::io;
use std::sync::Wait;
use std::thread::Threads;
use std::time::{Clock, Duration, Instant};

/// How many turns a thread takes where they are counted alone.
const FEW: u64 = 100;

/// How many turns all threads take together where they are timed.
const MANY: u64 = 800_000;

/// How many turns each of four threads sleeps in, and for how many microseconds.
const SLEEPS: u64 = 500;

const NAP: u64 = 300;

fn count<R: Threads + Wait + Sync + Clock + Print>(rt: &R, alloc: Global) -> io::Result<()> {
    for threads in [1u32, 4, 16, 64] {
        let turns = turns::run(rt, alloc, threads, FEW, Duration::ZERO)?;
        let locks = locks::run(rt, alloc, threads, FEW, Duration::ZERO)?;
        println!(rt; "{threads} threads: {turns} turns, {locks} locks")?;
    }
    Ok(())
}

fn time<R: Threads + Wait + Sync + Clock + Print>(rt: &R, alloc: Global) -> io::Result<()> {
    for threads in [1u32, 4, 16, 64] {
        let each = MANY / u64::from(threads).max(1);
        let start = Instant::now(rt)?;
        let turns = turns::run(rt, alloc, threads, each, Duration::ZERO)?;
        let turns_took = start.elapsed(rt)?.as_nanos() / u128::from(turns.max(1));
        let start = Instant::now(rt)?;
        let locks = locks::run(rt, alloc, threads, each, Duration::ZERO)?;
        let locks_took = start.elapsed(rt)?.as_nanos() / u128::from(locks.max(1));
        println!(rt; "{threads} threads: {turns_took} ns a turn, {locks_took} ns a lock")?;
    }
    Ok(())
}

/// Times turns and locks, or lets the threads sleep in them, or counts them where there is no word.
pub fn run<R: Threads + Wait + Sync + Clock + Print>(
    rt: &R,
    alloc: Global,
    word: Option<&str>,
) -> io::Result<()> {
    match word {
        Some("times") => time(rt, alloc),
        Some("sleeping-turns") => {
            let turns = turns::run(rt, alloc, 4, SLEEPS, Duration::from_micros(NAP))?;
            println!(rt; "4 threads: {turns} sleeping turns")
        }
        Some("sleeping-locks") => {
            let locks = locks::run(rt, alloc, 4, SLEEPS, Duration::from_micros(NAP))?;
            println!(rt; "4 threads: {locks} sleeping locks")
        }
        _ => count(rt, alloc),
    }
}
