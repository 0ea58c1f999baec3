use std::alloc::{AllocError, Global};
use std::sync::{Mutex, Wait};
use std::thread;
use std::thread::{Threads, map_indices};
use std::time::{Clock, Duration};

fn work<R: Threads + Wait + Sync + Clock>(rt: &R, lock: &Mutex<u64>, turns: u64, nap: Duration) {
    for _ in 0..turns {
        let mut count = lock.lock(rt);
        if !nap.is_zero() {
            thread::sleep(rt, nap);
        }
        *count = count.wrapping_add(1);
    }
}

/// So many threads take the lock so many times each, and sleep so long under it. Returns what was counted.
pub fn run<R: Threads + Wait + Sync + Clock>(
    rt: &R,
    alloc: Global,
    threads: u32,
    turns: u64,
    nap: Duration,
) -> Result<u64, AllocError> {
    let lock = Mutex::new(0);
    let shared = &lock;
    map_indices(
        rt,
        alloc,
        threads as usize,
        &|_| -> u64 {
            work(rt, shared, turns, nap);
            0
        },
    )?;
    Ok(lock.into_inner())
}
