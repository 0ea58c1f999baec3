//! Reads URLs and writes dates, so that their instructions can be counted (bench/instructions/urls.sh), and prints how many of them
//! succeeded. Numbers: what is done (0: a target is read, 1: an HTTP date is written), the length of the URL in
//! bytes, and how often. Without numbers each is done ten times, on URLs of 100, 1,000 and 4,000 bytes.
use anyhow::bail;
use cdni_base::{Scratch, Target, put_date};
use std::alloc::{AllocError, Global};

// A URL of so many bytes, where that is enough for its host and its path: half of the rest is the query.
fn url_of(alloc: Global, len: usize) -> Result<Vec<u8>, AllocError> {
    let head = "http://v.example/films/";
    let fill = len.saturating_sub(head.len());
    let mut url = Vec::new(alloc);
    url.extend_from_slice(head.as_bytes())?;
    for at in 0..fill {
        let byte = if at == fill / 2 { b'?' } else { b'a' };
        url.push(byte)?;
    }
    Ok(url)
}

// How many of so many readings give a target.
fn read_often(alloc: Global, url: &[u8], count: u32) -> u32 {
    let mut read = 0u32;
    for _ in 0..count {
        if Target::read(alloc, url, None, false).is_ok() {
            read = read.saturating_add(1);
        }
    }
    read
}

// How many of so many dates, each 30 hours and a second after the one before, fit a scratch of their length.
fn write_often(alloc: Global, count: u32) -> Result<u32, AllocError> {
    let mut scratch = Scratch::new(alloc, 29)?;
    let mut written = 0u32;
    for day in 0..count {
        scratch.clear();
        if put_date(&mut scratch, day as u64 % 1_000_000 * 108_001_000) {
            written = written.saturating_add(1);
        }
    }
    Ok(written)
}

fn measure(alloc: Global, what: u32, len: u32, count: u32) -> anyhow::Result<u32> {
    match what {
        0 => {
            let url = url_of(alloc, len as usize)?;
            Ok(read_often(alloc, &url, count))
        }
        1 => Ok(write_often(alloc, count)?),
        _ => bail!("0 reads a target, and 1 writes a date"),
    }
}

/// Runs it as these numbers say, or on its sample where there are none.
pub fn run<R: Print>(rt: &R, alloc: Global, numbers: &[u32]) -> anyhow::Result<()> {
    if let [what, len, count] = numbers {
        let count = measure(alloc, *what, *len, *count)?;
        println!(rt; "{count}")?;
        return Ok(());
    }
    for len in [100, 1_000, 4_000] {
        let count = measure(alloc, 0, len, 10)?;
        println!(rt; "targets of {len} bytes: {count}")?;
    }
    let count = measure(alloc, 1, 0, 10)?;
    println!(rt; "dates: {count}")?;
    Ok(())
}
