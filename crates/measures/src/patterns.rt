//! Matches texts, so that the instructions of a match can be counted (bench/instructions/patterns.sh), and prints how many of them
//! matched. Numbers: that of a pattern (0 to 2), the length of the text in bytes, and how often it is matched.
//! Without numbers each pattern is matched ten times on texts of 30, 300 and 3,000 bytes.
use anyhow::bail;
use pattern_match::Pattern;
use std::alloc::{AllocError, Global};

// A pattern, and the parts of a text that it matches: before, between and after what fills the text.
#[derive(Clone, Copy)]
struct Sample {
    pattern: &'static str,
    head: &'static str,
    middle: &'static str,
    tail: &'static str,
}

fn sample_of(number: usize) -> Option<Sample> {
    match number {
        0 => Some(Sample {
            pattern: "/seg/*",
            head: "/seg/",
            middle: "",
            tail: "",
        }),
        1 => Some(Sample {
            pattern: "*.ts",
            head: "/",
            middle: "",
            tail: ".ts",
        }),
        2 => Some(Sample {
            pattern: "/a/*/b/*/c?.m4s",
            head: "/a/",
            middle: "/b/",
            tail: "/c1.m4s",
        }),
        _ => None,
    }
}

// A text of that length, if the parts leave room, which the pattern matches.
fn text_of(alloc: Global, sample: &Sample, len: usize) -> Result<Vec<u8>, AllocError> {
    let fixed = sample
        .head
        .len()
        .saturating_add(sample.middle.len())
        .saturating_add(sample.tail.len());
    let fill = len.saturating_sub(fixed);
    let mut text = Vec::new(alloc);
    text.extend_from_slice(sample.head.as_bytes())?;
    for _ in 0..fill / 2 {
        text.push(b'x')?;
    }
    text.extend_from_slice(sample.middle.as_bytes())?;
    for _ in 0..fill - fill / 2 {
        text.push(b'x')?;
    }
    text.extend_from_slice(sample.tail.as_bytes())?;
    Ok(text)
}

// How many of so many matches are true. The text changes before each, so that none can be left out.
fn matched(pattern: &Pattern, text: &mut [u8], place: usize, count: u32) -> u32 {
    let mut matched = 0u32;
    for round in 0..count {
        if place < text.len() {
            text[place] = if round % 2 == 0 { b'x' } else { b'y' };
        }
        if pattern.matches(text) {
            matched = matched.saturating_add(1);
        }
    }
    matched
}

fn measure(alloc: Global, number: usize, len: usize, count: u32) -> anyhow::Result<u32> {
    let Some(sample) = sample_of(number) else {
        bail!("the patterns are numbered 0 to 2");
    };
    let Ok(pattern) = Pattern::read(alloc, sample.pattern.as_bytes(), true) else {
        bail!("out of memory");
    };
    let mut text = text_of(alloc, &sample, len)?;
    Ok(matched(&pattern, &mut text, sample.head.len(), count))
}

/// Runs it as these numbers say, or on its sample where there are none.
pub fn run<R: Print>(rt: &R, alloc: Global, numbers: &[u32]) -> anyhow::Result<()> {
    if let [number, len, count] = numbers {
        let count = measure(alloc, *number as usize, *len as usize, *count)?;
        println!(rt; "{count}")?;
        return Ok(());
    }
    for number in 0..3 {
        for len in [30, 300, 3_000] {
            let count = measure(alloc, number, len, 10)?;
            println!(rt; "pattern {number}, {len} bytes: {count}")?;
        }
    }
    Ok(())
}
