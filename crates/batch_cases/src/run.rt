//! How a case is run.

use crate::case::{Case, Way};
use crate::ended::Ended;
use crate::portions::Portions;
use crate::stored::run_stored;
use anyhow::bail;
use edge_base::{MemorySink, MemorySource, Status};
use http_node::batch_main;
use std::alloc::Global;

// uneven portions
const UNEVEN: [u64; 10] = [7, 1, 100, 3, 2, 90, 1, 1, 5, 30];

/// Runs a case.
pub fn run_case(alloc: Global, case: &Case<'_>) -> anyhow::Result<Ended> {
    let input = case.input.as_bytes();
    match case.way {
        Way::Once => run_words(alloc, case.words, input, &case.portions),
        Way::AnyCut => run_in_any_cut(alloc, case.words, input),
        Way::Twice => run_twice(alloc, case.words, input),
        Way::Stored => {
            if case.words != "replay" {
                bail!("other words than replay");
            }
            run_stored(alloc, input)
        }
    }
}

// runs these words on the input, by reads and writes of these portions
fn run_words(
    alloc: Global,
    text: &str,
    input: &[u8],
    portions: &Portions,
) -> anyhow::Result<Ended> {
    let mut words = Vec::new(alloc);
    for word in text.split_whitespace() {
        words.push(String::from_str(alloc, word)?)?;
    }
    let mut input = MemorySource::new(alloc, input, portions.gives.as_slice())?;
    let mut output = MemorySink::new(alloc, portions.takes.as_slice())?;
    let mut notes = MemorySink::new(alloc, portions.note_takes.as_slice())?;
    let status = batch_main(alloc, words.as_slice(), &mut input, &mut output, &mut notes);
    Ok(Ended {
        status,
        output: output.held().to_vec(alloc)?,
        notes: notes.held().to_vec(alloc)?,
    })
}

// runs the words by whole portions
fn run_whole(alloc: Global, words: &str, input: &[u8]) -> anyhow::Result<Ended> {
    run_words(alloc, words, input, &Portions::alike(alloc, &[])?)
}

// runs the words by whole portions, by such of one byte and by uneven ones, which are to end alike
fn run_in_any_cut(alloc: Global, words: &str, input: &[u8]) -> anyhow::Result<Ended> {
    let whole = run_whole(alloc, words, input)?;
    let ones = vec![in alloc; 1u64; input.len()]?;
    let ones = run_words(
        alloc,
        words,
        input,
        &Portions::alike(alloc, ones.as_slice())?,
    )?;
    let uneven = run_words(alloc, words, input, &Portions::alike(alloc, &UNEVEN)?)?;
    if !ones.is_same(&whole) || !uneven.is_same(&whole) {
        bail!("two endings");
    }
    Ok(whole)
}

// runs the words twice, and sums both outputs up
fn run_twice(alloc: Global, words: &str, input: &[u8]) -> anyhow::Result<Ended> {
    let first = run_whole(alloc, words, input)?;
    let second = run_whole(alloc, words, input)?;
    if first.status != Status::Done || !second.is_same(&first) {
        bail!("two outputs");
    }
    let summed = run_whole(alloc, "replay --summary", first.output.as_slice())?;
    let again = run_whole(alloc, "replay --summary", second.output.as_slice())?;
    if !again.is_same(&summed) {
        bail!("two summaries");
    }
    Ok(summed)
}
