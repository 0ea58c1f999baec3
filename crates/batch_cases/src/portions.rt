//! How much each call of a stream moves.

use anyhow::bail;
use std::alloc::{AllocError, Global};

/// How many bytes the reads of the input give, and how many the writes of the output and of the notes take.
#[derive(Drop)]
pub struct Portions {
    pub gives: Vec<u64>,
    pub takes: Vec<u64>,
    pub note_takes: Vec<u64>,
}

impl Portions {
    /// The portions that a case's fields name.
    pub fn read(
        alloc: Global,
        gives: &str,
        takes: &str,
        note_takes: &str,
    ) -> anyhow::Result<Portions> {
        Ok(Portions {
            gives: numbers(alloc, gives)?,
            takes: numbers(alloc, takes)?,
            note_takes: numbers(alloc, note_takes)?,
        })
    }

    /// These portions for each stream.
    pub fn alike(alloc: Global, portions: &[u64]) -> Result<Portions, AllocError> {
        Ok(Portions {
            gives: portions.to_vec(alloc)?,
            takes: portions.to_vec(alloc)?,
            note_takes: portions.to_vec(alloc)?,
        })
    }
}

/// The number of this text.
pub fn number(text: &str) -> anyhow::Result<u64> {
    match text.parse::<u64>() {
        Ok(number) => Ok(number),
        Err(_) => bail!("no number"),
    }
}

// the numbers of this text
fn numbers(alloc: Global, text: &str) -> anyhow::Result<Vec<u64>> {
    let mut all = Vec::new(alloc);
    for word in text.split_whitespace() {
        all.push(number(word)?)?;
    }
    Ok(all)
}
