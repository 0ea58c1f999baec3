//! How a command ended.

use edge_base::Status;
use std::alloc::Global;

/// How a command ended, and what it wrote.
#[derive(Drop)]
pub struct Ended {
    pub status: Status,
    pub output: Vec<u8>,
    pub notes: Vec<u8>,
}

impl Ended {
    /// Whether both ended alike, and wrote the same.
    pub fn is_same(&self, other: &Ended) -> bool {
        self.status == other.status
            && self.output.as_slice() == other.output.as_slice()
            && self.notes.as_slice() == other.notes.as_slice()
    }

    /// Prints the case's name, how it ended, the notes, and so many of the last lines of the output.
    pub fn print<R: Print>(
        &self,
        rt: &R,
        alloc: Global,
        name: &str,
        lines: usize,
    ) -> anyhow::Result<()> {
        let notes = String::from_utf8_lossy(alloc, self.notes.as_slice())?;
        let output = String::from_utf8_lossy(alloc, self.output.as_slice())?;
        println!(rt;
            "# {name}: status {}, {} bytes",
            self.status.number(),
            self.output.len()
        )?;
        print_last(rt, notes.as_str(), usize::MAX)?;
        print_last(rt, output.as_str(), lines)
    }
}

// prints so many of the last lines of a text
fn print_last<R: Print>(rt: &R, text: &str, lines: usize) -> anyhow::Result<()> {
    if text.is_empty() {
        return Ok(());
    }
    let text = text.strip_suffix('\n').unwrap_or(text);
    let skipped = text.split('\n').count().saturating_sub(lines);
    for line in text.split('\n').skip(skipped) {
        println!(rt; "{line}")?;
    }
    Ok(())
}
