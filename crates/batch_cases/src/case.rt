//! What a case says.

use crate::portions::{Portions, number};
use crate::repeated::repeated;
use anyhow::bail;
use std::alloc::Global;

/// How the words of a case are run.
#[derive(Drop)]
pub enum Way {
    /// Once, by the portions of the case.
    Once,
    /// Whole, by small portions and by uneven ones.
    AnyCut,
    /// Twice, and their outputs are summed up.
    Twice,
    /// Line by line, with what the node stores.
    Stored,
}

/// A case: which words are run on which input, and how many of the last lines of the output are printed.
#[derive(Drop)]
pub struct Case<'a> {
    pub name: &'a str,
    pub lines: usize,
    pub way: Way,
    pub words: &'a str,
    pub input: String,
    pub portions: Portions,
}

impl<'a> Case<'a> {
    /// The case that this text is, but for its `# `.
    pub fn read(alloc: Global, text: &'a str) -> anyhow::Result<Case<'a>> {
        let Some((line, input)) = text.split_once('\n') else {
            bail!("a case without its line");
        };
        let mut fields = Vec::new(alloc);
        for field in line.split('|') {
            fields.push(field.trim())?;
        }
        let (name, words, gives, takes, note_takes) = match fields.as_slice() {
            [name, words, gives, takes] => (*name, *words, *gives, *takes, ""),
            [name, words, gives, takes, note_takes] => (*name, *words, *gives, *takes, *note_takes),
            _ => bail!("a case has four or five fields"),
        };
        let (lines, words) = read_lines(words)?;
        let (way, words) = read_way(words);
        let (words, input) = read_end(words, input);
        Ok(Case {
            name,
            lines,
            way,
            words,
            input: repeated(alloc, input)?,
            portions: Portions::read(alloc, gives, takes, note_takes)?,
        })
    }
}

// how many of the last lines are printed, and the words behind that
fn read_lines(words: &str) -> anyhow::Result<(usize, &str)> {
    let Some(rest) = words.strip_prefix("last ") else {
        return Ok((usize::MAX, words));
    };
    let Some((count, words)) = rest.split_once(" lines of ") else {
        bail!("no number of lines");
    };
    Ok((number(count)? as usize, words))
}

// how the words are run, and the words behind that
fn read_way(words: &str) -> (Way, &str) {
    if let Some(words) = words.strip_prefix("in any cut ") {
        (Way::AnyCut, words)
    } else if let Some(words) = words.strip_prefix("twice ") {
        (Way::Twice, words)
    } else if let Some(words) = words.strip_prefix("stored ") {
        (Way::Stored, words)
    } else {
        (Way::Once, words)
    }
}

// the command's own words, and the input, without its last line feed where the words say so
fn read_end<'a>(words: &'a str, input: &'a str) -> (&'a str, &'a str) {
    match words.strip_prefix("unended ") {
        Some(words) => (words, input.strip_suffix('\n').unwrap_or(input)),
        None => (words, input),
    }
}
