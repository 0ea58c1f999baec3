//! Inputs that repeat a text.

use crate::portions::number;
use anyhow::bail;
use std::alloc::Global;

/// This text, in which each `«3*text»` stands for `texttexttext`.
pub fn repeated(alloc: Global, text: &str) -> anyhow::Result<String> {
    let Some((front, parts)) = text.split_once('«') else {
        return Ok(String::from_str(alloc, text)?);
    };
    let mut whole = String::from_str(alloc, front)?;
    for part in parts.split('«') {
        push_repeated(alloc, &mut whole, part)?;
    }
    Ok(whole)
}

// adds what `3*text»rest` stands for
fn push_repeated(alloc: Global, whole: &mut String, part: &str) -> anyhow::Result<()> {
    let Some((repetition, rest)) = part.split_once('»') else {
        bail!("a repetition without its end");
    };
    let Some((count, piece)) = repetition.split_once('*') else {
        bail!("a repetition without its number");
    };
    let pieces = piece.repeat(alloc, number(count)? as usize)?;
    whole.push_str(pieces.as_str())?;
    whole.push_str(rest)?;
    Ok(())
}
