//! The inputs of a call, and answers that several kinds of calls have.

use anyhow::bail;
use listing::read_decimal;
use std::alloc::{AllocError, Global};

/// The only input.
pub fn one(inputs: &[Vec<u8>]) -> anyhow::Result<&[u8]> {
    match inputs {
        [input] => Ok(input.as_slice()),
        _ => bail!("a call of this kind has one input"),
    }
}

/// Both inputs.
pub fn two(inputs: &[Vec<u8>]) -> anyhow::Result<(&[u8], &[u8])> {
    match inputs {
        [first, second] => Ok((first.as_slice(), second.as_slice())),
        _ => bail!("a call of this kind has two inputs"),
    }
}

/// All three inputs.
pub fn three(inputs: &[Vec<u8>]) -> anyhow::Result<(&[u8], &[u8], &[u8])> {
    match inputs {
        [first, second, third] => Ok((first.as_slice(), second.as_slice(), third.as_slice())),
        _ => bail!("a call of this kind has three inputs"),
    }
}

/// The first input, and the others.
pub fn first(inputs: &[Vec<u8>]) -> anyhow::Result<(&[u8], &[Vec<u8>])> {
    match inputs.split_first() {
        Some((input, others)) => Ok((input.as_slice(), others)),
        None => bail!("a call of this kind has inputs"),
    }
}

/// A decimal number.
pub fn number(text: &[u8]) -> anyhow::Result<u64> {
    match read_decimal(text) {
        Some(number) => Ok(number),
        None => bail!("an input is no number"),
    }
}

/// `true` or `false`.
pub fn flag(alloc: Global, flag: bool) -> Result<String, AllocError> {
    String::from_str(alloc, if flag { "true" } else { "false" })
}

/// `none`.
pub fn none(alloc: Global) -> Result<String, AllocError> {
    String::from_str(alloc, "none")
}

/// A decimal number that a length may be.
pub fn size(text: &[u8]) -> anyhow::Result<usize> {
    match usize::try_from(number(text)?) {
        Ok(size) => Ok(size),
        Err(_) => bail!("a number is too large"),
    }
}

/// Whether the word is the second of these, and not the first.
pub fn is_second(word: &[u8], first: &[u8], second: &[u8]) -> anyhow::Result<bool> {
    if word == second {
        return Ok(true);
    }
    if word != first {
        bail!("an input is neither word");
    }
    Ok(false)
}
