//! Rules that forbid a delivery, their texts, and scratches.

use crate::{escape, fields};
use anyhow::bail;
use cdni_base::{Rule, Scratch, TypeName};
use listing::cut_at;
use std::alloc::{AllocError, Global};

/// The answer, where the call is of a kind of this module.
pub fn answer(alloc: Global, kind: &[u8], inputs: &[Vec<u8>]) -> anyhow::Result<Option<String>> {
    Ok(Some(match kind {
        b"status" => status(alloc, fields::one(inputs)?)?,
        b"rule" => rule_text(alloc, fields::one(inputs)?)?,
        b"scratch" => scratch(alloc, inputs)?,
        _ => return Ok(None),
    }))
}

// the rule of a word alone
fn plain_rule(word: &[u8]) -> anyhow::Result<Rule> {
    match word {
        b"method" => Ok(Rule::Method),
        b"no-metadata" => Ok(Rule::NoMetadata),
        b"no-host" => Ok(Rule::NoHost),
        b"no-source" => Ok(Rule::NoSource),
        _ => bail!("no rule has this word"),
    }
}

// the rule of a word and what follows it
fn detailed_rule(alloc: Global, word: &[u8], detail: &[u8]) -> anyhow::Result<Rule> {
    match word {
        b"metadata-invalid" => Ok(Rule::MetadataInvalid {
            trigger: fields::number(detail)?,
        }),
        b"unenforceable" => match TypeName::of(alloc, detail)? {
            Some(kind) => Ok(Rule::Unenforceable { kind }),
            None => bail!("a type is too long"),
        },
        b"location" => Ok(Rule::Location {
            rule: place_of(detail)?,
        }),
        b"time" => Ok(Rule::Time {
            rule: place_of(detail)?,
        }),
        b"protocol" => Ok(Rule::Protocol {
            rule: place_of(detail)?,
        }),
        _ => bail!("no rule has this word"),
    }
}

// which rule of a list it is, if it is one
fn place_of(text: &[u8]) -> anyhow::Result<Option<u32>> {
    if text == b"-".as_slice() {
        return Ok(None);
    }
    match u32::try_from(fields::number(text)?) {
        Ok(place) => Ok(Some(place)),
        Err(_) => bail!("a place is too large"),
    }
}

fn rule_of(alloc: Global, text: &[u8]) -> anyhow::Result<Rule> {
    match cut_at(b' ', text) {
        Some((word, detail)) => detailed_rule(alloc, word, detail),
        None => plain_rule(text),
    }
}

// the status of a denial by this rule
fn status(alloc: Global, text: &[u8]) -> anyhow::Result<String> {
    let status = rule_of(alloc, text)?.status();
    Ok(format!(in alloc; "{status}")?)
}

// the rule's text in a scratch of 24 bytes, or what the scratch holds where there is no room
fn rule_text(alloc: Global, text: &[u8]) -> anyhow::Result<String> {
    let rule = rule_of(alloc, text)?;
    let mut scratch = Scratch::new(alloc, 24)?;
    if rule.put(&mut scratch) {
        return Ok(escape::shown(alloc, scratch.bytes())?);
    }
    let held = scratch.bytes().len();
    Ok(format!(in alloc; "no room, {held} bytes held")?)
}

// makes the steps on a scratch with so much room: after each, whether it fitted, and what is held
fn scratch(alloc: Global, inputs: &[Vec<u8>]) -> anyhow::Result<String> {
    let (room, steps) = fields::first(inputs)?;
    let mut scratch = Scratch::new(alloc, fields::size(room)?)?;
    let mut out = String::new(alloc);
    for step in steps {
        let fits = make_step(&mut scratch, step.as_slice())?;
        add_held(&mut out, fits, scratch.bytes())?;
    }
    Ok(out)
}

fn add_held(out: &mut String, fits: bool, held: &[u8]) -> Result<(), AllocError> {
    if !out.is_empty() {
        out.push_str(", ")?;
    }
    out.push_str(if fits { "[" } else { "no room [" })?;
    escape::add(out, held)?;
    out.push_str("]")
}

// makes a step such as `add abc`; whether it fits
fn make_step(scratch: &mut Scratch, step: &[u8]) -> anyhow::Result<bool> {
    let Some((word, detail)) = cut_at(b' ', step) else {
        return clear(scratch, step);
    };
    match word {
        b"add" => Ok(scratch.append(detail)),
        b"number" => Ok(scratch.append_number(fields::number(detail)?)),
        b"two" => match cut_at(b' ', detail) {
            Some((first, second)) => Ok(scratch.append_two(first, second)),
            None => bail!("two texts are added"),
        },
        b"keep" => keep(scratch, detail),
        _ => bail!("a step is unknown"),
    }
}

fn clear(scratch: &mut Scratch, step: &[u8]) -> anyhow::Result<bool> {
    if step != b"clear".as_slice() {
        bail!("a step is unknown");
    }
    scratch.clear();
    Ok(true)
}

fn keep(scratch: &mut Scratch, length: &[u8]) -> anyhow::Result<bool> {
    scratch.truncate(fields::size(length)?);
    Ok(true)
}
