//! Texts, lists, numbers, endpoints, names of types, dates, provider ids and bodies.

use crate::{escape, fields};
use anyhow::bail;
use cdni_base::{Body, DATE_END, Endpoint, Limits, ProviderId, Scratch, TypeName, put_date};
use listing::{Listing, Text, cut_at, read_decimal, read_digits};
use std::alloc::{AllocError, Global};

/// The answer, where the call is of a kind of this module.
pub fn answer(alloc: Global, kind: &[u8], inputs: &[Vec<u8>]) -> anyhow::Result<Option<String>> {
    Ok(Some(match kind {
        b"is" => is(alloc, inputs)?,
        b"bytes" => bytes(alloc, inputs)?,
        b"list" => list(alloc, inputs)?,
        b"decimal" => number_text(alloc, read_decimal(fields::one(inputs)?))?,
        b"digits" => number_text(alloc, read_digits(fields::one(inputs)?))?,
        b"cut" => cut(alloc, inputs)?,
        b"endpoint" => endpoint(alloc, fields::one(inputs)?)?,
        b"endpoint-fault" => endpoint_fault(alloc, fields::one(inputs)?)?,
        _ => return further_answer(alloc, kind, inputs),
    }))
}

// the same of names, dates, ids, bodies and limits
fn further_answer(
    alloc: Global,
    kind: &[u8],
    inputs: &[Vec<u8>],
) -> anyhow::Result<Option<String>> {
    Ok(Some(match kind {
        b"type" => type_name(alloc, TypeName::of(alloc, fields::one(inputs)?)?)?,
        b"lowered" => type_name(alloc, TypeName::lowered(alloc, fields::one(inputs)?)?)?,
        b"date" => date(alloc, fields::one(inputs)?)?,
        b"provider" => provider(alloc, fields::one(inputs)?)?,
        b"body" => body(alloc, fields::one(inputs)?)?,
        b"standard-period" => number_text(alloc, Some(Limits::standard().period))?,
        _ => return Ok(None),
    }))
}

// whether a text is the other input
fn is(alloc: Global, inputs: &[Vec<u8>]) -> anyhow::Result<String> {
    let (text, other) = fields::two(inputs)?;
    let text = Text::of(alloc, text)?;
    Ok(fields::flag(alloc, text.is(other))?)
}

// the bytes of a text that is made of a Vec
fn bytes(alloc: Global, inputs: &[Vec<u8>]) -> anyhow::Result<String> {
    let bytes = Vec::from_slice(alloc, fields::one(inputs)?)?;
    Ok(escape::shown(alloc, Text::from_vec(bytes).bytes())?)
}

// how long a list of the inputs is, its items, and what is popped of it until nothing is
fn list(alloc: Global, inputs: &[Vec<u8>]) -> anyhow::Result<String> {
    let mut list = Listing::new(alloc);
    for input in inputs {
        let text = Text::of(alloc, input.as_slice())?;
        list.push(text.clone()?)?;
    }
    let mut out = format!(in alloc; "{} and {}:", list.len(), list.as_slice().len())?;
    for place in 0..list.len() {
        out.push_str(" ")?;
        escape::add(&mut out, list.at(place).bytes())?;
    }
    out.push_str(", popped")?;
    for _ in 0..=inputs.len() {
        add_popped(&mut out, &mut list)?;
    }
    Ok(out)
}

// adds what is popped of the list
fn add_popped(out: &mut String, list: &mut Listing<Text>) -> Result<(), AllocError> {
    out.push_str(" ")?;
    match list.pop() {
        Some(text) => escape::add(out, text.bytes()),
        None => out.push_str("none"),
    }
}

fn number_text(alloc: Global, number: Option<u64>) -> Result<String, AllocError> {
    match number {
        Some(number) => format!(in alloc; "{number}"),
        None => fields::none(alloc),
    }
}

// what stands before the byte, and behind it
fn cut(alloc: Global, inputs: &[Vec<u8>]) -> anyhow::Result<String> {
    let (byte, text) = fields::two(inputs)?;
    let [byte] = byte else {
        bail!("a text is cut at one byte");
    };
    let Some((before, behind)) = cut_at(*byte, text) else {
        return Ok(fields::none(alloc)?);
    };
    let mut out = escape::shown(alloc, before)?;
    out.push_str(" and ")?;
    escape::add(&mut out, behind)?;
    Ok(out)
}

/// The host and the port, or why the text is no endpoint.
fn endpoint(alloc: Global, text: &[u8]) -> Result<String, AllocError> {
    match Endpoint::read(alloc, text) {
        Ok(endpoint) => endpoint_text(alloc, &endpoint),
        Err(fault) => format!(in alloc; "{fault:?}"),
    }
}

/// The host of an endpoint, and its port.
pub fn endpoint_text(alloc: Global, endpoint: &Endpoint) -> Result<String, AllocError> {
    let mut out = escape::shown(alloc, endpoint.host.0.bytes())?;
    match endpoint.port {
        Some(port) => write!(out, " port {port}")?,
        None => out.push_str(" without port")?,
    }
    Ok(out)
}

// why a text is no endpoint
fn endpoint_fault(alloc: Global, text: &[u8]) -> Result<String, AllocError> {
    match Endpoint::read(alloc, text) {
        Ok(_endpoint) => fields::none(alloc),
        Err(fault) => format!(in alloc; "{fault:?}"),
    }
}

// the name in quotes, where there is one
fn type_name(alloc: Global, name: Option<TypeName>) -> Result<String, AllocError> {
    let Some(name) = name else {
        return fields::none(alloc);
    };
    let mut out = String::from_str(alloc, "\"")?;
    escape::add(&mut out, name.bytes())?;
    out.push_str("\"")?;
    Ok(out)
}

// whether a scratch of 40 bytes has room for the date of a moment, whether it has room for it again, and what it holds
fn date(alloc: Global, moment: &[u8]) -> anyhow::Result<String> {
    let moment = fields::number(moment)?;
    if moment >= DATE_END {
        bail!("a year has four digits");
    }
    let mut scratch = Scratch::new(alloc, 40)?;
    let once = put_date(&mut scratch, moment);
    let twice = put_date(&mut scratch, moment);
    let mut out = format!(in alloc; "{once} {twice} ")?;
    escape::add(&mut out, scratch.bytes())?;
    Ok(out)
}

// the id as it is kept, or why the text is none
fn provider(alloc: Global, text: &[u8]) -> Result<String, AllocError> {
    match ProviderId::read(alloc, text) {
        Ok(id) => escape::shown(alloc, id.0.bytes()),
        Err(fault) => format!(in alloc; "{fault:?}"),
    }
}

// the bytes of a body, and those of a share of it
fn body(alloc: Global, bytes: &[u8]) -> Result<String, AllocError> {
    let body = Body::of(alloc, bytes)?;
    let share = body.share(alloc)?;
    let mut out = escape::shown(alloc, body.bytes())?;
    out.push_str(" and ")?;
    escape::add(&mut out, share.bytes())?;
    Ok(out)
}
