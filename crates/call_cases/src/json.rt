//! JSON texts and the fields of their values, by both readers.

use crate::json_call::{Call, Name, at_item, at_member, called};
use crate::{escape, fields};
use anyhow::bail;
use json_read::{
    JsonFault, JsonPath, JsonScratch, JsonValue, is_borrowed_json, is_json, parse, parse_borrowed,
    readers_agree,
};
use std::alloc::{AllocError, Global};

/// The answer, where the call is of a kind of this module.
pub fn answer(alloc: Global, kind: &[u8], inputs: &[Vec<u8>]) -> anyhow::Result<Option<String>> {
    Ok(Some(match kind {
        b"json" => json(alloc, fields::one(inputs)?)?,
        b"field" => field(alloc, inputs)?,
        _ => return Ok(None),
    }))
}

// whether each reader takes the text, and whether both do the same
fn json(alloc: Global, text: &[u8]) -> Result<String, AllocError> {
    let is = is_json(alloc, text)?;
    let is_borrowed = is_borrowed_json(alloc, text)?;
    let agree = readers_agree(alloc, text)?;
    format!(in alloc; "{is} and {is_borrowed}, agree {agree}")
}

// what the values of both readers answer to a call at a place of the text
fn field(alloc: Global, inputs: &[Vec<u8>]) -> anyhow::Result<String> {
    let (text, steps) = fields::first(inputs)?;
    let Ok(value) = parse(alloc, text) else {
        bail!("an input is no JSON text");
    };
    let mut answer = field_of(alloc, &value, steps)?;
    answer.push_str(" and ")?;
    let mut scratch = JsonScratch::new(alloc);
    let Ok(value) = parse_borrowed(alloc, text, &mut scratch) else {
        bail!("an input is no JSON text");
    };
    answer.push_str(field_of(alloc, &value, steps)?.as_str())?;
    Ok(answer)
}

// what a value answers to a call at its root, at a member, or at an item of a member
fn field_of<V: JsonValue>(alloc: Global, root: &V, steps: &[Vec<u8>]) -> anyhow::Result<String> {
    let found = match steps {
        [call] => called(
            alloc,
            root,
            &JsonPath::root(alloc),
            Call::read(call.as_slice())?,
        ),
        [name, call] => {
            let name = Name::read(name.as_slice())?;
            at_member(alloc, root, name, Call::read(call.as_slice())?)
        }
        [name, item, call] => {
            let name = Name::read(name.as_slice())?;
            let item = fields::size(item.as_slice())?;
            at_item(alloc, root, name, item, Call::read(call.as_slice())?)
        }
        _ => bail!("a place has at most two steps"),
    };
    Ok(found_or_fault(alloc, found)?)
}

// what was found, or the place and the cause of the fault
fn found_or_fault(alloc: Global, found: Result<String, JsonFault>) -> Result<String, AllocError> {
    match found {
        Ok(text) => Ok(text),
        Err(JsonFault::Field(fault)) => {
            let mut out = format!(in alloc; "{:?} at ", fault.cause)?;
            escape::add(&mut out, fault.path.bytes())?;
            Ok(out)
        }
        Err(JsonFault::Memory) => Err(AllocError),
    }
}
