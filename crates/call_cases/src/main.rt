//! Makes the calls that stand on the standard input, and prints each line with the answer that its call gave. A line is a
//! kind of call and its inputs, with ` | ` between them, and behind ` = ` the answer that is wanted, which is not looked
//! at. Empty lines and lines that begin with `#` are printed as they are. What `<` and `>` say in an input, `escape` tells.
#![tactic(auto)]

mod base;
mod escape;
mod fields;
mod json;
mod json_call;
mod keys;
mod metadata;
mod places;
mod rules;
mod tables;
mod urls;

use anyhow::bail;
use std::alloc::Global;
use std::io::Read;

// the answer of this call, by the module that has its kind
fn answer_of(alloc: Global, kind: &[u8], inputs: &[Vec<u8>]) -> anyhow::Result<String> {
    if let Some(answer) = base::answer(alloc, kind, inputs)? {
        return Ok(answer);
    }
    if let Some(answer) = urls::answer(alloc, kind, inputs)? {
        return Ok(answer);
    }
    if let Some(answer) = keys::answer(alloc, kind, inputs)? {
        return Ok(answer);
    }
    if let Some(answer) = places::answer(alloc, kind, inputs)? {
        return Ok(answer);
    }
    if let Some(answer) = documents_answer(alloc, kind, inputs)? {
        return Ok(answer);
    }
    bail!("a kind of call is unknown")
}

// the same of JSON texts and metadata
fn documents_answer(
    alloc: Global,
    kind: &[u8],
    inputs: &[Vec<u8>],
) -> anyhow::Result<Option<String>> {
    if let Some(answer) = rules::answer(alloc, kind, inputs)? {
        return Ok(Some(answer));
    }
    if let Some(answer) = json::answer(alloc, kind, inputs)? {
        return Ok(Some(answer));
    }
    if let Some(answer) = metadata::answer(alloc, kind, inputs)? {
        return Ok(Some(answer));
    }
    tables::answer(alloc, kind, inputs)
}

// makes the call of a text such as `address | ::1`
fn call(alloc: Global, text: &str) -> anyhow::Result<String> {
    let mut inputs = Vec::new(alloc);
    for input in text.split(" | ") {
        inputs.push(escape::read(alloc, input)?)?;
    }
    match inputs.as_slice().split_first() {
        Some((kind, inputs)) => answer_of(alloc, kind.as_slice(), inputs),
        None => bail!("a line has no call"),
    }
}

fn main(rt: HostRuntime) -> anyhow::Result<()> {
    let alloc = rt.alloc();
    let mut bytes = Vec::new(alloc);
    rt.stdin().read_to_end(&mut bytes)?;
    let text = String::from_utf8(bytes)?;
    for line in text.as_str().lines() {
        if line.is_empty() || line.starts_with('#') {
            println!(&rt; "{line}")?;
            continue;
        }
        let Some((text, _wanted)) = line.split_once(" = ") else {
            bail!("a line has no answer");
        };
        let answer = call(alloc, text)?;
        println!(&rt; "{text} = {}", answer.as_str())?;
    }
    Ok(())
}
