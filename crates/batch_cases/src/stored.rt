//! What a node stores while it answers a script.

use crate::ended::Ended;
use anyhow::bail;
use cdni_base::Limits;
use edge_base::Status;
use node_core::Node;
use replay_script::{Stepped, answer_one, scripted_node};
use std::alloc::Global;

/// Answers a script, and puts before each answer how many calls the node stores after its line, and how many bytes of
/// bodies it holds.
pub fn run_stored(alloc: Global, script: &[u8]) -> anyhow::Result<Ended> {
    let mut node = scripted_node(alloc, &Limits::standard())?;
    Ok(Ended {
        status: Status::Done,
        output: answers(alloc, &mut node, script)?,
        notes: Vec::new(alloc),
    })
}

// the answers of the lines, each behind what is stored then
fn answers(alloc: Global, node: &mut Node, script: &[u8]) -> anyhow::Result<Vec<u8>> {
    let mut output = Vec::new(alloc);
    let mut first = true;
    for line in script.split(|byte| *byte == b'\n') {
        if !line.is_empty() {
            add_answer(alloc, node, first, line, &mut output)?;
            first = false;
        }
    }
    Ok(output)
}

// adds the answer of a line, behind what is stored then
fn add_answer(
    alloc: Global,
    node: &mut Node,
    first: bool,
    line: &[u8],
    output: &mut Vec<u8>,
) -> anyhow::Result<()> {
    let mut answer = Vec::new(alloc);
    match answer_one(alloc, node, first, 0, line, &mut answer) {
        Stepped::Answered => {}
        _ => bail!("a line was not answered"),
    }
    let counted = format!(in alloc; "{} {} ", node.stored(), node.held())?;
    output.extend_from_slice(counted.as_bytes())?;
    output.extend_from_slice(answer.as_slice())?;
    Ok(())
}
