//! Audits a log file in which one line is left out, stands twice, is cut, or has one byte changed. The standard input is
//! a good log file. For each of its lines there is a case that leaves it out, one in which it stands twice, five in
//! which the text ends within it, and one for each of its bytes, which is made the next one. A line is printed for each
//! case: `line L` where L is the bad line, `hash` where the hash is another one, and else what the records sum to;
//! behind `hash` the same of the text with the hash that was found.
#![tactic(auto)]

mod answer;
mod edit;

use crate::answer::print_answer;
use crate::edit::{Edit, edited};
use std::alloc::Global;
use std::io::Read;

// Prints what comes of one case.
fn run_case<R: Print>(
    rt: &R,
    alloc: Global,
    lines: &[&[u8]],
    number: usize,
    edit: Edit,
) -> anyhow::Result<()> {
    let text = edited(alloc, lines, number, edit)?;
    print!(rt; "{} ", number.saturating_add(1))?;
    edit.print(rt)?;
    print_answer(rt, alloc, text.as_slice())
}

// Prints what comes of the cases of one line.
fn run_line<R: Print>(
    rt: &R,
    alloc: Global,
    lines: &[&[u8]],
    number: usize,
    length: usize,
) -> anyhow::Result<()> {
    run_case(rt, alloc, lines, number, Edit::LeftOut)?;
    run_case(rt, alloc, lines, number, Edit::Twice)?;
    for end in [0, 1, length / 2, length.saturating_sub(1), length] {
        run_case(rt, alloc, lines, number, Edit::Cut(end))?;
    }
    for place in 0..length.saturating_add(1) {
        run_case(rt, alloc, lines, number, Edit::Changed(place))?;
    }
    Ok(())
}

fn main(rt: HostRuntime) -> anyhow::Result<()> {
    let alloc = rt.alloc();
    let mut bytes = Vec::new(alloc);
    rt.stdin().read_to_end(&mut bytes)?;
    let mut lines = Vec::new(alloc);
    for line in bytes.split(|byte| *byte == b'\n') {
        if !line.is_empty() {
            lines.push(line)?;
        }
    }
    print!(&rt; "as it stands: ")?;
    print_answer(&rt, alloc, bytes.as_slice())?;
    for (number, line) in lines.iter().enumerate() {
        run_line(&rt, alloc, lines.as_slice(), number, line.len())?;
    }
    Ok(())
}
