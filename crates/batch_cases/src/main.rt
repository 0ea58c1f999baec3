//! Runs commands over streams in memory, and prints how each ended. A case on the standard input is a line `# ` and the
//! case's name, its words, how many bytes each read gives, each write takes and, where it says so, each write of a note
//! takes, with ` | ` between them, and the lines of its input. A portion of 0 is a failed read or write, and where no
//! portions are left all are whole.
//!
//! In an input `«3*text»` stands for `texttexttext`. The words may begin with
//! - `last 3 lines of `: no other lines of the output are printed;
//! - `in any cut `: they are run whole, by portions of one byte and by uneven ones, which are to give the same;
//! - `twice `: they are run twice and their outputs are summed up, which are to be the same;
//! - `stored `: the calls that are stored after each line of the script are counted, and the bytes that are held;
//! - `unended `: the input ends without its last line feed;
//!
//! in this order.
#![tactic(auto)]

mod case;
mod ended;
mod portions;
mod repeated;
mod run;
mod stored;

use crate::case::Case;
use crate::run::run_case;
use anyhow::Context;
use std::io::Read;

fn main(rt: HostRuntime) -> anyhow::Result<()> {
    let alloc = rt.alloc();
    let mut bytes = Vec::new(alloc);
    rt.stdin().read_to_end(&mut bytes)?;
    let text = String::from_utf8(bytes)?;
    for text in text.as_str().split("# ").skip(1) {
        let case = Case::read(alloc, text)?;
        let ended = run_case(alloc, &case).context(case.name)?;
        ended.print(&rt, alloc, case.name, case.lines)?;
    }
    Ok(())
}
