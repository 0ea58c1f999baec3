//! One line of a text that is changed.

use std::alloc::{AllocError, Global};

/// What is done with the line.
#[derive(Clone, Copy, Drop)]
pub enum Edit {
    LeftOut,
    Twice,
    /// So many of its bytes stand, and there the text ends.
    Cut(usize),
    /// The byte at this place, counted from 0, is the next one; behind the line's last byte stands its LF.
    Changed(usize),
}

impl Edit {
    /// Prints what is done.
    pub fn print<R: Print>(&self, rt: &R) -> anyhow::Result<()> {
        match self {
            Edit::LeftOut => print!(rt; "left out: ")?,
            Edit::Twice => print!(rt; "twice: ")?,
            Edit::Cut(end) => print!(rt; "cut at {end}: ")?,
            Edit::Changed(place) => print!(rt; "changed at {place}: ")?,
        }
        Ok(())
    }
}

/// The text of these lines, each without its LF, in which this is done with the line of this number, counted from 0.
pub fn edited(
    alloc: Global,
    lines: &[&[u8]],
    number: usize,
    edit: Edit,
) -> Result<Vec<u8>, AllocError> {
    let mut out = Vec::new(alloc);
    for (at, line) in lines.iter().enumerate() {
        if at != number {
            add_line(&mut out, line)?;
            continue;
        }
        match edit {
            Edit::LeftOut => {}
            Edit::Twice => {
                add_line(&mut out, line)?;
                add_line(&mut out, line)?;
            }
            Edit::Cut(end) => {
                out.extend_from_slice(&line[..end.min(line.len())])?;
                return Ok(out);
            }
            Edit::Changed(place) => add_changed(&mut out, line, place)?,
        }
    }
    Ok(out)
}

// Adds a line with its LF.
fn add_line(out: &mut Vec<u8>, line: &[u8]) -> Result<(), AllocError> {
    out.extend_from_slice(line)?;
    out.extend_from_slice(b"\n")
}

// Adds a line with its LF, of which one byte is the next one.
fn add_changed(out: &mut Vec<u8>, line: &[u8], place: usize) -> Result<(), AllocError> {
    for (at, byte) in line.iter().chain(b"\n").enumerate() {
        let added = if at == place {
            byte.wrapping_add(1)
        } else {
            *byte
        };
        out.push(added)?;
    }
    Ok(())
}
