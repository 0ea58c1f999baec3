//! The joined status.

ghost use Rattle.std.specs.Prelude.{◌≡◌, ◌++◌, IfOk, OnOk};
ghost use Rattle.std.specs.List.{list_any};
ghost use Rattle.trigger_cascade.specs.Report.{is_bad, is_open, joined_name, line_of, lines_of, report, standing_text};

use crate::cdn::{Cdn, Standing};
use crate::far::Far;
use itoa::Buffer;
use std::alloc::{AllocError, Global};

// the joined status of these CDNs: a line for each, and one for all
pub(crate) fn report(alloc: Global, cdns: &[Cdn]) -> Result<Vec<u8>, AllocError>
    ensures { IfOk result (λ text. text.items ≡ report cdns.now) }
{
    let mut out = Vec::new(alloc);
    add_lines(&mut out, cdns)?;
    out.extend_from_slice(b"joined ")?;
    out.extend_from_slice(joined_name(cdns))?;
    out.extend_from_slice(b"\n")?;
    Ok(out)
}

fn add_lines(out: &mut Vec<u8>, cdns: &[Cdn]) -> Result<(), AllocError>
    ensures { OnOk result (out.new.items ≡ out.old.items ++ lines_of cdns.now) }
{
    'cdns: for i in 0..cdns.len() {
        add_line(out, &cdns[i])?;
    }
    Ok(())
}

// adds the line of a CDN
fn add_line(out: &mut Vec<u8>, cdn: &Cdn) -> Result<(), AllocError>
    ensures { OnOk result (out.new.items ≡ out.old.items ++ line_of cdn.now) }
{
    out.extend_from_slice(cdn.id.0.bytes())?;
    out.extend_from_slice(b" ")?;
    add_standing(out, &cdn.standing)?;
    out.extend_from_slice(b"\n")
}

fn add_standing(out: &mut Vec<u8>, standing: &Standing) -> Result<(), AllocError>
    ensures { OnOk result (out.new.items ≡ out.old.items ++ standing_text standing.now) }
{
    match standing {
        Standing::Waiting => out.extend_from_slice(b"waiting"),
        Standing::Skipped => out.extend_from_slice(b"skipped"),
        Standing::Took { place: _, last } => out.extend_from_slice(last.name()),
        Standing::Refused { status } => {
            let mut digits = Buffer::new();
            out.extend_from_slice(b"refused ")?;
            out.extend_from_slice(digits.format(*status).as_bytes())
        }
        Standing::Malformed => out.extend_from_slice(b"malformed"),
        Standing::Unreadable => out.extend_from_slice(b"unreadable"),
        Standing::Fault => out.extend_from_slice(b"fault"),
    }
}

// the status of all
fn joined_name(cdns: &[Cdn]) -> &'static [u8]
    ensures { result.now ≡ joined_name cdns.now }
{
    if is_any_bad(cdns) {
        b"failed"
    } else if is_any_open(cdns) {
        b"active"
    } else {
        b"complete"
    }
}

fn is_any_bad(cdns: &[Cdn]) -> bool
    ensures { result ≡ list_any (λ cdn. is_bad cdn.standing) cdns.now }
{
    cdns.iter().any(|cdn| is_bad(&cdn.standing))
}

fn is_any_open(cdns: &[Cdn]) -> bool
    ensures { result ≡ list_any (λ cdn. is_open cdn.standing) cdns.now }
{
    cdns.iter().any(|cdn| is_open(&cdn.standing))
}

// whether a CDN is neither skipped nor pending, active, cancelling, complete or processed
fn is_bad(standing: &Standing) -> bool
    ensures { result ≡ is_bad standing.now }
{
    match standing {
        Standing::Skipped => false,
        Standing::Took { place: _, last } => matches!(*last, Far::Failed | Far::Cancelled),
        _ => true,
    }
}

// whether a CDN is pending, active or cancelling
fn is_open(standing: &Standing) -> bool
    ensures { result ≡ is_open standing.now }
{
    match standing {
        Standing::Took { place: _, last } => !last.is_final(),
        _ => false,
    }
}
