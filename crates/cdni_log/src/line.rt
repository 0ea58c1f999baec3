//! Lines of a log file (RFC 7937, sections 3.2 and 3.3).

ghost use Rattle.std.specs.Prelude.{◌≡◌, ◌∷◌, ◌++◌, OnOk};
ghost use Rattle.cdni_log.specs.Line.{directive, line_end, quoted};

use std::alloc::AllocError;

// what stands between two fields
pub(crate) const TAB: u8 = 9;

// adds a directive
#[tactic(auto, unfolding(crate::specs::Line::directive))]
pub(crate) fn add_directive(out: &mut Vec<u8>, name: &[u8], value: &[u8]) -> Result<(), AllocError>
    ensures { OnOk result (out.new.items ≡ out.old.items ++ directive name.now value.now) }
{
    out.extend_from_slice(b"#")?;
    out.extend_from_slice(name)?;
    out.extend_from_slice(b":")?;
    add_field(out, value)?;
    end_line(out)
}

// adds a field behind a tab
pub(crate) fn add_field(out: &mut Vec<u8>, field: &[u8]) -> Result<(), AllocError>
    ensures { OnOk result (out.new.items ≡ out.old.items ++ TAB ∷ field.now) }
{
    out.extend_from_slice(&[TAB])?;
    out.extend_from_slice(field)
}

// ends the line
pub(crate) fn end_line(out: &mut Vec<u8>) -> Result<(), AllocError>
    ensures { OnOk result (out.new.items ≡ out.old.items ++ line_end) }
{
    out.extend_from_slice(b"\r\n")
}
