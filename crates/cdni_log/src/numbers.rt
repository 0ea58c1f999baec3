//! What the numbers are that definitions take from the code: a constant that stands in both could be wrong in both.
//! The function does nothing: its contract gives the numbers.

ghost use Rattle.std.specs.Prelude.{◌≡◌};
ghost use Rattle.cdni_log.specs.declared.date.TheConstants.{LAST_MOMENT};
ghost use Rattle.cdni_log.specs.declared.line.TheConstants.{TAB};

/// The last moment that a line can show, which is the last millisecond of the year 9999, and the tab between two
/// fields (RFC 7937, section 3.2).
pub fn numbers_of_lines()
    ensures last_moment { LAST_MOMENT ≡ 253402300799999 }
    ensures tab { TAB ≡ 9 }
{}
