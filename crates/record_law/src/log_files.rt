//! The record has each delivery once, and each log file has its rows.

ghost use Rattle.history.specs.Event.{History};
ghost use Rattle.history.specs.World.{Made};
ghost use Rattle.record_law.specs.LogFiles.{KeepsRecord};

/// Each delivery that was finished has one row, and there is no other. The rows are those of the log files that were
/// cut, in order, and those that were written since. A log file has the rows since the one before it, at least one. It
/// is kept and read until it is dropped, and unknown from then on.
pub fn the_record_has_each_row_once()
    ensures { (made : Made) (h : History) → KeepsRecord made h }
{}
