//! Counts of faults.

ghost use Rattle.std.specs.Prelude.{◌≡◌};
ghost use Rattle.edge_base.specs.Causes.{next_count};

/// The last value of a count: from there on further faults are not told apart.
pub const MOST_FAULTS: u64 = u64::MAX;

// the count after one more fault
pub(crate) fn count_fault(faults: u64) -> u64
    ensures { result ≡ next_count faults }
{
    faults.saturating_add(1)
}
