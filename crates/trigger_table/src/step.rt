//! The next step of a trigger.

use trigger_status::JobStatus;

/// What a pass would do with a trigger (RFC 8007, sections 2 and 4.3).
#[derive(Clone, Copy, Debug, PartialEq, Eq)]
pub enum Step {
    /// No trigger has this number.
    Unknown,
    /// It has ended before.
    Final(JobStatus),
    /// This other pass made it active.
    Claimed(u32),
    /// It waits for the fetch or the refresh of this number.
    StepOpen(u64),
    /// It becomes active.
    Start,
    /// It fetches its metadata.
    Refresh,
    /// It fetches the content URL at this place, counted from 0.
    Url(u32),
    /// It ends.
    End(JobStatus),
}
