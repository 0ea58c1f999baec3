//! Triggers and where they stand.

ghost use Rattle.std.specs.Prelude.{◌≡◌, ◌<◌, [], ◌∷◌, ◌++◌, length, IfOk};
ghost use Rattle.trigger_command.specs.declared.spec.TheConstants.{SELECTION_MAX};

use listing::{Listing, Moment};
use std::alloc::{AllocError, Global};
use std::marker::Model;
use trigger_command::{SELECTION_MAX, Spec};

/// The status of a trigger (RFC 8007, section 5.2.3).
#[derive(Clone, Copy, Debug, PartialEq, Eq)]
pub enum JobStatus {
    /// It has not started.
    Pending,
    /// It has started.
    Active,
    /// It ended, and all was done.
    Complete,
    /// It ended, and something could not be done.
    Failed,
    /// It was cancelled after it had started, and has not ended.
    Cancelling,
    /// It was cancelled.
    Cancelled,
}

/// Which triggers a collection lists (RFC 8007, section 4.2.1).
#[derive(Clone, Copy, Debug, PartialEq, Eq)]
pub enum Filter {
    /// All of them.
    All,
    /// Those that are pending.
    Pending,
    /// Those that are active or cancelling.
    Active,
    /// Those that are complete.
    Complete,
    /// Those that failed or were cancelled.
    Failed,
}

/// A list of statuses.
pub type JobStatusList = Listing<JobStatus>;

/// Places in a list of at most 1,000 items, counted from 0. It is seen as the list of them. It is made with memory for
/// 1,000 places, so that one is added without.
#[derive(Drop)]
pub struct IndexList {
    items: Vec<u32>,
}

impl Model for IndexList {
    ghost use Rattle.std.specs.Prelude.{ℕ, List, ◌≤◌};
    ghost use Rattle.std.specs.Vec.{vec_capacity};
    ghost use Rattle.trigger_command.specs.declared.spec.TheConstants.{SELECTION_MAX};

    ghost Value = { List ℕ };

    ghost view = { λ l. l.items.items };

    ghost invariant = { λ l. SELECTION_MAX ≤ vec_capacity l.items };
}

impl IndexList {
    /// No places, and memory for 1,000.
    ///
    /// # Errors
    /// Want of memory.
    pub fn new(alloc: Global) -> Result<IndexList, AllocError>
        ensures { IfOk result (λ list. list ≡ []) }
    {
        Ok(IndexList {
            items: Vec::with_capacity(alloc, SELECTION_MAX)?,
        })
    }

    /// How many places there are.
    pub fn len(&self) -> usize
        ensures { result ≡ length self.now }
    {
        self.items.len()
    }

    /// The places, in order.
    pub fn as_slice(&self) -> &[u32]
        ensures { result.now ≡ self.now }
    {
        &self.items
    }

    /// Adds a place at the end. It takes no memory.
    pub fn push_reserved(&mut self, place: u32)
        requires { length self.old < SELECTION_MAX }
        ensures { self.new ≡ self.old ++ place ∷ [] }
    {
        self.items.push_reserved(place);
    }
}

impl Clone for IndexList {
    ghost is_clone = { λ list copy. copy ≡ list };

    fn clone(&self) -> Result<IndexList, AllocError> {
        let mut items = Vec::with_capacity(*self.items.allocator(), SELECTION_MAX)?;
        items.extend_from_slice(&self.items)?;
        Ok(IndexList { items })
    }
}

/// A trigger as its status resource shows it (RFC 8007, section 5.1.2).
#[derive(Clone, Drop)]
pub struct Job {
    /// Its number.
    pub id: u64,
    /// What it does, and to what.
    pub spec: Spec,
    pub status: JobStatus,
    /// When it was made, in milliseconds since 1970 UTC.
    pub ctime: Moment,
    /// When its status last changed, in milliseconds since 1970 UTC.
    pub mtime: Moment,
    /// Whether its metadata could not be fetched.
    pub emeta: bool,
    /// Which of its content URLs could not be fetched.
    pub econtent: IndexList,
}
