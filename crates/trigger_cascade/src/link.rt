//! A link to further CDNs.

ghost use Rattle.std.specs.Prelude.{◌≡◌, ℕ, List, [], ◌∷◌, IfOk};
ghost use Rattle.std.specs.declared.option.Option.{Option};
ghost use Rattle.edge_base.specs.Clock.{Grows};
ghost use Rattle.trigger_cascade.specs.declared.link.LinkCall.{LinkCall};
ghost use Rattle.trigger_cascade.specs.Link.{is_failed_post, is_failed_poll, HasCause};

use crate::far::Far;
use listing::{Listing, Text};
use std::alloc::{AllocError, Global};
use targets::Target;

/// How a command was answered that was posted to a CDN.
#[derive(Drop)]
pub enum Posted {
    /// A trigger was created, whose status resource is at this place.
    Created { place: Text },
    /// The answer has another status than 201.
    Refused { status: u16 },
    /// No HTTP answer, or one with the status 201 and no Location.
    Malformed,
    /// The connection failed, and the link counted it.
    Failed,
    /// Want of memory.
    Memory,
}

/// How a question for a status resource was answered.
#[derive(Clone, Copy, Debug, PartialEq, Eq)]
pub enum Polled {
    /// The status of the trigger.
    Status(Far),
    /// An answer that shows no status.
    Unreadable,
    /// The connection failed, and the link counted it.
    Failed,
    /// Want of memory.
    Memory,
}

/// A list of answers to commands.
pub type PostedList = Listing<Posted>;

/// A list of answers to questions for status resources.
pub type PolledList = Listing<Polled>;

/// A call on a link, and its answer.
#[derive(Drop)]
pub enum LinkCall {
    /// This body was posted to this target.
    Post {
        to: Target,
        body: Text,
        answer: Posted,
    },
    /// The status resource at this place was asked for.
    Poll {
        place: Text,
        answer: Polled,
    },
}

impl Posted {
    // the same answer
    pub(crate) fn copy(&self) -> Result<Posted, AllocError>
        ensures { IfOk result (λ answer. answer ≡ self.now) }
    {
        Ok(match self {
            Posted::Created { place } => Posted::Created {
                place: place.clone()?,
            },
            Posted::Refused { status } => Posted::Refused { status: *status },
            Posted::Malformed => Posted::Malformed,
            Posted::Failed => Posted::Failed,
            Posted::Memory => Posted::Memory,
        })
    }

    // whether the connection failed
    pub(crate) fn is_failed(&self) -> bool
        ensures { result ≡ is_failed_post self.now }
    {
        matches!(self, Posted::Failed)
    }
}

impl Polled {
    // whether the connection failed
    pub(crate) fn is_failed(&self) -> bool
        ensures { result ≡ is_failed_poll self.now }
    {
        matches!(self, Polled::Failed)
    }
}

/// Asks further CDNs, one exchange a call.
///
/// Its calls may be told, as of a link in memory, or not, as of one over sockets. The count of faults never falls, and
/// rises with `Failed` alone.
pub trait Link: Drop {
    ghost calls: { Self → Option (List LinkCall) };

    ghost faults: { Self → ℕ };

    /// Posts a command to the CDN that takes commands at this target.
    fn post(&mut self, alloc: Global, to: &Target, body: &[u8]) -> Posted
        ensures told { Grows (calls self.old) (calls self.new) (LinkCall.Post to.now body.now result ∷ []) }
        ensures cause { HasCause (faults self.old) (faults self.new) (is_failed_post result) };

    /// Asks for the status resource at this place.
    fn poll(&mut self, alloc: Global, place: &[u8]) -> Polled
        ensures told { Grows (calls self.old) (calls self.new) (LinkCall.Poll place.now result ∷ []) }
        ensures cause { HasCause (faults self.old) (faults self.new) (is_failed_poll result) };
}
