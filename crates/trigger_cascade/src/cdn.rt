//! A CDN that a command is to be passed on to.

ghost use Rattle.std.specs.Prelude.{◌≡◌};
ghost use Rattle.std.specs.Result.{result_ok};
ghost use Rattle.trigger_cascade.specs.Cdn.{after_poll, after_post};

use crate::far::Far;
use crate::link::{Polled, Posted};
use cdni_base::ProviderId;
use listing::Text;
use std::alloc::AllocError;
use targets::Target;

/// How a CDN stands to a command.
#[derive(Drop)]
pub enum Standing {
    /// The command is still to be posted to it.
    Waiting,
    /// The command came through it.
    Skipped,
    /// It took the command: where its status resource is, and which status came last, `Pending` where none did.
    Took { place: Text, last: Far },
    /// It refused the command with this status.
    Refused { status: u16 },
    /// What it answered to the command is no answer.
    Malformed,
    /// What it answered to a poll shows no status.
    Unreadable,
    /// A connection to it failed.
    Fault,
}

/// A CDN that a command is to be passed on to: its id, where it takes commands, and how it stands.
#[derive(Drop)]
pub struct Cdn {
    pub id: ProviderId,
    pub to: Target,
    pub standing: Standing,
}

// how a CDN stands after this answer to the command
pub(crate) fn after_post(answer: Posted) -> Result<Standing, AllocError>
    ensures { result_ok result ≡ after_post answer }
{
    match answer {
        Posted::Created { place } => Ok(Standing::Took {
            place,
            last: Far::Pending,
        }),
        Posted::Refused { status } => Ok(Standing::Refused { status }),
        Posted::Malformed => Ok(Standing::Malformed),
        Posted::Failed => Ok(Standing::Fault),
        Posted::Memory => Err(AllocError),
    }
}

// how a CDN stands whose status resource is at this place, after this answer to a poll
pub(crate) fn after_poll(place: Text, answer: Polled) -> Result<Standing, AllocError>
    ensures { result_ok result ≡ after_poll place answer }
{
    match answer {
        Polled::Status(last) => Ok(Standing::Took { place, last }),
        Polled::Unreadable => Ok(Standing::Unreadable),
        Polled::Failed => Ok(Standing::Fault),
        Polled::Memory => Err(AllocError),
    }
}
