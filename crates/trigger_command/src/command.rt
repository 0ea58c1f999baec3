//! A command of an upstream CDN.

ghost use Rattle.trigger_command.specs.Reading.{command_of, Gives};

use crate::fault::CommandFault;
use crate::reading::read_command;
use crate::spec::Spec;
use cdni_base::ProviderId;
use listing::Listing;
use std::alloc::Global;
use targets::HostName;

/// A list of numbers of triggers.
pub type IdList = Listing<u64>;

/// A list of provider ids.
pub type ProviderIdList = Listing<ProviderId>;

/// What is commanded.
#[derive(Drop)]
pub enum Act {
    /// A new trigger.
    Trigger(Spec),
    /// The end of the triggers of these numbers.
    Cancel(IdList),
}

/// A trigger command (RFC 8007, section 5.1.1), and the CDNs that it came through, the first one first.
#[derive(Drop)]
pub struct Command {
    pub path: ProviderIdList,
    pub act: Act,
}

impl Command {
    /// Reads the command of a JSON text (RFC 8007, section 5.1.1). `own` is the id of this CDN, and `control` the host
    /// at which its triggers have their status resources.
    ///
    /// # Errors
    /// The first fault in the order of reading, or want of memory. The order is: the text is JSON; its fields,
    /// `cdn-path` first, then exactly one of `trigger` and `cancel`, and of a trigger its type and its lists; then
    /// `Loop`; then, of a trigger, the faults in the order of `CommandFault`; and of a cancel `BadUrl`.
    pub fn read(
        alloc: Global,
        bytes: &[u8],
        own: &ProviderId,
        control: &HostName,
    ) -> Result<Command, CommandFault>
        ensures { Gives (λ command. command) result (command_of own.now control.now bytes.now) }
    {
        read_command(alloc, bytes, own, control)
    }
}
