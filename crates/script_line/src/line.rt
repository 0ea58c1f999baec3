//! What the lines of a script say.

use cdni_base::Limits;
use history::Call;
use metadata_objects::MetaFault;
use std::alloc::AllocError;
use targets::TargetFault;
use trigger_command::CommandFault;

/// A line of a script.
#[derive(Drop)]
pub enum ScriptLine {
    /// The limits of the node.
    Limits(Limits),
    /// The pass that calls, its call, and why the metadata that it would bring did not read.
    Call {
        pass: u32,
        call: Call,
        note: Option<MetaFault>,
    },
    /// A trigger command that is refused, and why. It is no call.
    Refused(CommandFault),
}

/// Why no line was read.
#[derive(Clone, Copy, Debug, PartialEq, Eq)]
pub enum ScriptFault {
    /// It is no script line.
    NotALine,
    /// Want of memory.
    Memory,
}

impl From<AllocError> for ScriptFault {
    ghost use Rattle.std.specs.Prelude.{◌≡◌};
    ghost use Rattle.script_line.specs.declared.line.ScriptFault.TheVariants as fault;

    ghost from_gives = { λ _ given. given ≡ fault.Memory };

    fn from(_error: AllocError) -> ScriptFault {
        ScriptFault::Memory
    }
}

impl From<TargetFault> for ScriptFault {
    ghost use Rattle.std.specs.Prelude.{◌≡◌};
    ghost use Rattle.script_line.specs.Fault.{fault_of};

    ghost from_gives = { λ wrong given. given ≡ fault_of wrong };

    fn from(fault: TargetFault) -> ScriptFault {
        match fault {
            TargetFault::Memory => ScriptFault::Memory,
            _ => ScriptFault::NotALine,
        }
    }
}
