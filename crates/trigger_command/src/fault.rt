//! Why a trigger command is refused.

ghost use Rattle.std.specs.Prelude.{◌≡◌, ◌++◌, OnOk, codes, decimal};
ghost use Rattle.trigger_command.specs.Fault.{cause_text, fault_text};

use itoa::Buffer;
use json_read::{FieldCause, FieldFault, JsonFault};
use listing::Text;
use std::alloc::{AllocError, Global};

/// The first fault of a trigger command, in the order of reading.
#[derive(Drop)]
pub enum CommandFault {
    /// The text is no JSON text of at most 127 levels.
    NotJson,
    /// A field does not read.
    Field(FieldFault),
    /// The command came through this CDN before (RFC 8007, section 4.6).
    Loop,
    /// The trigger selects nothing.
    NoSelection,
    /// A preposition selects by patterns.
    PatternInPreposition,
    /// A preposition selects by ccids.
    CcidInPreposition,
    /// The trigger selects more than 1,000 items; `n` is their number, up to 2^64 - 1.
    TooMany { n: usize },
    /// This URL does not read, counted from 0 over all lists of URLs.
    BadUrl { index: usize },
    /// This pattern has more than 1,024 bytes, counted from 0 over all lists of patterns.
    BadPattern { index: usize },
    /// Want of memory.
    Memory,
}

impl From<AllocError> for CommandFault {
    ghost use Rattle.std.specs.Prelude.{◌≡◌};
    ghost use Rattle.trigger_command.specs.declared.fault.CommandFault.TheVariants as fault;

    ghost from_gives = { λ _ given. given ≡ fault.Memory };

    fn from(_error: AllocError) -> CommandFault {
        CommandFault::Memory
    }
}

impl From<JsonFault> for CommandFault {
    ghost use Rattle.std.specs.Prelude.{◌≡◌};
    ghost use Rattle.trigger_command.specs.Reading.{fault_of};

    ghost from_gives = { λ json_fault given. given ≡ fault_of json_fault };

    fn from(fault: JsonFault) -> CommandFault {
        match fault {
            JsonFault::Field(field) => CommandFault::Field(field),
            JsonFault::Memory => CommandFault::Memory,
        }
    }
}

impl CommandFault {
    ghost use Rattle.std.specs.Prelude.{◌≡◌, ◌≢◌, IfOk};
    ghost use Rattle.trigger_command.specs.Fault.{refusal_text};

    /// The line by which the command is refused, without its end: `refused`, and the fault in words.
    ///
    /// # Errors
    /// Want of memory.
    pub fn text(&self, alloc: Global) -> Result<Text, AllocError>
        requires { self.now ≢ CommandFault.Memory }
        ensures { IfOk result (λ text. text ≡ refusal_text self.now) }
    {
        let mut out = Vec::from_slice(alloc, b"refused ")?;
        add_fault(&mut out, self)?;
        Ok(Text::from_vec(out))
    }
}

// adds the fault in words
fn add_fault(out: &mut Vec<u8>, fault: &CommandFault) -> Result<(), AllocError>
    ensures { OnOk result (out.new.items ≡ out.old.items ++ fault_text fault.now) }
{
    match fault {
        CommandFault::NotJson => out.extend_from_slice(b"not-json"),
        CommandFault::Field(field) => add_field(out, field),
        CommandFault::Loop => out.extend_from_slice(b"loop"),
        CommandFault::NoSelection => out.extend_from_slice(b"no-selection"),
        CommandFault::PatternInPreposition => out.extend_from_slice(b"pattern-in-preposition"),
        CommandFault::CcidInPreposition => out.extend_from_slice(b"ccid-in-preposition"),
        CommandFault::TooMany { n } => add_number(out, b"too-many ", *n),
        CommandFault::BadUrl { index } => add_number(out, b"bad-url ", *index),
        CommandFault::BadPattern { index } => add_number(out, b"bad-pattern ", *index),
        CommandFault::Memory => Ok(()),
    }
}

fn add_field(out: &mut Vec<u8>, field: &FieldFault) -> Result<(), AllocError>
    ensures { OnOk result (out.new.items ≡ out.old.items ++
        (codes "field " ++ field.now.path ++ codes " " ++ cause_text field.now.cause)) }
{
    out.extend_from_slice(b"field ")?;
    out.extend_from_slice(field.path.bytes())?;
    out.extend_from_slice(b" ")?;
    out.extend_from_slice(cause_text(field.cause))
}

fn add_number(out: &mut Vec<u8>, word: &[u8], number: usize) -> Result<(), AllocError>
    ensures { OnOk result (out.new.items ≡ out.old.items ++ (word.now ++ decimal number)) }
{
    let mut digits = Buffer::new();
    out.extend_from_slice(word)?;
    out.extend_from_slice(digits.format(number).as_bytes())
}

fn cause_text(cause: FieldCause) -> &'static [u8]
    ensures { result.now ≡ cause_text cause }
{
    match cause {
        FieldCause::Missing => b"missing",
        FieldCause::WrongKind => b"wrong-kind",
        FieldCause::OutOfRange => b"out-of-range",
    }
}
