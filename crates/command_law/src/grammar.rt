//! What is read of the text of a command is what it writes, and a command that is refused has the fault that is told.

ghost use Rattle.std.specs.Prelude.{◌≡◌, ◌↔◌, ℕ, List, Ok, Err};
ghost use Rattle.cdni_base.specs.declared.provider.ProviderId.{ProviderId};
ghost use Rattle.command_law.specs.Grammar.{IsCommand};
ghost use Rattle.command_law.specs.Faults.{IsFirstFault};
ghost use Rattle.trigger_command.specs.Reading.{command_of};
ghost use Rattle.trigger_command.specs.declared.command.Command.{Command};
ghost use Rattle.trigger_command.specs.declared.fault.CommandFault.{CommandFault};

/// A text is read as a command exactly where it writes that command in the words of the grammar.
pub fn what_is_read_is_what_is_written()
    ensures { (own : ProviderId) (control text : List ℕ) (command : Command)
        → (command_of own control text ≡ Ok command) ↔ IsCommand own control text command }
{}

/// A text is refused with a fault exactly where that fault is the first one, in the order of reading.
pub fn what_is_refused_has_the_first_fault()
    ensures { (own : ProviderId) (control text : List ℕ) (fault : CommandFault)
        → (command_of own control text ≡ Err fault) ↔ IsFirstFault own control text fault }
{}
