//! The command that is to be passed on.

ghost use Rattle.std.specs.Prelude.{◌≡◌, [], OnOk, IfOk, Ok, Err};
ghost use Rattle.edge_base.specs.Causes.{Rose};
ghost use Rattle.http_wire.specs.Body.{ReadsToEnd};
ghost use Rattle.trigger_command.specs.Reading.{command_of};
ghost use Rattle.trigger_cascade.specs.Task.{note_line, task_in, task_of, control_host, HasReadCause, IsRefusal, IsTask};
ghost use Rattle.trigger_cascade.specs.Task.{ReadsTask};

use cdni_base::ProviderId;
use edge_base::Source;
use http_wire::{BodyRead, Inbox, read_to_end};
use listing::Text;
use std::alloc::{AllocError, Global};
use targets::HostName;
use trigger_command::{Act, Command, CommandFault, ProviderIdList, Spec};

/// The most bytes of an input.
const INPUT_MAX: u64 = 1_048_576;

/// What an input is.
#[derive(Drop)]
pub enum Task {
    /// A trigger command to be passed on, with the CDNs that it came through.
    PassOn { path: ProviderIdList, spec: Spec },
    /// None, with the note that says so.
    Stop { note: Text },
}

/// What reading an input gave.
#[derive(Drop)]
pub(crate) enum TaskRead {
    /// What it is.
    Task(Task),
    /// The input failed.
    ReadFault,
    /// Want of memory.
    Memory,
}

// reads an input
pub(crate) fn read_task<S: Source>(alloc: Global, own: &ProviderId, input: &mut S) -> TaskRead
    ensures task { ReadsTask own.now (S.left input.old) (S.left input.new) result }
    ensures cause { HasReadCause (S.faults input.old) (S.faults input.new) result }
{
    let Ok(mut inbox) = Inbox::new(alloc) else {
        return TaskRead::Memory;
    };
    match read_to_end(alloc, input, &mut inbox, INPUT_MAX) {
        BodyRead::Body(text) => read_or_memory(task_of(alloc, own, text.bytes())),
        BodyRead::TooLarge { len: _ } => read_or_memory(stop(alloc, b"too-long")),
        BodyRead::ReadFault => TaskRead::ReadFault,
        BodyRead::Memory => TaskRead::Memory,
        BodyRead::Coded | BodyRead::BadLength { .. } | BodyRead::CutShort { .. } => unreachable!(),
    }
}

fn read_or_memory(task: Result<Task, AllocError>) -> TaskRead
    ensures { IsTask task result }
{
    match task {
        Ok(task) => TaskRead::Task(task),
        Err(_) => TaskRead::Memory,
    }
}

// what an input within the limit is
fn task_of(alloc: Global, own: &ProviderId, text: &[u8]) -> Result<Task, AllocError>
    ensures { IfOk result (λ task. task ≡ task_of (command_of own.now control_host text.now)) }
{
    let control = HostName(Text::of(alloc, b"control.example")?);
    match Command::read(alloc, text, own, &control) {
        Ok(Command { path, act }) => match act {
            Act::Trigger(spec) => Ok(Task::PassOn { path, spec }),
            Act::Cancel(_) => stop(alloc, b"cancel"),
        },
        Err(fault) => refused(alloc, &fault),
    }
}

// an input that is refused for this fault, which may be want of memory
fn refused(alloc: Global, fault: &CommandFault) -> Result<Task, AllocError>
    ensures { IfOk result (λ task. IsRefusal fault.now task) }
{
    if matches!(fault, CommandFault::Memory) {
        return Err(AllocError);
    }
    let line = fault.text(alloc)?;
    stop(alloc, line.bytes())
}

// an input that is not passed on, with this line as its note
fn stop(alloc: Global, line: &[u8]) -> Result<Task, AllocError>
    ensures { IfOk result (λ task. task ≡ Task.Stop (note_line line.now)) }
{
    let mut note = Vec::from_slice(alloc, line)?;
    note.push(b'\n')?;
    Ok(Task::Stop {
        note: Text::from_vec(note),
    })
}
