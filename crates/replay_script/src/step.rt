//! One line of a script.

ghost use Rattle.std.specs.Prelude.{◌≡◌, ◌≢◌, ◌+◌, [], IfOk, option_map};
ghost use Rattle.history.specs.Event.{event_of};
ghost use Rattle.node_core.specs.Node.{Stands};
ghost use Rattle.replay_script.specs.Script.{fits, made_with, Answers, AnswersRefusal, SetsLimits, StepsTo};

use cdni_base::{Limits, Text};
use cdni_log::default_fields;
use history::Call;
use metadata_objects::MetaFault;
use node_core::Node;
use script_line::{ScriptFault, ScriptLine, put_refusal, put_reply_line, read_line};
use std::alloc::{AllocError, Global};
use trigger_command::CommandFault;

/// A line of more bytes, its line feed counted, is no script line.
pub const LINE_LIMIT: usize = 40_000_000;

/// The host that the log files of a script claim.
const ORIGIN: &[u8] = b"dcdn.example";

/// No line ends past this byte of a script.
pub const SCRIPT_LIMIT: u64 = 1 << 40;

/// What a line of the script gave.
#[derive(Clone, Copy, Debug, PartialEq, Eq)]
pub enum Stepped {
    /// An answer.
    Answered,
    /// It is no script line.
    NotALine,
    /// Want of memory.
    Memory,
}

/// Answers the line that begins at this byte of the script, counted from 0, and is its first one or not. The answer takes
/// the place of what was there. A line `limits` of the first line begins anew with a node of these limits. A trigger command
/// that is refused leaves the node as it was.
#[tactic(auto, unfolding(crate::specs::Script::next_said))]
pub fn answer_one(
    alloc: Global,
    node: &mut Node,
    first: bool,
    at: u64,
    line: &[u8],
    answer: &mut Vec<u8>,
) -> Stepped
    ensures { StepsTo node.old node.new first at line.now answer.new.items result }
{
    if !is_in_limits(at, line.len()) {
        return Stepped::NotALine;
    }
    let line = match read_line(alloc, line) {
        Ok(line) => line,
        Err(ScriptFault::NotALine) => return Stepped::NotALine,
        Err(ScriptFault::Memory) => return Stepped::Memory,
    };
    empty(answer);
    match line {
        ScriptLine::Limits(limits) => set_limits(alloc, node, first, limits),
        ScriptLine::Call { pass, call, note } => {
            answer_call(alloc, node, pass, call, note.as_ref(), answer)
        }
        ScriptLine::Refused(fault) => refuse(alloc, &fault, answer),
    }
}

// leaves out what was there
fn empty(answer: &mut Vec<u8>)
    ensures { answer.new.items ≡ [] }
{
    answer.clear();
}

/// The node that answers a script under these limits, before its first call. Its log files claim the host
/// `dcdn.example`, and have the thirteen fields of RFC 7937, section 3.4.1, that are no header fields.
///
/// # Errors
/// Want of memory.
pub fn scripted_node(alloc: Global, limits: &Limits) -> Result<Node, AllocError>
    ensures { IfOk result (λ node. Stands node (made_with limits.now).made []) }
{
    let origin = Text::of(alloc, ORIGIN)?;
    let fields = default_fields(alloc)?;
    Node::new(alloc, limits, origin, fields)
}

// begins anew under these limits, where the line is the first one
fn set_limits(alloc: Global, node: &mut Node, first: bool, limits: Limits) -> Stepped
    ensures { SetsLimits node.new first limits result }
{
    if !first {
        return Stepped::NotALine;
    }
    match scripted_node(alloc, &limits) {
        Ok(made) => {
            *node = made;
            Stepped::Answered
        }
        Err(_) => Stepped::Memory,
    }
}

// takes the call in, of which this was noted, and adds its answer
fn answer_call(
    alloc: Global,
    node: &mut Node,
    pass: u32,
    call: Call,
    note: Option<&MetaFault>,
    answer: &mut Vec<u8>,
) -> Stepped
    ensures { Answers node.old node.new (
      pass,
      record {
        event = event_of call;
        note = option_map (λ fault. fault.now) note.entry;
      },
    ) answer.old.items answer.new.items result }
{
    let Ok(reply) = node.call(alloc, pass, call) else {
        return Stepped::Memory;
    };
    match put_reply_line(alloc, answer, &reply, note) {
        Ok(()) => Stepped::Answered,
        Err(_) => Stepped::Memory,
    }
}

// adds the line by which a command of this fault is refused
fn refuse(alloc: Global, fault: &CommandFault, answer: &mut Vec<u8>) -> Stepped
    requires { fault.now ≢ CommandFault.Memory }
    ensures { AnswersRefusal fault.now answer.old.items answer.new.items result }
{
    match put_refusal(alloc, answer, fault) {
        Ok(()) => Stepped::Answered,
        Err(_) => Stepped::Memory,
    }
}

// whether a line of this length, its line feed not counted, ends within the limits
fn is_in_limits(at: u64, length: usize) -> bool
    ensures { result ≡ fits at (length + 1) }
{
    length < LINE_LIMIT && at <= SCRIPT_LIMIT && at + length as u64 + 1 <= SCRIPT_LIMIT
}
