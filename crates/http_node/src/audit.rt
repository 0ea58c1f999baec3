//! The command that checks a log file.

ghost use Rattle.std.specs.Prelude.{◌≡◌, ◌≢◌, ◌≤◌, ◌<◌, ◌+◌, ◌++◌, ◌⊎◌, decimal, codes, length, Err, IfOk, IfSome, Ok};
ghost use Rattle.std.specs.Io.KnownBytes.{Consumes, IsAtEnd};
ghost use Rattle.edge_base.specs.Causes.{Rose};
ghost use Rattle.http_node.specs.Audit.{fault_note, note_of_end, status_of, Audits, EndsAt, Ends, IsAcceptable, IsSettled};
ghost use Rattle.http_node.specs.Audit.{HasInputCause, IsEndOf, IsRefusal, ReadsInput};
ghost use Rattle.http_node.specs.Note.{IsNoted};

use crate::note::{status_note, write_note};
use audit_report::report_text;
use edge_base::{Sink, Source, Status, write_counted};
use http_wire::{BodyRead, Inbox, read_to_end};
use itoa::Buffer;
use listing::Text;
use log_audit::{AuditFault, Audited, audit};
use std::alloc::{AllocError, Global};

/// The most bytes of a log file that is checked.
const INPUT_MAX: u64 = 268_435_456;

/// How the check of a log file ended.
#[derive(Drop)]
pub(crate) enum AuditEnd {
    /// It is accepted, and what it says was written.
    Done,
    /// It is not accepted, with the note that says why.
    Refused { note: Vec<u8> },
    /// The input failed.
    ReadFault,
    /// The output failed.
    WriteFault,
    /// Want of memory.
    Memory,
}

// what reading the input gave
#[derive(Drop)]
enum Input {
    // all of it
    Whole(Text),
    // more than is checked
    TooLong,
    // the input failed
    ReadFault,
    // want of memory
    Memory,
}

// checks the log file that the input is, writes its records and what they sum to, and notes how that ended
pub(crate) fn audit_noted<S: Source, K: Sink, E: Sink>(
    alloc: Global,
    input: &mut S,
    output: &mut K,
    notes: &mut E,
) -> Status
    ensures audited { Audits (S.left input.old) (S.left input.new) (K.held output.old) (K.held output.new) (IsNoted
        (E.held notes.old) (E.held notes.new) (E.faults notes.old) (E.faults notes.new)) result }
    ensures complete { (Rose (S.faults input.old) (S.faults input.new) → ⊥)
        → (Rose (K.faults output.old) (K.faults output.new) → ⊥)
        → IfSome (S.left input.old) (λ text. IsSettled text result) }
    ensures read { result ≡ Status.ReadFault → Rose (S.faults input.old) (S.faults input.new) }
    ensures read_well { result ≢ Status.ReadFault → S.faults input.new ≡ S.faults input.old }
    ensures read_later { S.faults input.old ≤ S.faults input.new }
    ensures write { result ≡ Status.WriteFault → Rose (K.faults output.old) (K.faults output.new) }
    ensures write_well { result ≢ Status.WriteFault → K.faults output.new ≡ K.faults output.old }
    ensures write_later { K.faults output.old ≤ K.faults output.new }
    ensures usage { result ≢ Status.Usage }
    ensures outside { result ≢ Status.Outside }
{
    let end = audit_input(alloc, input, output);
    write_note(notes, note_of_end(&end));
    status_of(&end)
}

// checks the log file that the input is, and writes its records and what they sum to
fn audit_input<S: Source, K: Sink>(alloc: Global, input: &mut S, output: &mut K) -> AuditEnd
    ensures ends { Ends (S.left input.old) (S.left input.new) (K.held output.old) (K.held output.new) result }
    ensures read { result ≡ AuditEnd.ReadFault → Rose (S.faults input.old) (S.faults input.new) }
    ensures read_well { result ≢ AuditEnd.ReadFault → S.faults input.new ≡ S.faults input.old }
    ensures read_later { S.faults input.old ≤ S.faults input.new }
    ensures write { result ≡ AuditEnd.WriteFault → Rose (K.faults output.old) (K.faults output.new) }
    ensures write_well { result ≢ AuditEnd.WriteFault → K.faults output.new ≡ K.faults output.old }
    ensures write_later { K.faults output.old ≤ K.faults output.new }
{
    match read_input(alloc, input) {
        Input::Whole(text) => audit_text(alloc, text, output),
        Input::TooLong => refused(alloc, &AuditFault::TooLong { len: 0 }),
        Input::ReadFault => AuditEnd::ReadFault,
        Input::Memory => AuditEnd::Memory,
    }
}

// reads the input to its end, unless it is too long
fn read_input<S: Source>(alloc: Global, input: &mut S) -> Input
    ensures input { ReadsInput (S.left input.old) (S.left input.new) result }
    ensures cause { HasInputCause (S.faults input.old) (S.faults input.new) result }
{
    let Ok(mut inbox) = Inbox::new(alloc) else {
        return Input::Memory;
    };
    match read_to_end(alloc, input, &mut inbox, INPUT_MAX) {
        BodyRead::Body(text) => Input::Whole(text),
        BodyRead::TooLarge { len: _ } => Input::TooLong,
        BodyRead::ReadFault => Input::ReadFault,
        BodyRead::Memory => Input::Memory,
        BodyRead::Coded | BodyRead::BadLength { .. } | BodyRead::CutShort { .. } => unreachable!(),
    }
}

// checks this text, and writes its records and what they sum to
fn audit_text<K: Sink>(alloc: Global, text: Text, output: &mut K) -> AuditEnd
    requires { length text ≤ 268435456 }
    ensures ends { EndsAt text (K.held output.old) (K.held output.new) result }
    ensures read { result ≢ AuditEnd.ReadFault }
    ensures write { result ≡ AuditEnd.WriteFault → Rose (K.faults output.old) (K.faults output.new) }
    ensures write_well { result ≢ AuditEnd.WriteFault → K.faults output.new ≡ K.faults output.old }
    ensures write_later { K.faults output.old ≤ K.faults output.new }
{
    let checked = audit(alloc, text.bytes());
    drop(text);
    match checked {
        Ok(audited) => write_audited(alloc, &audited, output),
        Err(fault) => refused(alloc, &fault),
    }
}

// writes the records of a log file and what they sum to
fn write_audited<K: Sink>(alloc: Global, audited: &Audited, output: &mut K) -> AuditEnd
    ensures ends { IsEndOf audited.now (K.held output.old) (K.held output.new) result }
    ensures write { result ≡ AuditEnd.WriteFault → Rose (K.faults output.old) (K.faults output.new) }
    ensures write_well { result ≢ AuditEnd.WriteFault → K.faults output.new ≡ K.faults output.old }
    ensures write_later { K.faults output.old ≤ K.faults output.new }
{
    let Ok(text) = report_text(alloc, audited) else {
        return AuditEnd::Memory;
    };
    if write_counted(output, text.bytes()).fault {
        return AuditEnd::WriteFault;
    }
    AuditEnd::Done
}

// a text that is not accepted for this fault, which may be want of memory
fn refused(alloc: Global, fault: &AuditFault) -> AuditEnd
    ensures { IsRefusal fault.now result }
{
    match fault_note(alloc, fault) {
        Ok(note) => AuditEnd::Refused { note },
        Err(_) => AuditEnd::Memory,
    }
}

// the note of a text that is not accepted; none for want of memory
fn fault_note(alloc: Global, fault: &AuditFault) -> Result<Vec<u8>, AllocError>
    ensures { IfOk result (λ note. (fault.now ≢ AuditFault.Memory) × (note.items ≡ fault_note fault.now)) }
{
    match fault {
        AuditFault::TooLong { len: _ } => Vec::from_slice(alloc, b"too long\n"),
        AuditFault::BadLine { line } => bad_line_note(alloc, *line),
        AuditFault::BadHash { written, found } => bad_hash_note(alloc, written, found),
        AuditFault::Memory => Err(AllocError),
    }
}

fn bad_line_note(alloc: Global, line: u64) -> Result<Vec<u8>, AllocError>
    ensures { IfOk result (λ note. note.items ≡ codes "line " ++ decimal line ++ codes ": not a log line\n") }
{
    let mut note = Vec::from_slice(alloc, b"line ")?;
    let mut digits = Buffer::new();
    note.extend_from_slice(digits.format(line).as_bytes())?;
    note.extend_from_slice(b": not a log line\n")?;
    Ok(note)
}

fn bad_hash_note(alloc: Global, written: &Text, found: &Text) -> Result<Vec<u8>, AllocError>
    ensures { IfOk result (λ note. note.items ≡ codes "hash " ++ written.now ++ codes " " ++ found.now ++ codes "\n") }
{
    let mut note = Vec::from_slice(alloc, b"hash ")?;
    note.extend_from_slice(written.bytes())?;
    note.extend_from_slice(b" ")?;
    note.extend_from_slice(found.bytes())?;
    note.extend_from_slice(b"\n")?;
    Ok(note)
}

fn note_of_end(end: &AuditEnd) -> &[u8]
    ensures { result.now ≡ note_of_end end.now }
{
    match end {
        AuditEnd::Done => b"",
        AuditEnd::Refused { note } => note.as_slice(),
        AuditEnd::ReadFault => status_note(Status::ReadFault),
        AuditEnd::WriteFault => status_note(Status::WriteFault),
        AuditEnd::Memory => status_note(Status::Memory),
    }
}

fn status_of(end: &AuditEnd) -> Status
    ensures { result ≡ status_of end.now }
{
    match end {
        AuditEnd::Done => Status::Done,
        AuditEnd::Refused { note: _ } => Status::Script,
        AuditEnd::ReadFault => Status::ReadFault,
        AuditEnd::WriteFault => Status::WriteFault,
        AuditEnd::Memory => Status::Memory,
    }
}
