//! Notes of how a command ended, one line each.

ghost use Rattle.std.specs.Prelude.{◌≡◌, ◌+◌, ◌≤◌, ◌++◌, [], None, length, decimal};
ghost use Rattle.cdni_base.specs.Scratch.{Room};
ghost use Rattle.http_node.specs.Serve.{line_of, status_at};
ghost use Rattle.http_node.specs.Note.{bad_line_text, bad_place_text, end_note, note_of, serve_note, IsNoted};

use crate::serve::ServeEnd;
use cdni_base::Scratch;
use edge_base::{Sink, Status, write_counted};
use replay_script::ReplayEnd;

/// Room for the longest note of the end of a replay, in bytes.
pub(crate) const NOTE_ROOM: usize = 96;

// the note of words that are no command
const USAGE: &[u8] = b"usage: cdnid replay | generate N SEED | audit | serve OPTIONS\n";

// the note of want of memory
const WANT_OF_MEMORY: &[u8] = b"want of memory\n";

/// Writes the note of a command that ended so before it read a line; a fault of the sink is passed over.
pub fn note_status<E: Sink>(notes: &mut E, status: Status)
    ensures { IsNoted (E.held notes.old) (E.held notes.new) (E.faults notes.old) (E.faults notes.new)
        (note_of status None) }
{
    write_note(notes, status_note(status));
}

// the note of a status, where no line is to be named
pub(crate) fn status_note(status: Status) -> &'static [u8]
    ensures { result.now ≡ note_of status None }
{
    match status {
        Status::Done | Status::Script => b"",
        Status::Usage => USAGE,
        Status::ReadFault => b"read fault\n",
        Status::WriteFault => b"write fault\n",
        Status::Memory => WANT_OF_MEMORY,
        Status::Outside => b"outside fault\n",
    }
}

// writes a note; a fault of the sink is passed over
pub(crate) fn write_note<E: Sink>(notes: &mut E, note: &[u8])
    ensures { IsNoted (E.held notes.old) (E.held notes.new) (E.faults notes.old) (E.faults notes.new) note.now }
{
    write_counted(notes, note);
}

// puts the note of the end of a replay into an empty scratch
pub(crate) fn put_end_note(out: &mut Scratch, end: ReplayEnd)
    requires { out.old ≡ record { text = []; room = NOTE_ROOM } }
    ensures { out.new.text ≡ end_note end }
{
    match end {
        ReplayEnd::Done => {}
        ReplayEnd::NotALine { line, at } => put_bad_line(out, line, at),
        ReplayEnd::ReadFault => put(out, b"read fault\n"),
        ReplayEnd::WriteFault => put(out, b"write fault\n"),
        ReplayEnd::Memory => put(out, WANT_OF_MEMORY),
    }
}

// puts the note of the end of serving into an empty scratch
pub(crate) fn put_serve_note(out: &mut Scratch, end: ServeEnd)
    requires { out.old ≡ record { text = []; room = NOTE_ROOM } }
    ensures { out.new.text ≡ serve_note (status_at end) (line_of end) }
{
    match end {
        ServeEnd::Ended(status) => put(out, status_note(status)),
        ServeEnd::BadPlace(line) => put_bad_place(out, line),
    }
}

fn put_bad_place(out: &mut Scratch, number: u64)
    requires { out.old ≡ record { text = []; room = NOTE_ROOM } }
    ensures { out.new.text ≡ bad_place_text number }
{
    put(out, b"places line ");
    put_number(out, number);
    put(out, b"\n");
}

fn put_bad_line(out: &mut Scratch, line: u64, at: u64)
    requires { out.old ≡ record { text = []; room = NOTE_ROOM } }
    ensures { out.new.text ≡ bad_line_text line at }
{
    put(out, b"line ");
    put_number(out, line);
    put(out, b" at ");
    put_number(out, at);
    put(out, b": not a script line\n");
}

// adds bytes for which there is room
fn put(out: &mut Scratch, bytes: &[u8])
    requires { length out.old.text + length bytes.now ≤ out.old.room }
    ensures text { out.new ≡ record { text = out.old.text ++ bytes.now; room = out.old.room } }
    ensures length { length out.new.text ≡ length out.old.text + length bytes.now }
    ensures room { out.new.room ≡ out.old.room }
{
    if !out.append(bytes) {
        unreachable!();
    }
}

// adds a number, for whose at most 20 digits there is room
fn put_number(out: &mut Scratch, number: u64)
    requires { length out.old.text + 20 ≤ out.old.room }
    ensures text { out.new ≡ record { text = out.old.text ++ decimal number; room = out.old.room } }
    ensures length { length out.new.text ≤ length out.old.text + 20 }
    ensures room { out.new.room ≡ out.old.room }
{
    if !out.append_number(number) {
        unreachable!();
    }
}
