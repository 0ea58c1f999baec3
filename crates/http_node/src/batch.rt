//! The commands that read and write streams.

ghost use Rattle.std.specs.Prelude.{◌≡◌, ◌≢◌, ◌+◌, ◌*◌, ◌≤◌, ◌⊎◌, ◌↔◌, ℕ, List, [], true, false, None, IfSome};
ghost use Rattle.std.specs.Io.KnownBytes.{Appends, Keeps};
ghost use Rattle.edge_base.specs.Causes.{Rose};
ghost use Rattle.replay_script.specs.Law.{played, KeepsTheLaw};
ghost use Rattle.replay_script.specs.Script.{answers};
ghost use Rattle.generated_script.specs.Numbers.{ScriptNumbers};
ghost use Rattle.generated_script.specs.Script.{script_of, Generates};
ghost use Rattle.generated_script.specs.declared.numbers.TheConstants.{MOST_ROUNDS};
ghost use Rattle.answer_summary.specs.Law.{SumsUp};
ghost use Rattle.answer_summary.specs.Summary.{rows_of};
ghost use Rattle.generated_law.specs.Law.{IsScript};
ghost use Rattle.http_node.specs.Batch.{status_of, Replays, ReadsScript, MeetsNone, Sums, ReadsSummary, ReadsNone, WritesSummary};
ghost use Rattle.http_node.specs.Command.{is_audit, is_replay, is_summary, AsksFor, IsNoCommand};
ghost use Rattle.http_node.specs.Note.{end_note, note_of, IsNoted};
ghost use Rattle.http_node.specs.Runs.{RunsAudit, RunsGenerate, RunsNothing, RunsReplay, RunsSummary};
ghost use Rattle.http_node.specs.Told.{stream_told};

use crate::audit::audit_noted;
use crate::command::{is_audit, is_replay, is_summary, numbers_of};
use crate::law::a_generated_script_goes_on;
use crate::note::{NOTE_ROOM, note_status, put_end_note, write_note};
use answer_summary::{Summary, a_summary_has_each_word_once};
use cdni_base::Scratch;
use edge_base::{Sink, Source, Status, write_counted};
use generated_script::{Numbers, generate};
use replay_script::{ReplayEnd, replay, summarize, the_answers_of_a_script_are_lawful};
use std::alloc::Global;

/// Runs the command that `words`, those after the program's name, are. `replay` reads a script from `input` and writes its
/// answers to `output`, which keep the law of deliveries; with `--summary` it writes how many answers begin with each word
/// in their place, at the end. `generate`, a number of rounds from 1 to 1,000,000 and one from 0 to 2,147,483,647 write
/// the script of these numbers, and nothing is read. `audit` reads a log file of at most 268,435,456 bytes from `input`, checks
/// that it is whole, well formed and unchanged (RFC 7937, section 3), and writes its records and what they sum to. It always
/// returns. One line on how it ended, but for `Done`, goes to `notes`; where that fails nothing else changes.
///
/// The status is `Done` where the input was read to its end, and the whole output was written; `Script` where a line was
/// read that is no script line and every answer before it was written, or counted, or where the input is no log file that is
/// accepted, and then no other but `Memory`; `Usage` exactly where the words are no command; `ReadFault` and `WriteFault` exactly where the input's, the output's count of
/// faults rose in this call, as far as a count that stands at 2^64 - 1 can tell; and `Memory` for want of memory.
pub fn batch_main<S: Source, K: Sink, E: Sink>(
    alloc: Global,
    words: &[String],
    input: &mut S,
    output: &mut K,
    notes: &mut E,
) -> Status
    ensures usage { (result ≡ Status.Usage) ↔ IsNoCommand words.now }

    // What each command did.
    ensures nothing { result ≡ Status.Usage → RunsNothing
        (stream_told S.left S.faults input.old) (stream_told S.left S.faults input.new)
        (stream_told K.held K.faults output.old) (stream_told K.held K.faults output.new)
        (stream_told E.held E.faults notes.old) (stream_told E.held E.faults notes.new) }
    ensures replay { is_replay words.now ≡ true → RunsReplay
        (stream_told S.left S.faults input.old) (stream_told S.left S.faults input.new)
        (stream_told K.held K.faults output.old) (stream_told K.held K.faults output.new)
        (stream_told E.held E.faults notes.old) (stream_told E.held E.faults notes.new) result }
    ensures summary { is_summary words.now ≡ true → RunsSummary
        (stream_told S.left S.faults input.old) (stream_told S.left S.faults input.new)
        (stream_told K.held K.faults output.old) (stream_told K.held K.faults output.new)
        (stream_told E.held E.faults notes.old) (stream_told E.held E.faults notes.new) result }
    ensures generate { (numbers : ScriptNumbers) → AsksFor words.now numbers → RunsGenerate numbers
        (stream_told S.left S.faults input.old) (stream_told S.left S.faults input.new)
        (stream_told K.held K.faults output.old) (stream_told K.held K.faults output.new)
        (stream_told E.held E.faults notes.old) (stream_told E.held E.faults notes.new) result }

    ensures audit { is_audit words.now ≡ true → RunsAudit
        (stream_told S.left S.faults input.old) (stream_told S.left S.faults input.new)
        (stream_told K.held K.faults output.old) (stream_told K.held K.faults output.new)
        (stream_told E.held E.faults notes.old) (stream_told E.held E.faults notes.new) result }

    // The law of deliveries, over the history of every script; what a summary is; and a generated script is one, whose replay
    // does not stop.
    ensures law { (script : List ℕ) → KeepsTheLaw (played script) }
    ensures summary_law { (list : List (List ℕ)) → SumsUp list (rows_of list) }
    ensures generated_law { (rounds seed : ℕ) → rounds ≤ MOST_ROUNDS
        → IsScript (9 * rounds + 3) (script_of rounds seed) }
    ensures generated_goes_on { (rounds seed : ℕ) → rounds ≤ MOST_ROUNDS
        → (answers (script_of rounds seed)).stops ≡ None }

    // The causes of the faults.
    ensures read { result ≡ Status.ReadFault → Rose (S.faults input.old) (S.faults input.new) }
    ensures read_well { result ≢ Status.ReadFault → S.faults input.new ≡ S.faults input.old }
    ensures read_later { S.faults input.old ≤ S.faults input.new }
    ensures write { result ≡ Status.WriteFault → Rose (K.faults output.old) (K.faults output.new) }
    ensures write_well { result ≢ Status.WriteFault → K.faults output.new ≡ K.faults output.old }
    ensures write_later { K.faults output.old ≤ K.faults output.new }
    ensures outside { result ≢ Status.Outside }
{
    the_answers_of_a_script_are_lawful();
    a_summary_has_each_word_once();
    a_generated_script_goes_on();
    if is_replay(words) {
        return replay_noted(alloc, input, output, notes);
    }
    if is_summary(words) {
        return summarize_noted(alloc, input, output, notes);
    }
    if is_audit(words) {
        return audit_noted(alloc, input, output, notes);
    }
    if let Some(numbers) = numbers_of(words) {
        return generate_noted(alloc, output, notes, &numbers);
    }
    note_status(notes, Status::Usage);
    Status::Usage
}

// writes the answers of a script, and the note of how that ended
fn replay_noted<S: Source, K: Sink, E: Sink>(
    alloc: Global,
    input: &mut S,
    output: &mut K,
    notes: &mut E,
) -> Status
    ensures served { Replays (S.left input.old) (S.left input.new) (K.held output.old) (K.held output.new) (IsNoted
        (E.held notes.old) (E.held notes.new) (E.faults notes.old) (E.faults notes.new)) result }
    ensures complete { (Rose (S.faults input.old) (S.faults input.new) → ⊥)
        → (Rose (K.faults output.old) (K.faults output.new) → ⊥)
        → IfSome (S.left input.old) (λ script. (answers script).stops ≡ None → (result ≡ Status.Done)
        ⊎ (result ≡ Status.Memory)) }
    ensures lines { ReadsScript (S.left input.old) (S.left input.new) (K.held output.old) (K.held output.new) result }
    ensures script { MeetsNone (S.left input.old) (S.left input.new) (K.held output.old) (K.held output.new)
        → (result ≡ Status.Script) ⊎ (result ≡ Status.Memory) }
    ensures read { result ≡ Status.ReadFault → Rose (S.faults input.old) (S.faults input.new) }
    ensures read_well { result ≢ Status.ReadFault → S.faults input.new ≡ S.faults input.old }
    ensures read_later { S.faults input.old ≤ S.faults input.new }
    ensures write { result ≡ Status.WriteFault → Rose (K.faults output.old) (K.faults output.new) }
    ensures write_well { result ≢ Status.WriteFault → K.faults output.new ≡ K.faults output.old }
    ensures write_later { K.faults output.old ≤ K.faults output.new }
    ensures usage { result ≢ Status.Usage }
    ensures outside { result ≢ Status.Outside }
{
    let Ok(note) = Scratch::new(alloc, NOTE_ROOM) else {
        note_status(notes, Status::Memory);
        return Status::Memory;
    };
    let end = replay(alloc, input, output);
    note_end(notes, note, end)
}

// writes the summary of the answers of a script, and the note of how that ended
fn summarize_noted<S: Source, K: Sink, E: Sink>(
    alloc: Global,
    input: &mut S,
    output: &mut K,
    notes: &mut E,
) -> Status
    ensures summed { Sums (S.left input.old) (S.left input.new) (K.held output.old) (K.held output.new) (IsNoted
        (E.held notes.old) (E.held notes.new) (E.faults notes.old) (E.faults notes.new)) result }
    ensures lines { ReadsSummary (S.left input.old) (S.left input.new) result }
    ensures script { ReadsNone (S.left input.old) (S.left input.new)
        → (result ≡ Status.Script) ⊎ (result ≡ Status.Memory) }
    ensures complete { (Rose (S.faults input.old) (S.faults input.new) → ⊥)
        → (Rose (K.faults output.old) (K.faults output.new) → ⊥)
        → IfSome (S.left input.old) (λ script. (answers script).stops ≡ None → (result ≡ Status.Done)
        ⊎ (result ≡ Status.Memory)) }
    ensures read { result ≡ Status.ReadFault → Rose (S.faults input.old) (S.faults input.new) }
    ensures read_well { result ≢ Status.ReadFault → S.faults input.new ≡ S.faults input.old }
    ensures read_later { S.faults input.old ≤ S.faults input.new }
    ensures write { result ≡ Status.WriteFault → Rose (K.faults output.old) (K.faults output.new) }
    ensures write_well { result ≢ Status.WriteFault → K.faults output.new ≡ K.faults output.old }
    ensures write_later { K.faults output.old ≤ K.faults output.new }
    ensures usage { result ≢ Status.Usage }
    ensures outside { result ≢ Status.Outside }
{
    let Ok(note) = Scratch::new(alloc, NOTE_ROOM) else {
        note_status(notes, Status::Memory);
        return Status::Memory;
    };
    let end = write_summary(alloc, input, output);
    note_end(notes, note, end)
}

// writes the summary of the answers of a script, where it was read to its end
fn write_summary<S: Source, K: Sink>(alloc: Global, input: &mut S, output: &mut K) -> ReplayEnd
    ensures summed { WritesSummary (S.left input.old) (S.left input.new) (K.held output.old) (K.held output.new) result }
    ensures lines { ReadsSummary (S.left input.old) (S.left input.new) (status_of result) }
    ensures read { result ≡ ReplayEnd.ReadFault → Rose (S.faults input.old) (S.faults input.new) }
    ensures read_well { result ≢ ReplayEnd.ReadFault → S.faults input.new ≡ S.faults input.old }
    ensures read_later { S.faults input.old ≤ S.faults input.new }
    ensures write { result ≡ ReplayEnd.WriteFault → Rose (K.faults output.old) (K.faults output.new) }
    ensures write_well { result ≢ ReplayEnd.WriteFault → K.faults output.new ≡ K.faults output.old }
    ensures write_later { K.faults output.old ≤ K.faults output.new }
{
    let mut summary = Summary::new(alloc);
    let end = summarize(alloc, input, &mut summary);
    if end != ReplayEnd::Done {
        return end;
    }
    let Ok(text) = summary.text(alloc) else {
        return ReplayEnd::Memory;
    };
    if write_counted(output, text.bytes()).fault {
        return ReplayEnd::WriteFault;
    }
    ReplayEnd::Done
}

// writes the script of two numbers, and the note of how that ended
fn generate_noted<K: Sink, E: Sink>(
    alloc: Global,
    output: &mut K,
    notes: &mut E,
    numbers: &Numbers,
) -> Status
    ensures generated { Generates (K.held output.old) (K.held output.new)
        (script_of numbers.now.rounds numbers.now.seed) result }
    ensures noted { IsNoted (E.held notes.old) (E.held notes.new) (E.faults notes.old) (E.faults notes.new)
        (note_of result None) }
    ensures write { result ≡ Status.WriteFault → Rose (K.faults output.old) (K.faults output.new) }
    ensures write_well { result ≢ Status.WriteFault → K.faults output.new ≡ K.faults output.old }
    ensures write_later { K.faults output.old ≤ K.faults output.new }
{
    let status = generate(alloc, output, numbers);
    note_status(notes, status);
    status
}

// notes how a replay ended, in this empty scratch, and gives the status of that
fn note_end<E: Sink>(notes: &mut E, mut note: Scratch, end: ReplayEnd) -> Status
    requires { note ≡ record { text = []; room = NOTE_ROOM } }
    ensures status { result ≡ status_of end }
    ensures noted { IsNoted (E.held notes.old) (E.held notes.new) (E.faults notes.old) (E.faults notes.new)
        (end_note end) }
{
    put_end_note(&mut note, end);
    write_note(notes, note.bytes());
    status_of(end)
}

// the status of the end of a replay
fn status_of(end: ReplayEnd) -> Status
    ensures { result ≡ status_of end }
{
    match end {
        ReplayEnd::Done => Status::Done,
        ReplayEnd::NotALine { line: _, at: _ } => Status::Script,
        ReplayEnd::ReadFault => Status::ReadFault,
        ReplayEnd::WriteFault => Status::WriteFault,
        ReplayEnd::Memory => Status::Memory,
    }
}
