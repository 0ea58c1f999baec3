//! The exit code of the command that words are.

ghost use Rattle.std.specs.Prelude.{◌≡◌, IfErr, IfOk};
ghost use Rattle.std.specs.Process.{exit_status};
ghost use Rattle.edge_base.specs.Status.{number_of_status};
ghost use Rattle.edge_base.specs.declared.status.Status.{Status};
ghost use Rattle.http_node.specs.Note.{note_of, IsNoted};
ghost use Rattle.command_line.specs.Run.{link_told, outside_told, RunsWords};
ghost use Rattle.http_node.specs.Told.{stream_told};

use crate::run::run_words;
use edge_base::{Sink, Source, Status};
use http_node::{Outside, note_status};
use std::alloc::Global;
use std::process::ExitCode;
use std::sync::Wait;
use std::thread::Threads;
use trigger_cascade::Link;

/// Runs the command that these words are, as [`run_words`] does, or, where they could not be taken, notes the status that
/// says so and does nothing else. The exit code is the number of the status, from 0 to 6. It may wait, and need not return.
pub fn exit_of<R: Threads + Wait + Sync, S: Source, K: Sink, E: Sink, O: Outside, L: Link>(
    rt: &R,
    alloc: Global,
    words: Result<Vec<String>, Status>,
    input: &mut S,
    output: &mut K,
    notes: &mut E,
    outside: &mut O,
    link: &mut L,
) -> ExitCode
    ensures number { (status : Status) × (exit_status result ≡ number_of_status status) }
    ensures ran { IfOk words (λ words. (status : Status) × (exit_status result ≡ number_of_status status)
        × RunsWords words.items (record {
          input = stream_told S.left S.faults input.old;
          output = stream_told K.held K.faults output.old;
          notes = stream_told E.held E.faults notes.old;
          outside = outside_told O.diary O.returned O.faults outside.old;
          link = link_told L.calls L.faults link.old;
        }) (record {
          input = stream_told S.left S.faults input.new;
          output = stream_told K.held K.faults output.new;
          notes = stream_told E.held E.faults notes.new;
          outside = outside_told O.diary O.returned O.faults outside.new;
          link = link_told L.calls L.faults link.new;
        }) status) }
    ensures none { IfErr words (λ status. exit_status result ≡ number_of_status status) }
    ensures none_noted { IfErr words (λ status. IsNoted (E.held notes.old) (E.held notes.new) (E.faults notes.old)
        (E.faults notes.new) (note_of status None)) }
    ensures none_read { IfErr words (λ status. input.new ≡ input.old) }
    ensures none_written { IfErr words (λ status. output.new ≡ output.old) }
    ensures none_served { IfErr words (λ status. outside.new ≡ outside.old) }
    ensures none_called { IfErr words (λ status. link.new ≡ link.old) }
{
    match words {
        Ok(words) => {
            let status = run_words(
                rt,
                alloc,
                words.as_slice(),
                input,
                output,
                notes,
                outside,
                link,
            );
            code_of(status)
        }
        Err(status) => {
            note_status(notes, status);
            code_of(status)
        }
    }
}

// the exit code of a status
fn code_of(status: Status) -> ExitCode
    ensures { exit_status result ≡ number_of_status status }
{
    ExitCode::from(status.number())
}
