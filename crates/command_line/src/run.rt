//! The command that words are, over any streams, outside and link.

ghost use Rattle.std.specs.Prelude.{◌≡◌, ◌≢◌, ◌≤◌, None};
ghost use Rattle.command_line.specs.Choice.{choice_of};
ghost use Rattle.command_line.specs.Run.{link_told, outside_told, RunsBatch, RunsCascade, RunsServe};
ghost use Rattle.http_node.specs.Told.{stream_told};
ghost use Rattle.serve_words.specs.Options.{options_of};

use crate::choice::{Choice, choice_of};
use edge_base::{Sink, Source, Status};
use http_node::{Outside, batch_main, serve_main};
use std::alloc::Global;
use std::sync::Wait;
use std::thread::Threads;
use trigger_cascade::{Link, cascade_main};

/// Runs the command that `words`, those after the program's name, are. Where the first is `serve` it serves over `outside`;
/// where it is `cascade` a trigger command is read from `input`, passed on over `link`, and what comes of it is written to
/// `output`; and else the command reads `input` and writes `output`. What a command has no use for it leaves as it was. One
/// line on how it ended, but for `Done`, goes to `notes`; where that fails nothing else changes. `serve` may wait, and need
/// not return; all others return.
pub fn run_words<R: Threads + Wait + Sync, S: Source, K: Sink, E: Sink, O: Outside, L: Link>(
    rt: &R,
    alloc: Global,
    words: &[String],
    input: &mut S,
    output: &mut K,
    notes: &mut E,
    outside: &mut O,
    link: &mut L,
) -> Status
    // What each command did, by the contract of its call.
    ensures serve { choice_of words.now ≡ Choice.Serve → RunsServe words.now
        (outside_told O.diary O.returned O.faults outside.old) (outside_told O.diary O.returned O.faults outside.new)
        (stream_told E.held E.faults notes.old) (stream_told E.held E.faults notes.new) result }
    ensures cascade { choice_of words.now ≡ Choice.Cascade → RunsCascade words.now
        (stream_told S.left S.faults input.old) (stream_told S.left S.faults input.new)
        (stream_told K.held K.faults output.old) (stream_told K.held K.faults output.new)
        (stream_told E.held E.faults notes.old) (stream_told E.held E.faults notes.new)
        (link_told L.calls L.faults link.old) (link_told L.calls L.faults link.new) result }
    ensures batch { choice_of words.now ≡ Choice.Batch → RunsBatch words.now
        (stream_told S.left S.faults input.old) (stream_told S.left S.faults input.new)
        (stream_told K.held K.faults output.old) (stream_told K.held K.faults output.new)
        (stream_told E.held E.faults notes.old) (stream_told E.held E.faults notes.new) result }

    // What each command leaves as it was.
    ensures unread { choice_of words.now ≡ Choice.Serve → input.new ≡ input.old }
    ensures unwritten { choice_of words.now ≡ Choice.Serve → output.new ≡ output.old }
    ensures outside { choice_of words.now ≢ Choice.Serve → outside.new ≡ outside.old }
    ensures not_served { options_of words.now ≡ None → outside.new ≡ outside.old }
    ensures link { choice_of words.now ≢ Choice.Cascade → link.new ≡ link.old }

    // No count of faults falls.
    ensures read_later { S.faults input.old ≤ S.faults input.new }
    ensures write_later { K.faults output.old ≤ K.faults output.new }
    ensures outside_later { O.faults outside.old ≤ O.faults outside.new }
{
    match choice_of(words) {
        Choice::Serve => serve_main(rt, alloc, words, outside, notes),
        Choice::Cascade => cascade_main(alloc, words, input, output, notes, link),
        Choice::Batch => batch_main(alloc, words, input, output, notes),
    }
}
