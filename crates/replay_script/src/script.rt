//! The answers of a whole script.

ghost use Rattle.std.specs.Prelude.{◌≡◌, ◌≢◌, ◌≤◌, []};
ghost use Rattle.edge_base.specs.Causes.{Rose};
ghost use Rattle.replay_script.specs.Replay.{Ends, Reads};
ghost use Rattle.replay_script.specs.Summary.{Summarizes, ReadsSummed};

use crate::reading::Reading;
use answer_summary::Summary;
use edge_base::{Sink, Source, write_counted};
use std::alloc::Global;

/// How a replay ended.
#[derive(Clone, Copy, Debug, PartialEq, Eq)]
pub enum ReplayEnd {
    /// The input was read to its end and all answers were written.
    Done,
    /// This line, counted from 1, which begins at this byte, counted from 0, is no script line;
    /// the answers before it were written.
    NotALine { line: u64, at: u64 },
    /// The input failed.
    ReadFault,
    /// The output failed.
    WriteFault,
    /// Want of memory.
    Memory,
}

/// Reads a script from `input` and writes its answers to `output`. It always returns. It is `Done` where the input was
/// read to its end; `NotALine` where a line was read that is no script line, and every answer before it was written;
/// `ReadFault` and `WriteFault` exactly where the input's, the output's count of faults rose in this call, as far as a
/// count that stands at 2^64 - 1 can tell; and `Memory` for want of memory.
pub fn replay<S: Source, K: Sink>(alloc: Global, input: &mut S, output: &mut K) -> ReplayEnd
    ensures ends { Ends (S.left input.old) (S.left input.new) (K.held output.old) (K.held output.new) result }
    ensures reads { Reads (S.left input.old) (S.left input.new) (K.held output.old) (K.held output.new) result }
    ensures read_later { S.faults input.old ≤ S.faults input.new }
    ensures read { result ≡ ReplayEnd.ReadFault → Rose (S.faults input.old) (S.faults input.new) }
    ensures read_well { result ≢ ReplayEnd.ReadFault → S.faults input.new ≡ S.faults input.old }
    ensures write_later { K.faults output.old ≤ K.faults output.new }
    ensures write { result ≡ ReplayEnd.WriteFault → Rose (K.faults output.old) (K.faults output.new) }
    ensures write_well { result ≢ ReplayEnd.WriteFault → K.faults output.new ≡ K.faults output.old }
{
    let Ok(mut reading) = Reading::new(alloc) else {
        return ReplayEnd::Memory;
    };
    'answers: loop {
        if let Err(end) = reading.next(alloc, input) {
            return end;
        }
        if write_counted(output, reading.answer()).fault {
            return ReplayEnd::WriteFault;
        }
    }
}

/// Reads a script from `input` and counts its answers in `summary`, in place of writing them. It always returns, and ends
/// as `replay` does, but never with a fault of an output. Where it is `Done` the summary is that of the script's answers.
pub fn summarize<S: Source>(alloc: Global, input: &mut S, summary: &mut Summary) -> ReplayEnd
    requires { summary.old ≡ [] }
    ensures ends { Summarizes (S.left input.old) (S.left input.new) summary.new result }
    ensures reads { ReadsSummed (S.left input.old) (S.left input.new) result }
    ensures read_later { S.faults input.old ≤ S.faults input.new }
    ensures read { result ≡ ReplayEnd.ReadFault → Rose (S.faults input.old) (S.faults input.new) }
    ensures read_well { result ≢ ReplayEnd.ReadFault → S.faults input.new ≡ S.faults input.old }
{
    let Ok(mut reading) = Reading::new(alloc) else {
        return ReplayEnd::Memory;
    };
    'answers: loop {
        if let Err(end) = reading.next(alloc, input) {
            return end;
        }
        match summary.count(alloc, reading.answer()) {
            Ok(()) => {}
            Err(_) => return ReplayEnd::Memory,
        }
    }
}
