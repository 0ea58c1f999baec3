//! The script that two numbers make.

ghost use Rattle.std.specs.Prelude.{◌≡◌, ◌≢◌, ◌≤◌, ◌++◌};
ghost use Rattle.edge_base.specs.Causes.{Rose};
ghost use Rattle.edge_base.specs.Write.{HasCause};
ghost use Rattle.generated_script.specs.Line.{first_lines};
ghost use Rattle.generated_script.specs.Script.{script_of, Generates, MovesOut};

use crate::course::Course;
use crate::line::put_first_lines;
use crate::numbers::Numbers;
use edge_base::{Sink, Status, write_counted};
use std::alloc::Global;

/// The lines of so many bytes are written at once.
const FULL: usize = 32_768;

/// Writes the script of these numbers to `sink`. It always returns. The status is `Done` where the whole script was
/// written; `WriteFault` exactly where the sink's count of faults rose in this call, as far as a count that stands at
/// 2^64 - 1 can tell, and then not all of it was written; and `Memory` for want of memory, where a front of it was
/// written. There is no other status.
pub fn generate<K: Sink>(alloc: Global, sink: &mut K, numbers: &Numbers) -> Status
    ensures text { Generates (K.held sink.old) (K.held sink.new) (script_of numbers.now.rounds numbers.now.seed) result }
    ensures write { result ≡ Status.WriteFault → Rose (K.faults sink.old) (K.faults sink.new) }
    ensures write_well { result ≢ Status.WriteFault → K.faults sink.new ≡ K.faults sink.old }
    ensures write_later { K.faults sink.old ≤ K.faults sink.new }
{
    let mut buffer = Vec::new(alloc);
    let mut course = Course::new(numbers.seed());
    let mut left = numbers.rounds();
    let mut round: u32 = 1;
    match put_first_lines(&mut buffer) {
        Ok(()) => {}
        Err(_) => return Status::Memory,
    }
    'rounds: while left > 0 {
        match course.put_round(&mut buffer, round) {
            Ok(()) => {}
            Err(_) => return Status::Memory,
        }
        if move_out(sink, &mut buffer) {
            return Status::WriteFault;
        }
        left -= 1;
        round += 1;
    }
    if write_counted(sink, &buffer).fault {
        return Status::WriteFault;
    }
    Status::Done
}

// writes what is in the buffer where it is full, and says whether a fault ended the writing
fn move_out<K: Sink>(sink: &mut K, buffer: &mut Vec<u8>) -> bool
    ensures text { MovesOut (K.held sink.old) (K.held sink.new) buffer.old.items buffer.new.items result }
    ensures cause { HasCause (K.faults sink.old) (K.faults sink.new) result }
{
    if buffer.len() < FULL {
        return false;
    }
    if write_counted(sink, buffer).fault {
        return true;
    }
    buffer.clear();
    false
}
