//! The real streams of the process, files and the like.

ghost use Rattle.std.specs.Prelude.{◌≡◌};
ghost use Rattle.edge_base.specs.StdStreams.{read_answer, write_answer};

use crate::causes::count_fault;
use crate::sink::{Put, Sink};
use crate::source::{Source, Took};
use std::io;
use std::io::{Read, Write};

/// A source over any reader of the library. It tells what is left where the reader does.
#[derive(Drop)]
pub struct StdSource<R: Read + Drop> {
    reader: R,
    faults: u64,
}

impl<R: Read + Drop> StdSource<R> {
    /// A source over `reader`, with no fault yet.
    pub fn new(reader: R) -> StdSource<R>
        ensures { result ≡ record { reader = reader; faults = 0 } }
    {
        StdSource { reader, faults: 0 }
    }

    /// How many of its calls failed, up to 2^64 - 1.
    pub fn faults(&self) -> u64
        ensures { result ≡ self.now.faults }
    {
        self.faults
    }
}

impl<R: Read + Drop> Source for StdSource<R> {
    ghost use Rattle.std.specs.Prelude.{◌<◌, length};
    ghost use Rattle.edge_base.specs.Source.{IsCount, Reads, HasReadCause};
    ghost use Rattle.edge_base.specs.StdStreams.{count_after_read};

    ghost left = { λ s. R.remaining s.reader };

    ghost faults = { λ s. s.faults };

    fn read(&mut self, buf: &mut [u8]) -> Took
        requires { 0 < length buf.old }
        ensures count { IsCount (length buf.new) result }
        ensures bytes { Reads (R.remaining self.old.reader) (R.remaining self.new.reader) buf.new result }
        ensures faults { self.new.faults ≡ count_after_read result self.old.faults }
        ensures cause { HasReadCause self.old.faults self.new.faults result }
    {
        let faults = self.faults;
        let took = took_from(self.reader.read(buf));
        if took == Took::Failed {
            self.faults = count_fault(faults);
        }
        took
    }
}

// what a source answers where the reader, asked for one byte at least, had this outcome
fn took_from(outcome: io::Result<usize>) -> Took
    ensures { result ≡ read_answer outcome }
{
    match outcome {
        Ok(0) => Took::End,
        Ok(count) => Took::Some(count),
        Err(_) => Took::Failed,
    }
}

/// A sink over any writer of the library. It tells what it holds where the writer does.
/// A write that takes nothing counts as a fault.
#[derive(Drop)]
pub struct StdSink<W: Write + Drop> {
    writer: W,
    faults: u64,
}

impl<W: Write + Drop> StdSink<W> {
    /// A sink over `writer`, with no fault yet.
    pub fn new(writer: W) -> StdSink<W>
        ensures { result ≡ record { writer = writer; faults = 0 } }
    {
        StdSink { writer, faults: 0 }
    }

    /// How many of its calls failed, up to 2^64 - 1.
    pub fn faults(&self) -> u64
        ensures { result ≡ self.now.faults }
    {
        self.faults
    }
}

impl<W: Write + Drop> Sink for StdSink<W> {
    ghost use Rattle.std.specs.Prelude.{◌<◌, length};
    ghost use Rattle.edge_base.specs.Sink.{IsPutCount, Writes, HasWriteCause};
    ghost use Rattle.edge_base.specs.StdStreams.{count_after_write};

    ghost held = { λ s. W.contents s.writer };

    ghost faults = { λ s. s.faults };

    fn write(&mut self, piece: &[u8]) -> Put
        requires { 0 < length piece.now }
        ensures count { IsPutCount (length piece.now) result }
        ensures bytes { Writes (W.contents self.old.writer) (W.contents self.new.writer) piece.now result }
        ensures faults { self.new.faults ≡ count_after_write result self.old.faults }
        ensures cause { HasWriteCause self.old.faults self.new.faults result }
    {
        let faults = self.faults;
        let put = put_from(self.writer.write(piece));
        if put == Put::Failed {
            self.faults = count_fault(faults);
        }
        put
    }
}

// what a sink answers where the writer, offered one byte at least, had this outcome
fn put_from(outcome: io::Result<usize>) -> Put
    ensures { result ≡ write_answer outcome }
{
    match outcome {
        Ok(count) if count > 0 => Put::Some(count),
        _ => Put::Failed,
    }
}
