//! What is read ahead of the lines of a source.

ghost use Rattle.std.specs.Prelude.{◌≡◌, ℕ, ◌<◌, ◌≤◌, true, false, [], length, take, drop, IfOk};
ghost use Rattle.replay_script.specs.Ahead.{EndsLine, Refills, TakesPiece, ReadsLine, HasLineCause};
ghost use Rattle.edge_base.specs.Source.{HasReadCause};

use crate::step::LINE_LIMIT;
use edge_base::{Source, Took};
use memchr::memchr;
use script_line::LINE_FEED;
use std::alloc::{AllocError, Global};
use std::marker::Model;

/// How many bytes are read at once, at most.
const READ_SIZE: usize = 65_536;

/// What reading a line gave.
#[derive(Clone, Copy, Debug, PartialEq, Eq)]
pub enum LineRead {
    /// A line that ended in a line feed.
    Line,
    /// The bytes up to the source's end, of which none is a line feed.
    End,
    /// 40,000,000 bytes without a line feed.
    TooLong,
    /// The source failed.
    Failed,
    /// Want of memory.
    Memory,
}

/// What a piece of what was read ahead gave.
#[derive(Clone, Copy, Debug, PartialEq, Eq)]
pub enum Piece {
    /// It ended the line.
    Line,
    /// The line goes on.
    More,
    /// The line is too long.
    TooLong,
    /// Want of memory.
    Memory,
}

/// What was read ahead, and the line before it where that stands whole in what was read.
#[derive(Drop)]
pub struct Ahead {
    bytes: Vec<u8>,
    line_from: usize,
    line_to: usize,
    from: usize,
    to: usize,
}

impl Model for Ahead {
    ghost use Rattle.std.specs.Prelude.{ℕ, ◌<◌, ◌≤◌, List, take, drop};
    ghost use Rattle.std.specs.Vec.{vec_len};
    ghost use Rattle.replay_script.specs.Lines.{Buffered};
    ghost use Rattle.replay_script.specs.declared.ahead.TheConstants.{READ_SIZE};

    ghost Value = { Buffered };

    ghost view = { λ a. record {
      line = drop a.line_from (take a.line_to a.bytes.items);
      ahead = drop a.from (take a.to a.bytes.items);
    } };

    ghost invariant = { λ a. (a.line_from ≤ a.line_to) × (a.line_to ≤ vec_len a.bytes) × (a.from ≤ a.to)
        × (a.to ≤ vec_len a.bytes)
        × (0 < vec_len a.bytes) × (vec_len a.bytes ≤ READ_SIZE) };
}

impl Ahead {
    /// Nothing read ahead yet, and no line.
    ///
    /// # Errors
    /// Want of memory.
    pub fn new(alloc: Global) -> Result<Ahead, AllocError>
        ensures { IfOk result (λ a. a ≡ record { line = []; ahead = [] }) }
    {
        Ok(Ahead {
            bytes: vec![in alloc; 0; READ_SIZE]?,
            line_from: 0,
            line_to: 0,
            from: 0,
            to: 0,
        })
    }

    /// The line before what is ahead, if it stands whole in what was read.
    pub fn line(&self) -> &[u8]
        ensures { result.now ≡ self.now.line }
    {
        &self.bytes[self.line_from..self.line_to]
    }

    // what is ahead
    fn rest(&self) -> &[u8]
        ensures value { result.now ≡ self.now.ahead }
        ensures short { length result.now ≤ READ_SIZE }
    {
        &self.bytes[self.from..self.to]
    }

    /// Takes the next line where it ends within what is ahead.
    pub fn take_whole(&mut self) -> bool
        ensures whole { result ≡ true → EndsLine self.old.ahead self.new.ahead self.new.line }
        ensures none { result ≡ false → self.new ≡ self.old }
    {
        match memchr(LINE_FEED, self.rest()) {
            Some(place) => {
                self.line_from = self.from;
                self.line_to = self.from + place;
                self.from += place + 1;
                true
            }
            None => false,
        }
    }

    /// Reads the next line of the source into `line`, without its line feed.
    pub fn next_line<S: Source>(&mut self, source: &mut S, line: &mut Vec<u8>) -> LineRead
        ensures line { ReadsLine (S.left source.old)
            (S.left source.new) self.old.ahead self.new.ahead line.new.items result }
        ensures cause { HasLineCause (S.faults source.old) (S.faults source.new) result }
    {
        line.clear();
        'pieces: loop {
            match self.refill(source) {
                Took::Some(_) => {}
                Took::End => return LineRead::End,
                Took::Failed => return LineRead::Failed,
            }
            match self.take_piece(line) {
                Piece::Line => return LineRead::Line,
                Piece::TooLong => return LineRead::TooLong,
                Piece::Memory => return LineRead::Memory,
                Piece::More => {}
            }
        }
    }

    // reads once where nothing is ahead
    fn refill<S: Source>(&mut self, source: &mut S) -> Took
        ensures refilled { Refills (S.left source.old) (S.left source.new) self.old.ahead self.new.ahead result }
        ensures cause { HasReadCause (S.faults source.old) (S.faults source.new) result }
    {
        if self.from < self.to {
            return Took::Some(self.to - self.from);
        }
        self.line_from = 0;
        self.line_to = 0;
        self.from = 0;
        self.to = 0;
        let took = source.read(&mut self.bytes);
        if let Took::Some(count) = took {
            self.to = count;
        }
        took
    }

    // what is ahead, up to this many bytes
    fn window(&self, room: usize) -> &[u8]
        ensures { result.now ≡ take room self.now.ahead }
    {
        let front = self.rest();
        if front.len() < room {
            front
        } else {
            &front[..room]
        }
    }

    // leaves out the first bytes of what is ahead
    fn skip(&mut self, count: usize)
        requires { count ≤ length self.old.ahead }
        ensures { self.new.ahead ≡ drop count self.old.ahead }
    {
        self.from += count;
    }

    // moves what is ahead to the line, up to its end
    fn take_piece(&mut self, line: &mut Vec<u8>) -> Piece
        requires some { 0 < length self.old.ahead }
        requires room { length line.old.items < LINE_LIMIT }
        ensures { TakesPiece self.old.ahead self.new.ahead line.old.items line.new.items result }
    {
        let window = self.window(LINE_LIMIT - line.len());
        match memchr(LINE_FEED, window) {
            Some(place) => match line.extend_from_slice(&window[..place]) {
                Ok(()) => {
                    self.skip(place + 1);
                    Piece::Line
                }
                Err(_) => Piece::Memory,
            },
            None => {
                let count = window.len();
                if line.len() + count == LINE_LIMIT {
                    self.skip(count);
                    return Piece::TooLong;
                }
                match line.extend_from_slice(window) {
                    Ok(()) => {
                        self.skip(count);
                        Piece::More
                    }
                    Err(_) => Piece::Memory,
                }
            }
        }
    }
}
