//! The lines of any source, one after the other.

ghost use Rattle.std.specs.Prelude.{◌≡◌, [], IfOk};
ghost use Rattle.replay_script.specs.Ahead.{ReadsLine, HasLineCause};

use crate::ahead::{Ahead, LineRead};
use edge_base::Source;
use std::alloc::{AllocError, Global};
use std::marker::Model;

/// What was read ahead of the lines, and the last line: it stands where it was read, or was joined of several reads.
#[derive(Drop)]
pub struct Lines {
    ahead: Ahead,
    joined: Vec<u8>,
    is_joined: bool,
}

impl Model for Lines {
    ghost use Rattle.std.specs.Prelude.{if◌then◌else◌};
    ghost use Rattle.replay_script.specs.Lines.{Buffered};

    ghost Value = { Buffered };

    ghost view = { λ l. record { line = if l.is_joined then l.joined.items else l.ahead.line; ahead = l.ahead.ahead } };
}

impl Lines {
    /// Nothing read ahead yet, and no line.
    ///
    /// # Errors
    /// Want of memory.
    pub fn new(alloc: Global) -> Result<Lines, AllocError>
        ensures { IfOk result (λ l. l ≡ record { line = []; ahead = [] }) }
    {
        Ok(Lines {
            ahead: Ahead::new(alloc)?,
            joined: Vec::new(alloc),
            is_joined: false,
        })
    }

    /// The line that was read last, without its line feed.
    pub fn line(&self) -> &[u8]
        ensures { result.now ≡ self.now.line }
    {
        if self.is_joined {
            &self.joined
        } else {
            self.ahead.line()
        }
    }

    /// Reads the next line of the source. It takes memory only where the line does not stand whole in what was read
    /// ahead.
    pub fn next_line<S: Source>(&mut self, source: &mut S) -> LineRead
        ensures line { ReadsLine (S.left source.old)
            (S.left source.new) self.old.ahead self.new.ahead self.new.line result }
        ensures cause { HasLineCause (S.faults source.old) (S.faults source.new) result }
    {
        self.is_joined = !self.ahead.take_whole();
        if self.is_joined {
            self.ahead.next_line(source, &mut self.joined)
        } else {
            LineRead::Line
        }
    }
}
