//! A source of bytes.

ghost use Rattle.std.specs.Prelude.{ℕ, List, ◌<◌, length};
ghost use Rattle.std.specs.declared.option.Option.{Option};
ghost use Rattle.edge_base.specs.Source.{IsCount, Reads, HasReadCause};

/// What a read gave.
#[derive(Clone, Copy, Debug, PartialEq, Eq)]
pub enum Took {
    /// So many bytes, one or more.
    Some(usize),
    /// Nothing is left.
    End,
    /// A fault, which the source has counted.
    Failed,
}

/// Bytes that are read in order.
///
/// What is left may be told, as of a source in memory, or not, as of a file or a socket.
/// The count of faults never falls.
pub trait Source: Drop {
    ghost left: { Self → Option (List ℕ) };

    ghost faults: { Self → ℕ };

    /// Reads the next bytes into the front of `buf`, as many as it likes but one at least.
    fn read(&mut self, buf: &mut [u8]) -> Took
        requires { 0 < length buf.old }
        ensures count { IsCount (length buf.new) result }
        ensures bytes { Reads (left self.old) (left self.new) buf.new result }
        ensures cause { HasReadCause (faults self.old) (faults self.new) result };
}
