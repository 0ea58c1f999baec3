//! A sink of bytes.

ghost use Rattle.std.specs.Prelude.{ℕ, List, ◌<◌, length};
ghost use Rattle.std.specs.declared.option.Option.{Option};
ghost use Rattle.edge_base.specs.Sink.{IsPutCount, Writes, HasWriteCause};

/// What a write took.
#[derive(Clone, Copy, Debug, PartialEq, Eq)]
pub enum Put {
    /// So many bytes, one or more.
    Some(usize),
    /// Nothing, by a fault, which the sink has counted.
    Failed,
}

/// Bytes that are written in order.
///
/// What it holds may be told, as of a sink in memory, or not, as of a file or a socket.
/// The count of faults never falls.
pub trait Sink: Drop {
    ghost held: { Self → Option (List ℕ) };

    ghost faults: { Self → ℕ };

    /// Takes the front of `piece`, as much as it likes but one byte at least.
    fn write(&mut self, piece: &[u8]) -> Put
        requires { 0 < length piece.now }
        ensures count { IsPutCount (length piece.now) result }
        ensures bytes { Writes (held self.old) (held self.new) piece.now result }
        ensures cause { HasWriteCause (faults self.old) (faults self.new) result };
}
