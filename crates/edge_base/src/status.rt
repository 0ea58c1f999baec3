//! How a command ended.

ghost use Rattle.std.specs.Prelude.{◌≡◌};
ghost use Rattle.edge_base.specs.Status.{number_of_status};

/// How a command ended.
#[derive(Clone, Copy, Debug, PartialEq, Eq)]
pub enum Status {
    /// The input was read to its end and all answers were written.
    Done,
    /// A line is not in the grammar of scripts.
    Script,
    /// The words are no command.
    Usage,
    /// The input failed.
    ReadFault,
    /// The output failed.
    WriteFault,
    /// Want of memory.
    Memory,
    /// Something else of the outside failed.
    Outside,
}

impl Status {
    /// The exit status of the program, from 0 to 6 in the order of the variants.
    pub fn number(&self) -> u8
        ensures { result ≡ number_of_status self.now }
    {
        match self {
            Status::Done => 0,
            Status::Script => 1,
            Status::Usage => 2,
            Status::ReadFault => 3,
            Status::WriteFault => 4,
            Status::Memory => 5,
            Status::Outside => 6,
        }
    }
}
