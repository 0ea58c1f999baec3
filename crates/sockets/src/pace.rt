//! How slowly the bytes of one message may move.

ghost use Rattle.std.specs.Prelude.{◌≡◌, ◌≤◌, IsTrue};
ghost use Rattle.sockets.specs.Pace.{left_of, after_move, after_wait};

use crate::waits::Waits;

/// The bytes that buy a slow peer one step more.
pub const STEP_BYTES: u64 = 65_536;

/// The time that the bytes of one message have taken, and how much they may take, in milliseconds.
#[derive(Clone, Copy, Debug)]
pub struct Pace {
    // what all waits together may take, before a byte moved
    pub floor: u64,
    // how much more for each 65,536 bytes
    pub step: u64,
    // how long nothing at all may move
    pub quiet: u64,
    // whether the waits before the first byte count towards the floor
    pub strict: bool,
    // what the waits took
    pub spent: u64,
    // what the waits took since a byte moved
    pub silent: u64,
    // how many bytes moved
    pub moved: u64,
}

impl Pace {
    /// Of a client, which is to send or to take from the beginning.
    pub fn of_client(waits: &Waits) -> Pace {
        Pace {
            floor: waits.floor,
            step: waits.step,
            quiet: u64::MAX,
            strict: true,
            spent: 0,
            silent: 0,
            moved: 0,
        }
    }

    /// Of an origin, which may take its time before it answers.
    pub fn of_origin(waits: &Waits) -> Pace {
        Pace {
            floor: waits.floor,
            step: waits.step,
            quiet: waits.quiet,
            strict: false,
            spent: 0,
            silent: 0,
            moved: 0,
        }
    }

    /// Begins with the next message.
    pub fn begin(&mut self) {
        self.spent = 0;
        self.silent = 0;
        self.moved = 0;
    }

    /// How long the next wait may be; 0 where the peer was too slow.
    pub fn left(&self) -> u64
        ensures { result ≡ left_of self.now }
    {
        let more = (self.moved / STEP_BYTES).saturating_mul(self.step);
        let whole = self.floor.saturating_add(more).saturating_sub(self.spent);
        whole.min(self.quiet.saturating_sub(self.silent))
    }

    /// Notes that so many bytes moved.
    pub fn note_move(&mut self, count: usize)
        ensures { self.new ≡ after_move count self.old }
    {
        self.moved = self.moved.saturating_add(count as u64);
        self.silent = 0;
    }

    /// Notes a wait of so long.
    pub fn note_wait(&mut self, took: u64)
        ensures { self.new ≡ after_wait took self.old }
    {
        self.silent = self.silent.saturating_add(took);
        if self.strict || self.moved > 0 {
            self.spent = self.spent.saturating_add(took);
        }
    }
}
