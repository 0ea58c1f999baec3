//! The clock of the machine.

ghost use Rattle.std.specs.Prelude.{◌≡◌};
ghost use Rattle.edge_base.specs.WallClock.{moment_of};

use crate::clock::Clock;
use listing::Moment;
use std::time::{SystemTime, UNIX_EPOCH};
use std::{io, time};

/// The time of day of the machine. It does not tell what it gave.
#[derive(Drop)]
pub struct WallClock<C: time::Clock + Drop> {
    clock: C,
}

impl<C: time::Clock + Drop> WallClock<C> {
    /// The time of day that `clock` gives, as the runtime of the process does.
    pub fn new(clock: C) -> WallClock<C>
        ensures { result ≡ record { clock = clock } }
    {
        WallClock { clock }
    }
}

impl<C: time::Clock + Drop> Clock for WallClock<C> {
    ghost use Rattle.std.specs.Prelude.{None};

    ghost given = { λ _. None };

    /// The moment of this call: 0 where the clock cannot be read, 2^64 - 1 where the time is later.
    fn now(&mut self) -> Moment {
        moment_from(SystemTime::now(&self.clock))
    }
}

// the moment of a reading of the clock
fn moment_from(reading: io::Result<SystemTime>) -> Moment
    ensures { result ≡ moment_of reading }
{
    match reading {
        Ok(time) => match time.duration_since(UNIX_EPOCH) {
            Ok(since) => {
                let milliseconds = since.as_millis();
                if milliseconds < u64::MAX as u128 {
                    milliseconds as u64
                } else {
                    u64::MAX
                }
            }
            Err(_) => 0,
        },
        Err(_) => 0,
    }
}
