//! What the numbers are that definitions take from the code: a constant that stands in both could be wrong in both.
//! The function does nothing: its contract gives the numbers.

ghost use Rattle.std.specs.Prelude.{◌≡◌};
ghost use Rattle.client_desk.specs.declared.absent.TheConstants.{LAST_WAIT, LAST_WAIT_FOR_ORIGIN, STUCK};
ghost use Rattle.client_desk.specs.declared.origins.TheConstants.{ORIGINS_MAX};
ghost use Rattle.client_desk.specs.declared.parked.TheConstants.{COUNTED_MAX, LISTENER, MESSAGES_MAX, STREAK};
ghost use Rattle.client_desk.specs.declared.post.TheConstants.{PATIENCE, PAUSE};

/// The token of the listener, and after how many turns in a row a connection is the only one that asks; how much of messages
/// is gathered at most, and after how much more that is counted again.
pub fn numbers_of_connections()
    ensures listener { LISTENER ≡ 0 }
    ensures streak { STREAK ≡ 16 }
    ensures messages { MESSAGES_MAX ≡ 67108864 }
    ensures counted { COUNTED_MAX ≡ 4194304 }
{}

/// How many milliseconds a client and an origin may be waited for where no worker is left, for how many nobody takes what is
/// ready then, and how many origins are doubted; and how many microseconds what is ready waits.
pub fn numbers_of_waits()
    ensures client { LAST_WAIT ≡ 1000 }
    ensures origin { LAST_WAIT_FOR_ORIGIN ≡ 3000 }
    ensures stuck { STUCK ≡ 20 }
    ensures origins { ORIGINS_MAX ≡ 64 }
    ensures patience { PATIENCE ≡ 1000 }
    ensures pause { PAUSE ≡ 20 }
{}
