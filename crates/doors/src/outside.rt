//! The outside, which gives workers.

ghost use Rattle.std.specs.Prelude.{◌≡◌, ◌≢◌, ◌≤◌, ◌<◌, ◌+◌, ◌-◌, ◌^◌, ◌↔◌, ℕ, [], ◌∷◌, None, Err, IfOk, is_ok, min};
ghost use Rattle.std.specs.declared.option.Option.{Option};
ghost use Rattle.edge_base.specs.Causes.{Rose};
ghost use Rattle.doors.specs.Address.{address_of};
ghost use Rattle.doors.specs.Outside.{Diary, DiaryGrows, HasFaultCause, Hired, IsNew, Listened, Placed, fault_in, tells_of};

use crate::door::Door;
use edge_base::Clock;
use listing::Text;
use std::alloc::Global;
use std::sync::Wait;
use std::thread::Threads;
use upstream_gate::Gate;

/// Why the outside gives nothing.
#[derive(Clone, Copy, Debug, PartialEq, Eq)]
pub enum OutsideFault {
    /// The text is no address to listen at.
    BadAddress,
    /// A fault, which the outside has counted.
    Failed,
    /// Want of memory.
    Memory,
}

/// What serves connections one after the other: where they come from, how content is asked for, and the time.
#[derive(Drop)]
pub struct Worker<D, G, C> {
    pub door: D,
    pub gate: G,
    pub clock: C,
}

/// Listens at an address, gives workers, which are given back, and has files of places.
///
/// Its calls and what the workers told that were given back may be told, as of an outside in memory, or not, as of one over
/// sockets. The count of faults never falls.
pub trait Outside: Drop {
    type D: Door + Send;

    type G: Gate + Send;

    type C: Clock + Send;

    ghost faults: { Self → ℕ };

    /// How many workers were given back, up to 2^64 - 1.
    ghost returned: { Self → ℕ };

    ghost diary: { Self → Option Diary };

    /// Listens at this address: an IPv4 address, or an IPv6 address in brackets, then `:` and a port.
    ///
    /// # Errors
    /// `BadAddress` exactly where the text is not that. A fault, which is counted. Want of memory.
    fn listen<R: Threads + Wait + Sync>(
        &mut self,
        rt: &R,
        alloc: Global,
        address: &[u8],
    ) -> Result<(), OutsideFault>
        ensures diary { DiaryGrows (diary self.old) (diary self.new) (Listened address.now (fault_in result) ∷ []) [] }
        ensures returned { returned self.new ≡ returned self.old }
        ensures later { faults self.old ≤ faults self.new }
        ensures cause { HasFaultCause (faults self.old) (faults self.new) result }
        ensures address { (result ≡ Err OutsideFault.BadAddress) ↔ (address_of address.now ≡ None) };

    /// A new worker: its door has counted no fault, and where it is told nothing was given, asked or read yet.
    ///
    /// # Errors
    /// A fault, which is counted. Want of memory.
    fn worker<R: Threads + Wait + Sync>(
        &mut self,
        rt: &R,
        alloc: Global,
    ) -> Result<Worker<Self::D, Self::G, Self::C>, OutsideFault>
        ensures diary { DiaryGrows (diary self.old) (diary self.new) (Hired (is_ok result) ∷ []) [] }
        ensures returned { returned self.new ≡ returned self.old }
        ensures later { faults self.old ≤ faults self.new }
        ensures cause { HasFaultCause (faults self.old) (faults self.new) result }
        ensures address { result ≢ Err OutsideFault.BadAddress }
        ensures fresh { IfOk result (λ w. IsNew (tells_of Self.D.book Self.D.faults Self.G.exchanges Self.C.given w)) };

    /// The text of the file of places at this path.
    ///
    /// # Errors
    /// A fault, which is counted. Want of memory.
    fn places<R: Threads + Wait + Sync>(
        &mut self,
        rt: &R,
        alloc: Global,
        path: &[u8],
    ) -> Result<Text, OutsideFault>
        ensures diary { DiaryGrows (diary self.old) (diary self.new) (Placed path.now result ∷ []) [] }
        ensures returned { returned self.new ≡ returned self.old }
        ensures later { faults self.old ≤ faults self.new }
        ensures cause { HasFaultCause (faults self.old) (faults self.new) result }
        ensures address { result ≢ Err OutsideFault.BadAddress };

    /// Takes a worker back. It never fails. A worker whose door has counted a fault counts as a fault.
    fn give_back(&mut self, worker: Worker<Self::D, Self::G, Self::C>)
        ensures diary { DiaryGrows (diary self.old) (diary self.new) []
            (tells_of Self.D.book Self.D.faults Self.G.exchanges Self.C.given worker ∷ []) }
        ensures returned { returned self.new ≡ min (returned self.old + 1) (2 ^ 64 - 1) }
        ensures later { faults self.old ≤ faults self.new }
        ensures cause { 0 < Self.D.faults worker.door → Rose (faults self.old) (faults self.new) };
}
