//! Connections that are open, and which of them have something for a worker.

ghost use Rattle.std.specs.Prelude.{◌≡◌, ◌⊎◌, ◌<◌, ◌≤◌, ◌+◌, ◌-◌, ◌^◌, ◌∷◌, ◌++◌, [], ℕ, min, true, Option, Some, None, nat_eq, not, drop, filter, length, if◌then◌else◌, IfSome, IfNone, IsSome, IsTrue, ◌↔◌};
ghost use Rattle.std.specs.VecDeque.{deque_len, deque_capacity};
ghost use Rattle.std.specs.Option.{option_to_list};
ghost use Rattle.indexmap.specs.IndexMap.{index_map_len, values, IsEmpty, IsUnchanged, Updates};
ghost use Rattle.client_desk.specs.declared.parked.TheConstants.{COUNTED_MAX, LISTENER, MESSAGES_MAX};
ghost use Rattle.client_desk.specs.Parked.{is_late, is_expired, is_spare, is_favoured, new_slot, slot_at, parked_at, told_fd, with_parked, told, IsCounted, KeepsOrder};
ghost use Rattle.client_desk.specs.Parked.{time_for, counted, gathered, gathered_by, gathered_in, gathered_without, is_old_message, is_old, left_after, with_came};

use indexmap::IndexMap;
use location_acl::Ip;
use sockets::{STEP_BYTES, Waits};
use std::alloc::Global;
use std::collections::VecDeque;
use std::net::TcpStream;
use std::os::fd::RawFd;

/// The token of the listener.
pub const LISTENER: u64 = 0;

/// After how many turns in a row a connection is the only one that asks.
const STREAK: u64 = 16;

/// How much what came of messages may take together, in bytes, before their workers have them.
pub const MESSAGES_MAX: u64 = 67_108_864;

/// What came of messages is counted again after so many bytes more.
const COUNTED_MAX: u64 = 4_194_304;

/// No message is waited for as long as this, in milliseconds.
const LONGEST: u64 = 65_536;

/// What a connection waits for that no worker has.
#[derive(Clone, Copy, Debug, PartialEq, Eq)]
pub enum Waiting {
    /// The rest of its next head, or all of it.
    Head,
    /// The rest of its next message, whose head came: so many bytes with those that came.
    Message(usize),
    /// Its end. Up to so many bytes more are read and not looked at.
    End(usize),
}

/// A connection that no worker has.
#[derive(Drop)]
pub struct Parked {
    pub stream: TcpStream,
    /// The address of its client.
    pub ip: Ip,
    /// What it waits for.
    pub waiting: Waiting,
    /// What came of its next message.
    pub got: Vec<u8>,
    /// The millisecond at which it came, or ended its last request; 0 where that is not known yet.
    pub since: u64,
    /// The millisecond of the first byte of its next head, or of the last one where the rest of the message is waited for;
    /// 0 where none came.
    pub born: u64,
    /// Its token.
    pub token: u64,
}

// whether it waited too long
fn is_late(parked: &Parked, now: u64, waits: &Waits) -> bool
    ensures { result ≡ is_late now waits.now parked.now }
{
    match parked.waiting {
        Waiting::Head => {
            if parked.got.is_empty() {
                now.saturating_sub(parked.since) >= waits.idle
            } else {
                now.saturating_sub(parked.born) >= waits.head
            }
        }
        Waiting::Message(_) => now.saturating_sub(parked.born) >= time_for(parked.got.len(), waits),
        Waiting::End(_) => now.saturating_sub(parked.since) >= waits.linger,
    }
}

// how long a message may take of which so many bytes came
fn time_for(count: usize, waits: &Waits) -> u64
    ensures { result ≡ time_for count waits.now }
{
    let more = (count as u64 / STEP_BYTES).saturating_mul(waits.step);
    waits.floor.saturating_add(more)
}

// how many bytes came of the message whose rest it waits for
fn gathered_by(parked: &Parked) -> usize
    ensures { result ≡ gathered_by parked.now }
{
    match parked.waiting {
        Waiting::Head => 0,
        Waiting::Message(_) => parked.got.len(),
        Waiting::End(_) => 0,
    }
}

// whether it waits for the rest of its message, since this moment or before; where none is told, since whenever
fn is_old_message(parked: &Parked, moment: Option<u64>) -> bool
    ensures { result ≡ is_old_message moment parked.now }
{
    match parked.waiting {
        Waiting::Head => false,
        Waiting::Message(_) => match moment {
            Some(moment) => parked.born <= moment,
            None => true,
        },
        Waiting::End(_) => false,
    }
}

/// What is known of an open connection.
#[derive(Drop)]
pub struct Slot {
    fd: RawFd,
    // whether the epoll tells of it
    told: bool,
    // the connection, unless a worker has it
    parked: Option<Parked>,
}

/// All open connections, each under a token that no other one has or had.
#[derive(Drop)]
pub struct Lot {
    slots: IndexMap<u64, Slot>,
    next: u64,
    // the tokens of those that have something for a worker, in the order in which the epoll told of them
    ready: VecDeque<u64>,
    // which connection was given to a worker last, and how many times in a row
    last: u64,
    streak: u64,
    // how many bytes of messages came since they were counted
    came: u64,
}

impl Lot {
    /// None; the tokens begin with 1.
    pub fn new(alloc: Global) -> Lot
        ensures empty { IsEmpty result.slots }
        ensures ready { result.ready.items ≡ [] }
    {
        Lot {
            slots: IndexMap::new(alloc),
            next: 1,
            ready: VecDeque::new(alloc),
            last: 0,
            streak: 0,
            came: 0,
        }
    }

    /// How many are open.
    pub fn len(&self) -> usize
        ensures { result ≡ index_map_len self.now.slots }
    {
        self.slots.len()
    }

    /// Whether no other connection than this one asks: it was given to a worker many times in a row.
    pub fn is_favoured(&self, token: u64) -> bool
        ensures { result ≡ is_favoured self.now token }
    {
        self.last == token && self.streak >= STREAK
    }

    // notes that this connection is given to a worker
    fn count(&mut self, token: u64)
        ensures counted { IsCounted self.old self.new token }
        ensures slots { self.new.slots ≡ self.old.slots }
        ensures ready { self.new.ready ≡ self.old.ready }
        ensures next { self.new.next ≡ self.old.next }
    {
        self.streak = if self.last == token {
            self.streak.saturating_add(1)
        } else {
            1
        };
        self.last = token;
    }

    /// A connection of a worker, under the next token; none where no memory or no token is left.
    pub fn admit(&mut self, fd: RawFd) -> Option<u64>
        ensures token { IfSome result (λ token. token ≡ self.old.next) }
        ensures next { IfSome result (λ token. self.new.next ≡ self.old.next + 1) }
        ensures slot { IfSome result (λ token. Updates nat_eq self.old.slots self.new.slots token (Some (new_slot fd))) }
        ensures counted { IfSome result (λ token. IsCounted self.old self.new token) }
        ensures ready { self.new.ready ≡ self.old.ready }
        ensures kept { IfNone result ((self.new.next ≡ self.old.next) × IsUnchanged self.old.slots self.new.slots) }
    {
        let token = self.next;
        let next = token.checked_add(1)?;
        let slot = Slot {
            fd,
            told: false,
            parked: None,
        };
        match self.slots.insert(token, slot) {
            Ok(_) => {}
            Err(_) => return None,
        }
        self.next = next;
        self.count(token);
        Some(token)
    }

    /// Keeps a connection that no worker has any more; whether the epoll tells of it. One that was not admitted is closed.
    pub fn keep(&mut self, parked: Parked) -> bool
        ensures told { IfSome (slot_at self.old parked.token) (λ slot. result ≡ slot.told) }
        ensures kept { IfSome (slot_at self.old parked.token) (λ slot.
            Updates nat_eq self.old.slots self.new.slots parked.token (Some (with_parked slot (Some parked)))) }
        ensures closed { IfNone (slot_at self.old parked.token) ((result ≡ true) × IsUnchanged self.old.slots self.new.slots) }
        ensures order { KeepsOrder self.old self.new }
    {
        match self.slots.get_mut(&parked.token) {
            Some(slot) => {
                slot.parked = Some(parked);
                slot.told
            }
            None => true,
        }
    }

    /// The epoll tells of this connection from now on.
    pub fn tell(&mut self, token: u64)
        ensures told { IfSome (slot_at self.old token) (λ slot.
            Updates nat_eq self.old.slots self.new.slots token (Some (told slot))) }
        ensures order { KeepsOrder self.old self.new }
    {
        if let Some(slot) = self.slots.get_mut(&token) {
            slot.told = true;
        }
    }

    /// Takes a connection out for a worker.
    pub fn take(&mut self, token: u64) -> Option<Parked>
        ensures given { result ≡ parked_at self.old token }
        ensures taken { IfSome result (λ _. parked_at self.new token ≡ None) }
        ensures counted { IfSome result (λ _. IsCounted self.old self.new token) }
        ensures ready { self.new.ready ≡ self.old.ready }
        ensures next { self.new.next ≡ self.old.next }
    {
        let slot = self.slots.get_mut(&token)?;
        let parked = slot.parked.take()?;
        self.count(token);
        Some(parked)
    }

    /// A connection is closed, or is about to be.
    pub fn forget(&mut self, token: u64)
        ensures gone { Updates nat_eq self.old.slots self.new.slots token None }
        ensures order { KeepsOrder self.old self.new }
    {
        drop(self.slots.swap_remove(&token));
    }

    /// Notes that something came of this connection. Where a worker has it, the epoll is to forget this descriptor.
    pub fn note(&mut self, token: u64) -> Option<RawFd>
        ensures forgotten { result ≡ told_fd self.old token }
        ensures queued { IsSome (parked_at self.old token) → deque_len self.old.ready < deque_capacity self.old.ready →
            self.new.ready.items ≡ self.old.ready.items ++ token ∷ [] }
        ensures next { self.new.next ≡ self.old.next }
    {
        let slot = self.slots.get_mut(&token)?;
        if slot.parked.is_some() {
            let _ = self.ready.push_back(token);
            return None;
        }
        if slot.told {
            slot.told = false;
            return Some(slot.fd);
        }
        None
    }

    /// Notes that something came for the listener.
    pub fn note_listener(&mut self)
        ensures queued { deque_len self.old.ready < deque_capacity self.old.ready →
            self.new.ready.items ≡ self.old.ready.items ++ LISTENER ∷ [] }
        ensures next { self.new.next ≡ self.old.next }
    {
        let _ = self.ready.push_back(LISTENER);
    }

    /// The first token of those that have something for a worker.
    pub fn next_ready(&mut self) -> Option<u64>
        ensures first { self.old.ready.items ≡ option_to_list result ++ self.new.ready.items }
        ensures none { IfNone result (self.old.ready.items ≡ []) }
        ensures rest { self.new.ready.items ≡ drop 1 self.old.ready.items }
        ensures slots { self.new.slots ≡ self.old.slots }
        ensures next { self.new.next ≡ self.old.next }
    {
        self.ready.pop_front()
    }

    /// Whether some have something for a worker.
    pub fn is_ready(&self) -> bool
        ensures { IsTrue result ↔ (0 < length self.now.ready.items) }
    {
        !self.ready.is_empty()
    }

    /// Closes those that waited too long.
    pub fn expire(&mut self, now: u64, waits: &Waits)
        ensures kept { self.new.slots.entries ≡ filter (λ entry. not (is_expired now waits.now entry.1)) self.old.slots.entries }
        ensures order { KeepsOrder self.old self.new }
    {
        self.slots.retain(
            |_token: &u64, slot: &mut Slot| -> bool
                ensures { (result ≡ not (is_expired now waits.entry.now slot.old)) × (slot.new ≡ slot.old) }
            {
                match &slot.parked {
                    Some(parked) => !is_late(parked, now, waits),
                    None => true,
                }
            },
        );
    }

    /// Closes those that waited for this many milliseconds.
    pub fn make_room(&mut self, now: u64, time: u64)
        ensures kept { self.new.slots.entries ≡ filter (λ entry. not (is_spare now time entry.1)) self.old.slots.entries }
        ensures order { KeepsOrder self.old self.new }
    {
        self.slots.retain(
            |_token: &u64, slot: &mut Slot| -> bool
                ensures { (result ≡ not (is_spare now time slot.old)) × (slot.new ≡ slot.old) }
            {
                match &slot.parked {
                    Some(parked) => now.saturating_sub(parked.since) < time,
                    None => true,
                }
            },
        );
    }

    /// Notes that so many bytes of a message came; whether all are to be counted again.
    pub fn note_bytes(&mut self, count: usize) -> bool
        ensures due { IsTrue result ↔ (COUNTED_MAX ≤ self.old.came + count) }
        ensures noted { self.new ≡ with_came self.old (if result then 0 else self.old.came + count) }
    {
        let came = self.came.saturating_add(count as u64);
        if came < COUNTED_MAX {
            self.came = came;
            return false;
        }
        self.came = 0;
        true
    }

    // how many bytes came of messages whose rest is waited for, up to 2^64 - 1
    fn gathered(&self) -> u64
        ensures { result ≡ counted gathered_in (values self.now.slots) }
    {
        self.slots.values().fold(
            0u64,
            |sum: u64, slot: &Slot| -> u64
                ensures { result ≡ min (sum + gathered_in slot.now) (2 ^ 64 - 1) }
            { sum.saturating_add(gathered_in(slot)) },
        )
    }

    // how many come of those alone that are left where the old ones are closed
    fn gathered_without(&self, moment: Option<u64>) -> u64
        ensures { result ≡ counted (gathered_without moment) (values self.now.slots) }
    {
        self.slots.values().fold(
            0u64,
            |sum: u64, slot: &Slot| -> u64
                ensures { result ≡ min (sum + gathered_without moment slot.now) (2 ^ 64 - 1) }
            { sum.saturating_add(gathered_without(slot, moment)) },
        )
    }

    #[tactic(auto, using(crate::proofs::GatheredLemmas::left_within, crate::proofs::GatheredLemmas::none_within))]
    // a moment such that what is left takes no more than it may where the messages are closed that were waited for then; none
    // where all are to be closed
    fn moment_for(&self, now: u64) -> Option<u64>
        ensures { gathered (left_after result self.now) ≤ MESSAGES_MAX }
    {
        let mut moment = now.saturating_sub(LONGEST);
        'moments: while moment < now {
            if self.gathered_without(Some(moment)) <= MESSAGES_MAX {
                return Some(moment);
            }
            moment += (now - moment) / 2 + 1;
        }
        None
    }

    #[tactic(auto, using(crate::proofs::GatheredLemmas::all_within, crate::proofs::GatheredLemmas::all_above))]
    /// Where what came of messages takes more than it may, closes those that are waited for longest.
    pub fn keep_within(&mut self, now: u64)
        ensures within { gathered self.new.slots.entries ≤ MESSAGES_MAX }
        ensures oldest { (self.new.slots.entries ≡ self.old.slots.entries)
            ⊎ ((moment : Option ℕ) × (self.new.slots.entries ≡ left_after moment self.old)) }
        ensures spared { gathered self.old.slots.entries ≤ MESSAGES_MAX → self.new.slots.entries ≡ self.old.slots.entries }
        ensures order { KeepsOrder self.old self.new }
    {
        if self.gathered() > MESSAGES_MAX {
            let moment = self.moment_for(now);
            self.close_messages(moment);
        }
    }

    // closes the connections whose messages are waited for since this moment or before
    fn close_messages(&mut self, moment: Option<u64>)
        ensures kept { self.new.slots.entries ≡ left_after moment self.old }
        ensures order { KeepsOrder self.old self.new }
    {
        self.slots.retain(
            |_token: &u64, slot: &mut Slot| -> bool
                ensures { (result ≡ not (is_old moment slot.old)) × (slot.new ≡ slot.old) }
            {
                match &slot.parked {
                    Some(parked) => !is_old_message(parked, moment),
                    None => true,
                }
            },
        );
    }
}

// how many bytes came of the message whose rest it waits for, where no worker has it
fn gathered_in(slot: &Slot) -> u64
    ensures { result ≡ gathered_in slot.now }
{
    match &slot.parked {
        Some(parked) => gathered_by(parked) as u64,
        None => 0,
    }
}

// the same, and none where that message is waited for since this moment or before
fn gathered_without(slot: &Slot, moment: Option<u64>) -> u64
    ensures { result ≡ gathered_without moment slot.now }
{
    match &slot.parked {
        Some(parked) => if is_old_message(parked, moment) {
            0
        } else {
            gathered_by(parked) as u64
        },
        None => 0,
    }
}
