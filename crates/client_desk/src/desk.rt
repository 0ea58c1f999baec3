//! What the workers share, and what follows of it for one of them.

ghost use Rattle.std.specs.Prelude.{◌≡◌, ◌≢◌, ◌⊎◌, ◌≤◌, ◌<◌, ◌-◌, true, false, None, nat_eq, drop, length};
ghost use Rattle.indexmap.specs.IndexMap.{index_map_len, Updates};
ghost use Rattle.client_desk.specs.Parked.{is_favoured};
ghost use Rattle.client_desk.specs.Post.{is_attended};
ghost use Rattle.client_desk.specs.declared.absent.TheConstants.{LAST_WAIT, LAST_WAIT_FOR_ORIGIN};
ghost use Rattle.client_desk.specs.Absent.{is_longest};
ghost use Rattle.client_desk.specs.Desk.{is_crowded, next_step};
ghost use Rattle.client_desk.specs.Origins.{is_among};

use crate::absent::{Absent, LAST_WAIT, LAST_WAIT_FOR_ORIGIN};
use crate::origins::Origins;
use crate::parked::{LISTENER, Lot, Parked};
use crate::post::{Call, Post};

/// What the workers share.
#[derive(Drop)]
pub struct Desk {
    pub lot: Lot,
    pub post: Post,
    pub absent: Absent,
    /// The origins that were given up, and have not answered since.
    pub doubted: Origins,
    /// Those of them that a worker asks.
    pub asked: Origins,
    /// How many tasks were given to workers, past 2^64 - 1 from 0 on.
    pub tasks: u64,
}

/// What a worker is to do.
#[derive(Drop)]
pub enum Task {
    /// To accept a connection.
    Accept,
    /// To read of this connection.
    Read(Parked),
}

/// What a worker with no connection does next.
#[derive(Drop)]
pub enum Step {
    // this
    Do(Task),
    // it looks again, since what was ready is closed
    Again,
    // it waits in the epoll
    Watch,
    // it sleeps
    Sleep,
}

/// How it stands for a worker that would keep its connection between two requests.
#[derive(Clone, Copy, Debug, PartialEq, Eq)]
pub enum Stance {
    /// Others are open, and this one does not ask alone, or no other worker is free.
    Crowded,
    /// It is the only one that is open, or the only one that asks, and another worker waits for the others.
    Attended,
    /// It is the only one that is open, and no other worker is free.
    Unattended,
}

impl Desk {
    /// What a worker with no connection does next: the first of what is ready. Where nothing is, one worker at a time waits
    /// in the epoll.
    pub fn next_step(&mut self) -> Step
        ensures step { result ≡ next_step self.old }
        ensures ready { self.new.lot.ready.items ≡ drop 1 self.old.lot.ready.items }
        ensures post { self.new.post ≡ self.old.post }
    {
        let Some(token) = self.lot.next_ready() else {
            return if self.post.is_watched() {
                Step::Sleep
            } else {
                Step::Watch
            };
        };
        self.tasks = self.tasks.wrapping_add(1);
        if token == LISTENER {
            return Step::Do(Task::Accept);
        }
        match self.lot.take(token) {
            Some(parked) => Step::Do(Task::Read(parked)),
            None => Step::Again,
        }
    }

    /// Whether no worker is free and something is ready.
    pub fn is_crowded(&self) -> bool
        ensures { result ≡ is_crowded self.now }
    {
        !self.post.is_free() && self.lot.is_ready()
    }

    /// Whether a worker that waits elsewhere since this moment is to give that up: no worker is free, something is ready that
    /// nobody takes, and no other worker waits longer.
    pub fn gives_up(&mut self, since: u64, now: u64) -> bool
        ensures longest { result ≡ true → is_longest self.old.absent since now ≡ true }
        ensures crowded { result ≡ true → is_crowded self.old ≡ true }
        ensures shared { (self.new.lot ≡ self.old.lot) × (self.new.post ≡ self.old.post) × (self.new.doubted ≡ self.old.doubted) }
        ensures list { self.new.absent.list ≡ self.old.absent.list }
    {
        let is_crowded = self.is_crowded();
        let is_stuck = self.absent.is_stuck(self.tasks, now, is_crowded);
        is_stuck && self.absent.is_longest(since, now)
    }

    /// Whether a worker that waits for this origin since this moment is to give it up, which is doubted then. One that is
    /// doubted already has less time, and whoever asks it need not wait longest.
    pub fn gives_origin_up(&mut self, origin: u64, since: u64, now: u64) -> bool
        ensures crowded { result ≡ true → is_crowded self.old ≡ true }
        ensures patient { result ≡ true → LAST_WAIT ≤ now - since }
        ensures cause { result ≡ true → (is_among origin self.old.doubted ≡ true)
            ⊎ ((LAST_WAIT_FOR_ORIGIN ≤ now - since) × (is_longest self.old.absent since now ≡ true)) }
        ensures shared { (self.new.lot ≡ self.old.lot) × (self.new.post ≡ self.old.post) }
    {
        let waited = now.saturating_sub(since);
        if self.doubted.has(origin) {
            return waited >= LAST_WAIT && self.is_crowded();
        }
        if waited < LAST_WAIT_FOR_ORIGIN || !self.gives_up(since, now) {
            return false;
        }
        self.doubted.add(origin);
        true
    }

    /// Whether this origin may be asked: where it was given up and has not answered since, one worker asks it at a time, and
    /// none where no worker is free and somebody asks.
    pub fn admits(&mut self, origin: u64) -> bool
        ensures asked { result ≡ true → is_among origin self.old.doubted ≡ true →
            (is_crowded self.old ≡ false) × (is_among origin self.old.asked ≡ false) }
        ensures refused { result ≡ false → (is_among origin self.old.doubted ≡ true)
            × ((is_crowded self.old ≡ true) ⊎ (is_among origin self.old.asked ≡ true)) }
        ensures shared { (self.new.lot ≡ self.old.lot) × (self.new.post ≡ self.old.post) × (self.new.doubted ≡ self.old.doubted) }
    {
        if !self.doubted.has(origin) {
            return true;
        }
        if self.is_crowded() || self.asked.has(origin) {
            return false;
        }
        self.asked.add(origin);
        true
    }

    /// A worker has asked this origin: whether it answered.
    pub fn note_answer(&mut self, origin: u64, answered: bool)
        ensures trusted { answered ≡ true → Updates nat_eq self.old.doubted.numbers self.new.doubted.numbers origin None }
        ensures kept { answered ≡ false → self.new.doubted ≡ self.old.doubted }
        ensures asked { Updates nat_eq self.old.asked.numbers self.new.asked.numbers origin None }
        ensures shared { (self.new.lot ≡ self.old.lot) × (self.new.post ≡ self.old.post) }
    {
        self.asked.remove(origin);
        if answered {
            self.doubted.remove(origin);
        }
    }

    /// Whether something is ready, and nobody but those that serve will take it.
    pub fn is_short(&self) -> bool
        ensures ready { result ≡ true → 0 < length self.now.lot.ready.items }
        ensures alone { result ≡ true → is_attended self.now.post.watched self.now.post.called self.now.post.summoned ≡ false }
        ensures enough { result ≡ false → (length self.now.lot.ready.items ≡ 0)
            ⊎ (is_attended self.now.post.watched self.now.post.called self.now.post.summoned ≡ true) }
    {
        self.lot.is_ready() && !self.post.is_attended()
    }

    /// How it stands for a worker that would keep the connection with this token, and who is to be woken so that another one
    /// waits for the others: whoever is noted as called.
    pub fn stance(&mut self, token: u64) -> (Stance, Call)
        ensures alone { index_map_len self.old.lot.slots ≤ 1 → result.0 ≢ Stance.Crowded }
        ensures favoured { 1 < index_map_len self.old.lot.slots → result.0 ≢ Stance.Crowded →
            (is_favoured self.old.lot token ≡ true) × (result.0 ≡ Stance.Attended) }
        ensures crowded { result.0 ≡ Stance.Crowded → is_favoured self.old.lot token ≡ true →
            (self.old.post.asleep ≡ 0) × (self.old.post.has_deputy ≡ false) }
        ensures attended { result.0 ≡ Stance.Attended →
            is_attended self.new.post.watched self.new.post.called self.new.post.summoned ≡ true }
        ensures unattended { result.0 ≡ Stance.Unattended → (self.old.post.asleep ≡ 0) × (self.old.post.has_deputy ≡ false) }
        ensures called { result.1 ≢ Call.Sleeper → self.new.post.called ≡ self.old.post.called }
        ensures summoned { result.1 ≢ Call.Deputy → self.new.post.summoned ≡ self.old.post.summoned }
        ensures lot { self.new.lot ≡ self.old.lot }
    {
        let is_only = self.lot.len() <= 1;
        if !is_only && !self.lot.is_favoured(token) {
            return (Stance::Crowded, Call::Enough);
        }
        let call = self.post.attend();
        let stance = if call != Call::Nobody {
            Stance::Attended
        } else if is_only {
            Stance::Unattended
        } else {
            Stance::Crowded
        };
        (stance, call)
    }
}
