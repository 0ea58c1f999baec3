//! Which worker waits in the epoll, and which sleep.

ghost use Rattle.std.specs.Prelude.{◌≡◌, ◌≢◌, ◌⊎◌, ◌<◌, ◌≤◌, ◌-◌, ◌+◌, ◌%◌, ◌^◌, min, true, false, if◌then◌else◌};
ghost use Rattle.client_desk.specs.declared.post.TheConstants.{PATIENCE, PAUSE};
ghost use Rattle.client_desk.specs.Post.{is_attended, is_free, is_staffed};

/// How long what is ready may wait for a worker before one more is called, in microseconds.
const PATIENCE: u64 = 1_000;

/// A wait in the epoll that is shorter found something ready, in microseconds.
const PAUSE: u64 = 20;

/// Who waits in the epoll, and who sleeps.
#[derive(Drop)]
pub struct Post {
    // whether a worker waits in the epoll
    watched: bool,
    // how many waits in the epoll began, past 2^64 - 1 from 0 on
    watches: u64,
    // how many workers sleep until one is called
    asleep: u64,
    // whether one more sleeps, which looks from time to time
    has_deputy: bool,
    // whether a sleeper was called that is not yet awake
    called: bool,
    // whether the deputy was
    summoned: bool,
    // whether a sleeper was called to be the deputy that is not yet awake
    appointed: bool,
    // the microsecond since which what is ready waits at most
    waiting: u64,
    // the microsecond since which what the epoll has not yet told waits at most
    swept: u64,
    // while workers sleep, one more is the deputy, or one of them was called to be it
    ghost staffed: { is_staffed asleep has_deputy appointed ≡ true },
}

/// Who is to be woken.
#[derive(Clone, Copy, Debug, PartialEq, Eq)]
pub enum Call {
    // one of the sleepers
    Sleeper,
    // the deputy
    Deputy,
    // nobody, since a worker waits in the epoll or was called to
    Enough,
    // nobody, since nobody sleeps
    Nobody,
}

impl Post {
    /// Nobody waits or sleeps.
    pub fn new() -> Post
        ensures watched { result.watched ≡ false }
        ensures asleep { (result.asleep ≡ 0) × (result.has_deputy ≡ false) }
        ensures called { (result.called ≡ false) × (result.summoned ≡ false) }
    {
        Post {
            watched: false,
            watches: 0,
            asleep: 0,
            has_deputy: false,
            called: false,
            summoned: false,
            appointed: false,
            waiting: 0,
            swept: 0,
        }
    }

    /// Whether a worker waits in the epoll.
    pub fn is_watched(&self) -> bool
        ensures { result ≡ self.now.watched }
    {
        self.watched
    }

    /// How many waits in the epoll began.
    pub fn watches(&self) -> u64
        ensures { result ≡ self.now.watches }
    {
        self.watches
    }

    /// A worker begins to wait in the epoll.
    pub fn begin_watch(&mut self)
        requires alone { self.old.watched ≡ false }
        ensures watched { self.new.watched ≡ true }
        ensures counted { self.new.watches ≡ (self.old.watches + 1) % 2 ^ 64 }
        ensures staff { (self.new.asleep ≡ self.old.asleep) × (self.new.has_deputy ≡ self.old.has_deputy) × (self.new.appointed ≡ self.old.appointed) }
        ensures calls { (self.new.called ≡ self.old.called) × (self.new.summoned ≡ self.old.summoned) }
    {
        self.watched = true;
        self.watches = self.watches.wrapping_add(1);
    }

    /// It does not wait there any more. It began to at the first of these microseconds, and now is the second one: where they
    /// are apart, nothing was ready at the first one. Else what came waits since the epoll last had told all that was ready,
    /// and so does what it has more than it told now.
    pub fn end_watch(&mut self, began: u64, now: u64, has_more: bool)
        ensures watched { self.new.watched ≡ false }
        ensures paused { PAUSE ≤ now - began → self.new.waiting ≡ began }
        ensures busy { now - began < PAUSE → self.new.waiting ≡ self.old.swept }
        ensures swept { self.new.swept ≡ (if has_more then self.new.waiting else now) }
        ensures watches { self.new.watches ≡ self.old.watches }
        ensures staff { (self.new.asleep ≡ self.old.asleep) × (self.new.has_deputy ≡ self.old.has_deputy) × (self.new.appointed ≡ self.old.appointed) }
        ensures calls { (self.new.called ≡ self.old.called) × (self.new.summoned ≡ self.old.summoned) }
    {
        self.watched = false;
        self.waiting = if now.saturating_sub(began) >= PAUSE {
            began
        } else {
            self.swept
        };
        self.swept = if has_more { self.waiting } else { now };
    }

    /// Whether what is ready waits for long; then that is counted anew from this microsecond on.
    pub fn is_overdue(&mut self, now: u64) -> bool
        ensures patient { result ≡ true → PATIENCE ≤ now - self.old.waiting }
        ensures anew { result ≡ true → (self.new.waiting ≡ now) × (self.new.swept ≡ now) }
        ensures still { result ≡ false → (now - self.old.waiting < PATIENCE) × (self.new ≡ self.old) }
        ensures watched { (self.new.watched ≡ self.old.watched) × (self.new.watches ≡ self.old.watches) }
        ensures staff { (self.new.asleep ≡ self.old.asleep) × (self.new.has_deputy ≡ self.old.has_deputy) × (self.new.appointed ≡ self.old.appointed) }
        ensures calls { (self.new.called ≡ self.old.called) × (self.new.summoned ≡ self.old.summoned) }
    {
        if now.saturating_sub(self.waiting) < PATIENCE {
            return false;
        }
        self.waiting = now;
        self.swept = now;
        true
    }

    /// Whether the deputy is to wake: it was called, or nobody waits in the epoll, and nobody began to since so many began.
    pub fn wants_deputy(&self, watches: u64) -> bool
        ensures summoned { self.now.summoned ≡ true → result ≡ true }
        ensures deserted { self.now.watched ≡ false → self.now.watches ≡ watches → result ≡ true }
        ensures cause { result ≡ true → (self.now.summoned ≡ true) ⊎ (self.now.watched ≡ false) }
    {
        self.summoned || (!self.watched && self.watches == watches)
    }

    /// A worker falls asleep; whether as the deputy.
    pub fn fall_asleep(&mut self) -> bool
        ensures deputy { result ≡ true → (self.old.has_deputy ≡ false) × (self.new.asleep ≡ self.old.asleep) }
        ensures asleep { result ≡ false → (self.old.has_deputy ≡ true) × (self.new.asleep ≡ min (self.old.asleep + 1) (2 ^ 64 - 1)) }
        ensures stands { self.new.has_deputy ≡ true }
        ensures watched { (self.new.watched ≡ self.old.watched) × (self.new.watches ≡ self.old.watches) }
        ensures calls { (self.new.called ≡ self.old.called) × (self.new.summoned ≡ self.old.summoned) }
    {
        if self.has_deputy {
            self.asleep = self.asleep.saturating_add(1);
            return false;
        }
        self.has_deputy = true;
        true
    }

    /// A sleeper is awake; another one is to be woken to be the deputy where there is none.
    pub fn wake_up(&mut self) -> Call
        ensures appoints { self.new.appointed ≡ true → result ≡ Call.Sleeper }
        ensures nobody { self.new.appointed ≡ false → result ≡ Call.Nobody }
        ensures asleep { self.new.asleep ≡ self.old.asleep - 1 }
        ensures deputy { self.new.has_deputy ≡ self.old.has_deputy }
        ensures answered { (self.new.called ≡ false) × (self.new.summoned ≡ self.old.summoned) }
        ensures watched { (self.new.watched ≡ self.old.watched) × (self.new.watches ≡ self.old.watches) }
    {
        self.asleep = self.asleep.saturating_sub(1);
        self.called = false;
        self.appointed = self.asleep > 0 && !self.has_deputy;
        if self.appointed {
            Call::Sleeper
        } else {
            Call::Nobody
        }
    }

    /// The deputy is none any more; a sleeper is to be woken to be the next one, unless that is so already.
    pub fn step_down(&mut self) -> Call
        ensures appoints { result ≡ Call.Sleeper → self.new.appointed ≡ true }
        ensures nobody { result ≢ Call.Sleeper → (self.new.asleep ≡ 0) ⊎ (self.old.appointed ≡ true) }
        ensures asleep { self.new.asleep ≡ self.old.asleep }
        ensures deputy { self.new.has_deputy ≡ false }
        ensures answered { (self.new.summoned ≡ false) × (self.new.called ≡ self.old.called) }
        ensures watched { (self.new.watched ≡ self.old.watched) × (self.new.watches ≡ self.old.watches) }
    {
        let was = self.appointed;
        self.appointed = self.asleep > 0;
        self.has_deputy = false;
        self.summoned = false;
        if self.appointed && !was {
            Call::Sleeper
        } else {
            Call::Nobody
        }
    }

    /// Whether a worker waits in the epoll, or was called to.
    pub fn is_attended(&self) -> bool
        ensures { result ≡ is_attended self.now.watched self.now.called self.now.summoned }
    {
        self.watched || self.called || self.summoned
    }

    /// Whether a worker waits in the epoll or sleeps, or was called.
    pub fn is_free(&self) -> bool
        ensures { result ≡ is_free (is_attended self.now.watched self.now.called self.now.summoned) self.now.asleep self.now.has_deputy }
    {
        self.is_attended() || self.asleep > 0 || self.has_deputy
    }

    /// Has a worker wait in the epoll: who is to be woken for that, a sleeper, and the deputy where no other one sleeps. Who is
    /// noted as called is whom it says.
    pub fn attend(&mut self) -> Call
        ensures attended { result ≢ Call.Nobody → is_attended self.new.watched self.new.called self.new.summoned ≡ true }
        ensures enough { result ≡ Call.Enough → self.new ≡ self.old }
        ensures sleeper { result ≡ Call.Sleeper → (0 < self.old.asleep) × (self.new.called ≡ true) }
        ensures deputy { result ≡ Call.Deputy → (self.old.has_deputy ≡ true) × (self.new.summoned ≡ true) }
        ensures nobody { result ≡ Call.Nobody → (self.old.asleep ≡ 0) × (self.old.has_deputy ≡ false) × (self.new ≡ self.old) }
        ensures called { result ≢ Call.Sleeper → self.new.called ≡ self.old.called }
        ensures summoned { result ≢ Call.Deputy → self.new.summoned ≡ self.old.summoned }
        ensures watched { (self.new.watched ≡ self.old.watched) × (self.new.watches ≡ self.old.watches) }
        ensures staff { (self.new.asleep ≡ self.old.asleep) × (self.new.has_deputy ≡ self.old.has_deputy) × (self.new.appointed ≡ self.old.appointed) }
    {
        if self.is_attended() {
            return Call::Enough;
        }
        if self.asleep > 0 {
            self.called = true;
            return Call::Sleeper;
        }
        if self.has_deputy {
            self.summoned = true;
            return Call::Deputy;
        }
        Call::Nobody
    }
}
