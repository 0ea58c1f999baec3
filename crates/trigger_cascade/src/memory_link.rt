//! A link in memory.

ghost use Rattle.std.specs.Prelude.{◌≡◌, ◌≤◌, ◌+◌, [], ◌∷◌, ◌++◌, ◌&&◌, true, drop, min, IfOk, IsTrue, if◌then◌else◌};
ghost use Rattle.edge_base.specs.Causes.{next_count};
ghost use Rattle.trigger_cascade.specs.MemoryLink.{next_poll, next_post, or_memory};

use crate::link::{Link, LinkCall, Polled, PolledList, Posted, PostedList};
use listing::Text;
use std::alloc::{AllocError, Global};
use std::marker::Model;
use targets::Target;

/// A link that answers from two lists in order, and fails after them. Each failure counts a fault. It tells its calls,
/// unless it finds no memory to remember one: from then on it tells no more.
#[derive(Drop)]
pub struct MemoryLink {
    posts: PostedList,
    polls: PolledList,
    posted: usize,
    polled: usize,
    made: Vec<LinkCall>,
    telling: bool,
    faults: u64,
}

impl Model for MemoryLink {
    ghost use Rattle.trigger_cascade.specs.MemoryLink.{Taped, IsInStep};

    ghost Value = { Taped };

    ghost view = { λ l. record {
      posts = l.posts;
      polls = l.polls;
      posted = l.posted;
      polled = l.polled;
      made = l.made.items;
      telling = l.telling;
      faults = l.faults;
    } };

    ghost invariant = { λ l. IsInStep l.posts l.polls l.posted l.polled };
}

impl MemoryLink {
    /// A link that gave none of these answers yet. It answers `Ok`: the answer has the form of the other constructors.
    ///
    /// # Errors
    /// None.
    pub fn new(
        alloc: Global,
        posts: PostedList,
        polls: PolledList,
    ) -> Result<MemoryLink, AllocError>
        ensures { IfOk result (λ l. l ≡ record {
          posts = posts;
          polls = polls;
          posted = 0;
          polled = 0;
          made = [];
          telling = true;
          faults = 0;
        }) }
    {
        Ok(MemoryLink {
            posts,
            polls,
            posted: 0,
            polled: 0,
            made: Vec::new(alloc),
            telling: true,
            faults: 0,
        })
    }

    /// The calls that it remembered, in order.
    pub fn calls(&self) -> &[LinkCall]
        ensures { result.now ≡ self.now.made }
    {
        &self.made
    }

    /// How many of its calls failed, up to 2^64 - 1.
    pub fn faults(&self) -> u64
        ensures { result ≡ self.now.faults }
    {
        self.faults
    }
}

impl Link for MemoryLink {
    ghost use Rattle.std.specs.Prelude.{◌≡◌, [], ◌∷◌};
    ghost use Rattle.edge_base.specs.Clock.{Grows};
    ghost use Rattle.trigger_cascade.specs.Link.{is_failed_poll, is_failed_post, HasCause};
    ghost use Rattle.trigger_cascade.specs.MemoryLink.{told_of, IsNextPoll, IsNextPost, place_behind};

    ghost calls = { told_of };

    ghost faults = { λ l. l.faults };

    /// The next answer to a command, or want of memory to copy it; and a failure after the last.
    fn post(&mut self, alloc: Global, to: &Target, body: &[u8]) -> Posted
        ensures answer { IsNextPost self.old result }
        ensures posts { self.new.posts ≡ self.old.posts }
        ensures polls { self.new.polls ≡ self.old.polls }
        ensures posted { self.new.posted ≡ place_behind self.old.posted self.old.posts }
        ensures polled { self.new.polled ≡ self.old.polled }
        ensures told { Grows (told_of self.old) (told_of self.new) (LinkCall.Post to.now body.now result ∷ []) }
        ensures cause { HasCause self.old.faults self.new.faults (is_failed_post result) }
    {
        let answer = or_memory(post_at(&self.posts, self.posted));
        self.posted = place_behind(self.posted, self.posts.len());
        let noted = note_post(alloc, &mut self.made, to, body, &answer);
        self.telling = are_both(self.telling, noted);
        self.faults = counted(answer.is_failed(), self.faults);
        answer
    }

    /// The next answer to a poll, and a failure after the last.
    fn poll(&mut self, alloc: Global, place: &[u8]) -> Polled
        ensures answer { IsNextPoll self.old result }
        ensures posts { self.new.posts ≡ self.old.posts }
        ensures polls { self.new.polls ≡ self.old.polls }
        ensures posted { self.new.posted ≡ self.old.posted }
        ensures polled { self.new.polled ≡ place_behind self.old.polled self.old.polls }
        ensures told { Grows (told_of self.old) (told_of self.new) (LinkCall.Poll place.now result ∷ []) }
        ensures cause { HasCause self.old.faults self.new.faults (is_failed_poll result) }
    {
        let answer = poll_at(&self.polls, self.polled);
        self.polled = place_behind(self.polled, self.polls.len());
        let noted = note_poll(alloc, &mut self.made, place, answer);
        self.telling = are_both(self.telling, noted);
        self.faults = counted(answer.is_failed(), self.faults);
        answer
    }
}

// the place behind this one, within so many
fn place_behind(place: usize, count: usize) -> usize
    requires { place ≤ count }
    ensures { result ≡ min (place + 1) count }
{
    if place < count { place + 1 } else { count }
}

// the answer at this place of the list, copied, or a failure past it
fn post_at(posts: &PostedList, place: usize) -> Result<Posted, AllocError>
    ensures { IfOk result (λ answer. answer ≡ next_post (drop place posts.now)) }
{
    if place < posts.len() {
        posts.at(place).copy()
    } else {
        Ok(Posted::Failed)
    }
}

// the answer, or want of memory
fn or_memory(answer: Result<Posted, AllocError>) -> Posted
    ensures { result ≡ or_memory answer }
{
    match answer {
        Ok(answer) => answer,
        Err(_) => Posted::Memory,
    }
}

// the answer at this place of the list, or a failure past it
fn poll_at(polls: &PolledList, place: usize) -> Polled
    ensures { result ≡ next_poll (drop place polls.now) }
{
    if place < polls.len() {
        *polls.at(place)
    } else {
        Polled::Failed
    }
}

// the count of faults after a call
fn counted(failed: bool, faults: u64) -> u64
    ensures { result ≡ (if failed then next_count faults else faults) }
{
    if failed {
        faults.saturating_add(1)
    } else {
        faults
    }
}

fn are_both(first: bool, second: bool) -> bool
    ensures { result ≡ (first && second) }
{
    first && second
}

// remembers a command that was posted; false for want of memory
fn note_post(
    alloc: Global,
    made: &mut Vec<LinkCall>,
    to: &Target,
    body: &[u8],
    answer: &Posted,
) -> bool
    ensures { IsTrue result → made.new.items ≡ made.old.items ++ LinkCall.Post to.now body.now answer.now ∷ [] }
{
    match post_call(alloc, to, body, answer) {
        Ok(call) => made.push(call).is_ok(),
        Err(_) => false,
    }
}

fn post_call(
    alloc: Global,
    to: &Target,
    body: &[u8],
    answer: &Posted,
) -> Result<LinkCall, AllocError>
    ensures { IfOk result (λ call. call ≡ LinkCall.Post to.now body.now answer.now) }
{
    Ok(LinkCall::Post {
        to: to.clone()?,
        body: Text::of(alloc, body)?,
        answer: answer.copy()?,
    })
}

// remembers a poll; false for want of memory
fn note_poll(alloc: Global, made: &mut Vec<LinkCall>, place: &[u8], answer: Polled) -> bool
    ensures { IsTrue result → made.new.items ≡ made.old.items ++ LinkCall.Poll place.now answer ∷ [] }
{
    match Text::of(alloc, place) {
        Ok(place) => made.push(LinkCall::Poll { place, answer }).is_ok(),
        Err(_) => false,
    }
}
