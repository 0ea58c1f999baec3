//! The triggers that are not deleted.

ghost use Rattle.std.specs.Prelude.{◌≡◌, ◌+◌, ◌^◌, ◌≤◌, [], Ok, IfOk, OnErr, MatchOption, option_map, is_some, length};
ghost use Rattle.history.specs.After.{ended_fetch, ended_refresh};
ghost use Rattle.history.specs.Steps.{is_listed, listed};
ghost use Rattle.trigger_table.specs.Triggers.{IsAbsent, IsAt, ids_of};

use crate::state::TriggerState;
use crate::step::Step;
use listing::{Listing, Moment};
use std::alloc::{AllocError, Global};
use std::marker::Model;
use trigger_command::{IdList, Spec};
use trigger_status::{Filter, Job, JobStatus, JobStatusList};

/// The triggers that are not deleted, in order of their numbers. They are seen as what a history leaves of them, with
/// how many there may be and how many were made. A trigger is found in logarithmic time.
#[derive(Drop)]
pub struct Triggers {
    items: Vec<TriggerState>,
    ids: Vec<u64>,
    most: u64,
    created: u64,
}

impl Model for Triggers {
    ghost use Rattle.std.specs.Prelude.{◌≡◌};
    ghost use Rattle.trigger_table.specs.Triggers.{IsRising, TriggersView, ids_of};

    ghost Value = { TriggersView };

    ghost view = { λ t. record { triggers = t.items.items; most = t.most; created = t.created } };

    ghost invariant = { λ t. (t.ids.items ≡ ids_of t.items.items) × IsRising 0 t.created t.ids.items };
}

impl Triggers {
    ghost use Rattle.history.specs.Steps.{cancelled, changed, first_unknown, is_trigger, listed, trigger_of};
    ghost use Rattle.std.specs.List.{list_any};
    ghost use Rattle.trigger_table.specs.State.{cancel_of, cancelled_status, next_step, opened_by, step_ended};
    ghost use Rattle.trigger_table.specs.Triggers.{command_after, command_reply, cancel_after, cancel_reply, cancelled_statuses, step_after, with_triggers, without, TriggersGoOn, IsRising, StaysEnded};

    /// No triggers, and at most so many later. It takes no memory.
    pub fn new(alloc: Global, most: u64) -> Triggers
        ensures { result ≡ record { triggers = []; most = most; created = 0 } }
    {
        Triggers {
            items: Vec::new(alloc),
            ids: Vec::new(alloc),
            most,
            created: 0,
        }
    }

    // where the trigger of this number is
    fn place_of(&self, id: u64) -> Option<usize>
        ensures { MatchOption result (IsAbsent id self.now.triggers) (IsAt id self.now.triggers) }
    {
        self.ids.binary_search(&id).ok()
    }

    /// What this pass would do with the trigger of this number.
    pub fn next_step(&self, pass: u32, id: u64) -> Step
        ensures value { result ≡ next_step pass (trigger_of id self.now.triggers) }
        ensures ended { StaysEnded id result self.now.triggers }
    {
        match self.place_of(id) {
            Some(place) => self.items[place].next_step(pass),
            None => Step::Unknown,
        }
    }

    /// The status resource of the trigger of this number, if there is one.
    pub fn job(&self, id: u64) -> Option<&Job>
        ensures { option_map (λ job. job.now) result ≡ option_map (λ trigger. trigger.job)
            (trigger_of id self.now.triggers) }
    {
        match self.place_of(id) {
            Some(place) => Some(self.items[place].job()),
            None => None,
        }
    }

    /// How many triggers there are.
    pub fn job_count(&self) -> u64
        ensures { result ≡ length self.now.triggers }
    {
        self.items.len() as u64
    }

    /// Makes a pending trigger of this specification, and answers its number; `None` exactly where there are as many as
    /// there may be.
    ///
    /// # Errors
    /// Want of memory. Nothing has changed then.
    pub fn command(
        &mut self,
        alloc: Global,
        spec: Spec,
        moment: Moment,
    ) -> Result<Option<u64>, AllocError>
        requires { self.old.created ≤ 2 ^ 62 }
        ensures reply { IfOk result (λ id. id ≡ command_reply self.old) }
        ensures after { IfOk result (λ id. self.new ≡ command_after self.old spec moment) }
        ensures err { OnErr result (self.new ≡ self.old) }
    {
        if self.items.len() as u64 == self.most {
            return Ok(None);
        }
        let id = self.created + 1;
        self.items.reserve(1)?;
        self.ids.reserve(1)?;
        let state = TriggerState::new(alloc, id, spec, moment)?;
        self.items.push_reserved(state);
        self.ids.push_reserved(id);
        self.created = id;
        Ok(Some(id))
    }

    /// The next step of this pass is done at this moment: the trigger of this number has become active, has made one
    /// step more, or has ended. Where no step was next, nothing changes. What such a step opens is told by
    /// `step_opened`; where it was skipped, `step_ended` enters the error. It takes no memory.
    pub fn step_done(&mut self, id: u64, pass: u32, moment: Moment)
        ensures after { self.new ≡ with_triggers self.old (step_after id pass moment self.old.triggers) }
        ensures ready { TriggersGoOn id (next_step pass (trigger_of id self.old.triggers))
            self.old.triggers self.new.triggers }
    {
        if let Some(place) = self.place_of(id) {
            self.items[place].step_done(pass, moment);
        }
    }

    /// The last step of the trigger of this number has opened the fetch or the refresh of that number. Where its last
    /// step opens nothing, or there is no such trigger, nothing changes. It takes no memory.
    pub fn step_opened(&mut self, id: u64, number: u64)
        ensures { self.new ≡ with_triggers self.old (changed id (opened_by number) self.old.triggers) }
    {
        if let Some(place) = self.place_of(id) {
            self.items[place].step_opened(number);
        }
    }

    /// What the last step of the trigger of this number opened has ended, if it opened something. Where it was not
    /// good, or the step was skipped, an error is entered: that of the metadata, or the place of the content URL. Where
    /// there is no such trigger, nothing changes. It takes no memory.
    pub fn step_ended(&mut self, id: u64, good: bool)
        ensures { self.new ≡ with_triggers self.old (changed id (step_ended good) self.old.triggers) }
    {
        if let Some(place) = self.place_of(id) {
            self.items[place].step_ended(good);
        }
    }

    /// A fetch has ended, and brought its content or did not: what waits for it goes on. It takes no memory, and a step for
    /// each trigger.
    pub fn fetch_ended(&mut self, fetch: u64, good: bool)
        ensures { self.new ≡ with_triggers self.old (ended_fetch fetch good self.old.triggers) }
    {
        end_fetch(&mut self.items, fetch, good);
    }

    /// A refresh has ended, and installed its metadata or did not: what waits for it goes on. It takes no memory, and a
    /// step for each trigger.
    pub fn refresh_ended(&mut self, refresh: u64, good: bool)
        ensures { self.new ≡ with_triggers self.old (ended_refresh refresh good self.old.triggers) }
    {
        end_refresh(&mut self.items, refresh, good);
    }

    /// Cancels the triggers of these numbers at this moment: one that is pending at once, one that is active with its
    /// next step, and no other. The answer is their statuses then, in the order of the numbers; or the first number
    /// that no trigger has, and then nothing has changed.
    ///
    /// # Errors
    /// Want of memory. Nothing has changed then.
    pub fn cancel(
        &mut self,
        alloc: Global,
        ids: &IdList,
        moment: Moment,
    ) -> Result<Result<JobStatusList, u64>, AllocError>
        ensures reply { IfOk result (λ r. r ≡ cancel_reply self.old.triggers ids.now moment) }
        ensures after { IfOk result (λ r. self.new ≡ with_triggers self.old
            (cancel_after self.old.triggers ids.now moment)) }
        ensures err { OnErr result (self.new ≡ self.old) }
    {
        match self.first_unknown(ids.as_slice()) {
            Some(unknown) => Ok(Err(unknown)),
            None => {
                let statuses = self.cancelled_statuses(alloc, ids.as_slice())?;
                self.cancel_all(ids.as_slice(), moment);
                Ok(Ok(statuses))
            }
        }
    }

    // the first of these numbers that no trigger has
    fn first_unknown(&self, ids: &[u64]) -> Option<u64>
        ensures { result ≡ first_unknown self.now.triggers ids.now }
    {
        'ids: for i in 0..ids.len() {
            let id = ids[i];
            if !self.has(id) {
                return Some(id);
            }
        }
        None
    }

    // whether there is a trigger of this number
    fn has(&self, id: u64) -> bool
        ensures { result ≡ list_any (is_trigger id) self.now.triggers }
    {
        self.place_of(id).is_some()
    }

    // the statuses that a cancel gives these triggers
    fn cancelled_statuses(&self, alloc: Global, ids: &[u64]) -> Result<JobStatusList, AllocError>
        ensures { IfOk result (λ list. list ≡ cancelled_statuses self.now.triggers ids.now) }
    {
        let mut statuses = Listing::new(alloc);
        'ids: for i in 0..ids.len() {
            if let Some(status) = self.cancelled_status(ids[i]) {
                statuses.push(status)?;
            }
        }
        Ok(statuses)
    }

    // the status that a cancel gives the trigger of this number
    fn cancelled_status(&self, id: u64) -> Option<JobStatus>
        ensures { result ≡ option_map (λ trigger. cancelled_status trigger.job.status)
            (trigger_of id self.now.triggers) }
    {
        match self.place_of(id) {
            Some(place) => Some(self.items[place].cancelled_status()),
            None => None,
        }
    }

    // cancels the triggers of these numbers
    fn cancel_all(&mut self, ids: &[u64], moment: Moment)
        ensures { self.new ≡ with_triggers self.old (cancelled moment ids.now self.old.triggers) }
    {
        'ids: for i in 0..ids.len() {
            self.cancel_one(ids[i], moment);
        }
    }

    // cancels the trigger of this number
    fn cancel_one(&mut self, id: u64, moment: Moment)
        ensures { self.new ≡ with_triggers self.old (changed id (cancel_of moment) self.old.triggers) }
    {
        if let Some(place) = self.place_of(id) {
            self.items[place].cancel(moment);
        }
    }

    /// The numbers of the triggers that this filter lists, rising.
    ///
    /// # Errors
    /// Want of memory.
    pub fn job_ids(&self, alloc: Global, filter: Filter) -> Result<IdList, AllocError>
        ensures value { IfOk result (λ ids. ids ≡ listed filter self.now.triggers) }
        ensures rising { IfOk result (IsRising 0 self.now.created) }
    {
        listed(alloc, &self.items, filter)
    }

    /// Takes the trigger of this number away, at whatever status. The answer is whether there was one.
    pub fn delete(&mut self, id: u64) -> bool
        ensures reply { result ≡ is_some (trigger_of id self.old.triggers) }
        ensures after { self.new ≡ with_triggers self.old (without id self.old.triggers) }
    {
        match self.place_of(id) {
            Some(place) => {
                self.items.remove(place);
                self.ids.remove(place);
                true
            }
            None => false,
        }
    }
}

// ends this fetch for those that wait for it
fn end_fetch(items: &mut [TriggerState], fetch: u64, good: bool)
    ensures after { items.new ≡ ended_fetch fetch good items.old }
    ensures ids { ids_of items.new ≡ ids_of items.old }
{
    'states: for state in items.iter_mut() {
        state.fetch_ended(fetch, good);
    }
}

// ends this refresh for those that wait for it
fn end_refresh(items: &mut [TriggerState], refresh: u64, good: bool)
    ensures after { items.new ≡ ended_refresh refresh good items.old }
    ensures ids { ids_of items.new ≡ ids_of items.old }
{
    'states: for state in items.iter_mut() {
        state.refresh_ended(refresh, good);
    }
}

// the numbers of those that this filter lists
fn listed(alloc: Global, items: &[TriggerState], filter: Filter) -> Result<IdList, AllocError>
    ensures { IfOk result (λ ids. ids ≡ listed filter items.now) }
{
    let mut ids = Listing::new(alloc);
    'items: for i in 0..items.len() {
        let job = items[i].job();
        if is_listed(filter, job.status) {
            ids.push(job.id)?;
        }
    }
    Ok(ids)
}

// whether the filter lists triggers of this status
fn is_listed(filter: Filter, status: JobStatus) -> bool
    ensures { result ≡ is_listed filter status }
{
    match filter {
        Filter::All => true,
        Filter::Pending => matches!(status, JobStatus::Pending),
        Filter::Active => matches!(status, JobStatus::Active | JobStatus::Cancelling),
        Filter::Complete => matches!(status, JobStatus::Complete),
        Filter::Failed => matches!(status, JobStatus::Failed | JobStatus::Cancelled),
    }
}
