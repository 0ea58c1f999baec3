//! One trigger.

ghost use Rattle.std.specs.Prelude.{◌≡◌, ◌<◌, ◌≤◌, None, length, IfOk};
ghost use Rattle.trigger_command.specs.declared.spec.TheConstants.{SELECTION_MAX};
ghost use Rattle.history.specs.Steps.{metadata_steps};

use crate::step::Step;
use listing::Moment;
use std::alloc::{AllocError, Global};
use std::marker::Model;
use trigger_command::{SELECTION_MAX, Spec, TriggerKind};
use trigger_status::{IndexList, Job, JobStatus};

/// What the last step of a trigger opened.
#[derive(Clone, Copy)]
pub(crate) enum Opened {
    Fetch(u64),
    Refresh(u64),
}

/// The last step of a trigger, as far as it may still fail.
#[derive(Clone, Copy)]
enum LastStep {
    /// It fetched the metadata.
    Metadata,
    /// It fetched a content URL.
    Url,
    /// It did neither.
    Other,
}

/// A trigger: its status resource, the pass that made it active, how many steps it has made since, and what the last of
/// them opened. It has entered at most as many errors as it has tried content URLs.
#[derive(Drop)]
pub(crate) struct TriggerState {
    job: Job,
    claimant: Option<u32>,
    steps: u32,
    opened: Option<Opened>,
}

impl Model for TriggerState {
    ghost use Rattle.std.specs.Prelude.{option_map};
    ghost use Rattle.history.specs.World.{Trigger};
    ghost use Rattle.trigger_table.specs.State.{awaited_of, state_of, IsBounded};

    ghost Value = { Trigger };

    ghost view = { λ s. state_of s.job s.claimant s.steps s.opened };

    ghost invariant = { λ s. IsBounded (state_of s.job s.claimant s.steps s.opened) };
}

impl TriggerState {
    ghost use Rattle.history.specs.After.{commanded};
    ghost use Rattle.history.specs.Steps.{active_step, claimed_step, ended, ends_as, free_step, own_step, started, step_of, url_place, with_status};
    ghost use Rattle.history.specs.Steps.{fetched, refreshed};
    ghost use Rattle.trigger_table.specs.State.{cancel_of, cancelled_status, entered_at, fetch_ended_in, refresh_ended_in, last_of, opened_by, seen, step_ended, step_made, stepped, HasTurn, GoesOn};

    /// A trigger that was just commanded.
    ///
    /// # Errors
    /// Want of memory.
    pub fn new(
        alloc: Global,
        id: u64,
        spec: Spec,
        moment: Moment,
    ) -> Result<TriggerState, AllocError>
        ensures { IfOk result (λ state. state ≡ commanded id spec moment) }
    {
        let econtent = IndexList::new(alloc)?;
        url_count(&spec);
        Ok(TriggerState {
            job: Job {
                id,
                spec,
                status: JobStatus::Pending,
                ctime: moment,
                mtime: moment,
                emeta: false,
                econtent,
            },
            claimant: None,
            steps: 0,
            opened: None,
        })
    }

    /// Its status resource.
    pub fn job(&self) -> &Job
        ensures { result.now ≡ self.now.job }
    {
        &self.job
    }

    /// The step that this pass would make.
    pub fn next_step(&self, pass: u32) -> Step
        ensures value { result ≡ seen (step_of pass self.now) }
        ensures turn { HasTurn result self.now }
    {
        match self.job.status {
            JobStatus::Complete | JobStatus::Failed | JobStatus::Cancelled => {
                Step::Final(self.job.status)
            }
            _ => self.claimed_step(pass),
        }
    }

    // that of one that has not ended
    fn claimed_step(&self, pass: u32) -> Step
        ensures value { result ≡ seen (claimed_step pass self.now self.now.claimant) }
        ensures turn { HasTurn result self.now }
    {
        match self.claimant {
            Some(claimant) if claimant != pass => Step::Claimed(claimant),
            _ => self.own_step(),
        }
    }

    // that of one which no other pass made active
    fn own_step(&self) -> Step
        ensures value { result ≡ seen (own_step self.now self.now.awaited) }
        ensures turn { HasTurn result self.now }
    {
        match self.opened {
            Some(Opened::Fetch(number)) => Step::StepOpen(number),
            Some(Opened::Refresh(number)) => Step::StepOpen(number),
            None => self.free_step(),
        }
    }

    // that of one which waits for nothing
    fn free_step(&self) -> Step
        requires { self.now.awaited ≡ None }
        ensures value { result ≡ seen (free_step self.now.job.status self.now) }
        ensures turn { HasTurn result self.now }
    {
        match self.job.status {
            JobStatus::Pending => Step::Start,
            JobStatus::Active => self.active_step(),
            JobStatus::Cancelling => Step::End(JobStatus::Cancelled),
            status => Step::Final(status),
        }
    }

    // that of one which is active
    fn active_step(&self) -> Step
        requires { self.now.awaited ≡ None }
        ensures value { result ≡ seen (active_step self.now.job.spec.kind self.now) }
        ensures turn { HasTurn result self.now }
    {
        match kind_of(&self.job.spec) {
            TriggerKind::Invalidate | TriggerKind::Purge => Step::End(JobStatus::Complete),
            TriggerKind::Preposition => self.preposition_step(),
        }
    }

    // that of a preposition which is active
    fn preposition_step(&self) -> Step
        requires { self.now.awaited ≡ None }
        ensures value { result ≡ seen (active_step TriggerKind.Preposition self.now) }
        ensures turn { HasTurn result self.now }
    {
        if self.steps < metadata_steps(&self.job.spec) {
            return Step::Refresh;
        }
        let place = self.url_place();
        if place < url_count(&self.job.spec) {
            Step::Url(place)
        } else {
            Step::End(self.ends_as())
        }
    }

    // the place of the content URL whose turn it is
    fn url_place(&self) -> u32
        ensures { result ≡ url_place self.now }
    {
        self.steps.saturating_sub(metadata_steps(&self.job.spec))
    }

    // how a preposition ends
    fn ends_as(&self) -> JobStatus
        ensures { result ≡ ends_as self.now.job.emeta self.now.job.econtent }
    {
        if self.job.emeta || self.job.econtent.len() > 0 {
            JobStatus::Failed
        } else {
            JobStatus::Complete
        }
    }

    /// The next step of this pass is done at this moment: it has become active, has made one step more, or has ended.
    pub fn step_done(&mut self, pass: u32, moment: Moment)
        ensures after { self.new ≡ step_made pass moment self.old }
        ensures id { self.new.job.id ≡ self.old.job.id }
        ensures ready { GoesOn (seen (step_of pass self.old)) self.old self.new }
    {
        match self.next_step(pass) {
            Step::Start => self.start(pass, moment),
            Step::Refresh | Step::Url(_) => self.steps += 1,
            Step::End(status) => self.end(status, moment),
            Step::Unknown | Step::Final(_) | Step::Claimed(_) | Step::StepOpen(_) => {}
        }
    }

    /// The last step has opened the fetch or the refresh of this number.
    pub fn step_opened(&mut self, number: u64)
        ensures after { self.new ≡ opened_by number self.old }
        ensures id { self.new.job.id ≡ self.old.job.id }
    {
        match self.last_step() {
            LastStep::Metadata => self.opened = Some(Opened::Refresh(number)),
            LastStep::Url => self.opened = Some(Opened::Fetch(number)),
            LastStep::Other => {}
        }
    }

    /// What the last step opened has ended, if it opened something. Where it was not good, an error is entered. It
    /// takes no memory.
    pub fn step_ended(&mut self, good: bool)
        ensures after { self.new ≡ step_ended good self.old }
        ensures id { self.new.job.id ≡ self.old.job.id }
    {
        match self.opened {
            Some(Opened::Fetch(_)) => self.own_fetch_ended(good),
            Some(Opened::Refresh(_)) => self.own_refresh_ended(good),
            None => self.skip(good),
        }
    }

    /// A fetch has ended, and brought its content or did not. Nothing changes unless it waits for that fetch. It takes no
    /// memory.
    pub fn fetch_ended(&mut self, fetch: u64, good: bool)
        ensures after { self.new ≡ fetch_ended_in fetch good self.old }
        ensures id { self.new.job.id ≡ self.old.job.id }
    {
        match self.opened {
            Some(Opened::Fetch(number)) if number == fetch => self.own_fetch_ended(good),
            _ => {}
        }
    }

    /// A refresh has ended, and installed its metadata or did not. Nothing changes unless it waits for that refresh. It
    /// takes no memory.
    pub fn refresh_ended(&mut self, refresh: u64, good: bool)
        ensures after { self.new ≡ refresh_ended_in refresh good self.old }
        ensures id { self.new.job.id ≡ self.old.job.id }
    {
        match self.opened {
            Some(Opened::Refresh(number)) if number == refresh => self.own_refresh_ended(good),
            _ => {}
        }
    }

    /// It is cancelled at this moment: at once where it is pending, and with its next step where it is active.
    pub fn cancel(&mut self, moment: Moment)
        ensures after { self.new ≡ cancel_of moment self.old }
        ensures id { self.new.job.id ≡ self.old.job.id }
    {
        match self.job.status {
            JobStatus::Pending => self.set_status(JobStatus::Cancelled, moment),
            JobStatus::Active => self.set_status(JobStatus::Cancelling, moment),
            _ => {}
        }
    }

    /// The status that a cancel gives it.
    pub fn cancelled_status(&self) -> JobStatus
        ensures { result ≡ cancelled_status self.now.job.status }
    {
        match self.job.status {
            JobStatus::Pending => JobStatus::Cancelled,
            JobStatus::Active => JobStatus::Cancelling,
            status => status,
        }
    }

    // a pass made it active
    fn start(&mut self, pass: u32, moment: Moment)
        ensures { self.new ≡ started pass moment self.old }
    {
        self.set_status(JobStatus::Active, moment);
        self.claimant = Some(pass);
    }

    // it has ended so, unless it had ended before
    fn end(&mut self, status: JobStatus, moment: Moment)
        ensures { self.new ≡ ended moment status self.old }
    {
        match self.job.status {
            JobStatus::Complete | JobStatus::Failed | JobStatus::Cancelled => {}
            _ => self.set_status(status, moment),
        }
    }

    // the last step, as far as it may still fail
    fn last_step(&self) -> LastStep
        ensures { result ≡ last_of self.now }
    {
        let place = self.url_place();
        if self.job.econtent.len() < place as usize {
            LastStep::Url
        } else if self.steps > 0 && place == 0 {
            LastStep::Metadata
        } else {
            LastStep::Other
        }
    }

    // the fetch of its last step brought its content, or did not
    fn own_fetch_ended(&mut self, good: bool)
        requires { length self.old.job.econtent < url_place self.old }
        ensures { self.new ≡ fetched good self.old }
    {
        if !good {
            let place = self.url_place();
            url_count(&self.job.spec);
            self.job.econtent.push_reserved(place - 1);
        }
        self.opened = None;
    }

    // the refresh of its first step installed its metadata, or did not
    fn own_refresh_ended(&mut self, good: bool)
        ensures { self.new ≡ refreshed good self.old }
    {
        if !good {
            self.job.emeta = true;
        }
        self.opened = None;
    }

    // nothing is open: its last step was skipped, unless it was good
    fn skip(&mut self, good: bool)
        requires { self.old.awaited ≡ None }
        ensures { self.new ≡ step_ended good self.old }
    {
        if good {
            return;
        }
        match self.last_step() {
            LastStep::Metadata => self.own_refresh_ended(false),
            LastStep::Url => self.own_fetch_ended(false),
            LastStep::Other => {}
        }
    }

    // from this moment on it has this status
    fn set_status(&mut self, status: JobStatus, moment: Moment)
        ensures { self.new ≡ with_status moment status self.old }
    {
        self.job.status = status;
        self.job.mtime = moment;
    }
}

fn kind_of(spec: &Spec) -> TriggerKind
    ensures { result ≡ spec.now.kind }
{
    spec.kind
}

// in how many steps the metadata is fetched
fn metadata_steps(spec: &Spec) -> u32
    ensures { result ≡ metadata_steps spec.now.selection.metadata_urls }
{
    match spec.selection.metadata_urls.as_slice() {
        [] => 0,
        _ => 1,
    }
}

// how many content URLs there are
fn url_count(spec: &Spec) -> u32
    ensures count { result ≡ length spec.now.selection.content_urls }
    ensures few { length spec.now.selection.content_urls ≤ SELECTION_MAX }
{
    spec.selection.content_urls.len() as u32
}
