//! The triggers that are not deleted, and the log files that are kept.

ghost use Rattle.std.specs.Prelude.{◌≡◌, ◌≤◌, ◌^◌, ◌+◌, ◌<◌, [], IfOk, IfSome, OnErr, OnOk, is_some, length, map, not, ◌==◌};
ghost use Rattle.std.specs.List.{filter, list_any, position};
ghost use Rattle.std.specs.Option.{option_map};
ghost use Rattle.history.specs.After.{ended_fetch, ended_refresh};
ghost use Rattle.history.specs.Steps.{changed, listed, trigger_of};
ghost use Rattle.trigger_table.specs.State.{next_step, opened_by, step_ended};
ghost use Rattle.trigger_table.specs.Triggers.{cancel_after, cancel_reply, command_after, command_reply, step_after, without, StaysEnded, TriggersGoOn};
ghost use Rattle.control_core.specs.Control.{empty, file_reply, file_after, text_at, has_number, with_table, with_triggers};

use crate::file::FileText;
use cdni_base::{Limits, Moment, Text};
use cdni_log::{FileHead, RowList};
use std::alloc::{AllocError, Global};
use std::marker::Model;
use trigger_command::{IdList, Spec};
use trigger_status::{Filter, Job, JobStatusList};
use trigger_table::{Step, Triggers};

/// A log file that is kept.
#[derive(Drop)]
pub struct LogFile {
    /// Its number, from 1.
    pub number: u64,
    /// Its bytes.
    pub text: FileText,
}

/// The triggers that are not deleted, and the log files that are kept. It is seen as these, in order, how many there may be
/// of each, and how many there ever were. A call for files takes steps in proportion to those that are kept, at most 64, and
/// the first reading of a file to its rows.
#[derive(Drop)]
pub struct Control {
    triggers: Triggers,
    files: Vec<LogFile>,
    most: u64,
    filed: u64,
}

impl Model for Control {
    ghost use Rattle.std.specs.Prelude.{◌≤◌, length};
    ghost use Rattle.std.specs.Vec.{vec_capacity};
    ghost use Rattle.control_core.specs.Control.{ControlView};

    ghost Value = { ControlView };

    ghost view = { λ c. record { triggers = c.triggers; files = c.files.items; most = c.most; filed = c.filed } };

    ghost invariant = { λ c. (length c.files.items ≤ c.most) × (c.most ≤ vec_capacity c.files) };
}

impl Control {
    ghost use Rattle.control_core.specs.Control.{ControlView};

    /// No trigger, and no file, with a place for each file that may be kept.
    ///
    /// # Errors
    /// Want of memory.
    pub fn new(alloc: Global, limits: &Limits) -> Result<Control, AllocError>
        ensures { IfOk result (λ control. control ≡ empty limits.now) }
    {
        Ok(Control {
            triggers: Triggers::new(alloc, limits.triggers),
            files: Vec::with_capacity(alloc, limits.files as usize)?,
            most: limits.files,
            filed: 0,
        })
    }

    /// Makes a pending trigger of this specification, and answers its number; `None` exactly where there are as many as
    /// there may be.
    ///
    /// # Errors
    /// Want of memory. Nothing has changed then.
    pub fn command(
        &mut self,
        alloc: Global,
        spec: Spec,
        moment: Moment,
    ) -> Result<Option<u64>, AllocError>
        requires { self.old.triggers.created ≤ 2 ^ 62 }
        ensures reply { IfOk result (λ id. id ≡ command_reply self.old.triggers) }
        ensures after { IfOk result (λ id. self.new ≡ with_table self.old
            (command_after self.old.triggers spec moment)) }
        ensures err { OnErr result (self.new ≡ self.old) }
    {
        self.triggers.command(alloc, spec, moment)
    }

    /// What this pass would do with the trigger of this number.
    pub fn next_step(&self, pass: u32, id: u64) -> Step
        ensures value { result ≡ next_step pass (trigger_of id self.now.triggers.triggers) }
        ensures ended { StaysEnded id result self.now.triggers.triggers }
    {
        self.triggers.next_step(pass, id)
    }

    /// The next step of this pass is done at this moment: the trigger of this number has become active, has made one
    /// step more, or has ended. It takes no memory.
    pub fn step_done(&mut self, id: u64, pass: u32, moment: Moment)
        ensures after { self.new ≡ with_triggers self.old (step_after id pass moment self.old.triggers.triggers) }
        ensures ready { TriggersGoOn id (next_step pass (trigger_of id self.old.triggers.triggers))
            self.old.triggers.triggers self.new.triggers.triggers }
    {
        self.triggers.step_done(id, pass, moment);
    }

    /// The last step of the trigger of this number has opened the fetch or the refresh of that number. It takes no memory.
    pub fn step_opened(&mut self, id: u64, number: u64)
        ensures { self.new ≡ with_triggers self.old (changed id (opened_by number) self.old.triggers.triggers) }
    {
        self.triggers.step_opened(id, number);
    }

    /// What the last step of the trigger of this number opened has ended, or the step was skipped: an error is entered
    /// where it was not good. It takes no memory.
    pub fn step_ended(&mut self, id: u64, good: bool)
        ensures { self.new ≡ with_triggers self.old (changed id (step_ended good) self.old.triggers.triggers) }
    {
        self.triggers.step_ended(id, good);
    }

    /// A fetch has ended, and brought its content or did not: the trigger that waits for it goes on. It takes no memory.
    pub fn fetch_ended(&mut self, fetch: u64, good: bool)
        ensures { self.new ≡ with_triggers self.old (ended_fetch fetch good self.old.triggers.triggers) }
    {
        self.triggers.fetch_ended(fetch, good);
    }

    /// A refresh has ended, and installed its metadata or did not: the trigger that waits for it goes on. It takes no
    /// memory.
    pub fn refresh_ended(&mut self, refresh: u64, good: bool)
        ensures { self.new ≡ with_triggers self.old (ended_refresh refresh good self.old.triggers.triggers) }
    {
        self.triggers.refresh_ended(refresh, good);
    }

    /// Cancels the triggers of these numbers at this moment. The answer is their statuses then, in the order of the
    /// numbers; or the first number that no trigger has, and then nothing has changed.
    ///
    /// # Errors
    /// Want of memory. Nothing has changed then.
    pub fn cancel(
        &mut self,
        alloc: Global,
        ids: &IdList,
        moment: Moment,
    ) -> Result<Result<JobStatusList, u64>, AllocError>
        ensures reply { IfOk result (λ r. r ≡ cancel_reply self.old.triggers.triggers ids.now moment) }
        ensures after { IfOk result (λ r. self.new ≡ with_triggers self.old
            (cancel_after self.old.triggers.triggers ids.now moment)) }
        ensures err { OnErr result (self.new ≡ self.old) }
    {
        self.triggers.cancel(alloc, ids, moment)
    }

    /// Takes the trigger of this number away, at whatever status. The answer is whether there was one.
    pub fn delete(&mut self, id: u64) -> bool
        ensures reply { result ≡ is_some (trigger_of id self.old.triggers.triggers) }
        ensures after { self.new ≡ with_triggers self.old (without id self.old.triggers.triggers) }
    {
        self.triggers.delete(id)
    }

    /// The status resource of the trigger of this number, if there is one.
    pub fn job(&self, id: u64) -> Option<&Job>
        ensures { option_map (λ job. job.now) result ≡ option_map (λ trigger. trigger.job)
            (trigger_of id self.now.triggers.triggers) }
    {
        self.triggers.job(id)
    }

    /// How many triggers there are.
    pub fn job_count(&self) -> u64
        ensures { result ≡ length self.now.triggers.triggers }
    {
        self.triggers.job_count()
    }

    /// The numbers of the triggers that this filter lists, rising.
    ///
    /// # Errors
    /// Want of memory.
    pub fn job_ids(&self, alloc: Global, filter: Filter) -> Result<IdList, AllocError>
        ensures { IfOk result (λ ids. ids ≡ listed filter self.now.triggers.triggers) }
    {
        self.triggers.job_ids(alloc, filter)
    }

    /// How many log files there ever were.
    pub fn filed(&self) -> u64
        ensures { result ≡ self.now.filed }
    {
        self.filed
    }

    /// How many log files are kept.
    pub fn file_count(&self) -> u64
        ensures { result ≡ length self.now.files }
    {
        self.files.len() as u64
    }

    /// Keeps the log file of this head and these rows, whose number is the next one, and answers it; `None` where as many
    /// files are kept as may be. It takes no memory: the text is written when it is first asked for.
    pub fn file(&mut self, head: FileHead, rows: RowList) -> Option<u64>
        requires next { head.number ≡ self.old.filed + 1 }
        ensures reply { result ≡ file_reply self.old }
        ensures after { self.new ≡ file_after self.old head rows.items }
    {
        if self.files.len() as u64 == self.most {
            return None;
        }
        let number = head.number;
        self.files.push_reserved(LogFile {
            number,
            text: FileText::of(head, rows),
        });
        self.filed = number;
        Some(number)
    }

    /// The text of the log file of this number, where it is kept.
    ///
    /// # Errors
    /// Want of memory. It takes some only for a file that was not asked for before.
    pub fn file_at(&mut self, alloc: Global, number: u64) -> Result<Option<Text>, AllocError>
        ensures text { IfOk result (λ text. text ≡ text_at number self.old.files) }
        ensures same { self.new ≡ self.old }
    {
        match self.place_of(number) {
            Some(place) => Ok(Some(self.files[place].text.read(alloc)?)),
            None => Ok(None),
        }
    }

    // where the file of this number stands
    fn place_of(&self, number: u64) -> Option<usize>
        ensures place { result ≡ position (has_number number) self.now.files }
        ensures within { IfSome result (λ place. place < length self.now.files) }
    {
        self.files.iter().position(|file| file.number == number)
    }

    /// Drops the log file of this number. The answer is whether it was kept.
    pub fn drop_file(&mut self, number: u64) -> bool
        ensures reply { result ≡ list_any (has_number number) self.old.files }
        ensures after { self.new ≡ record self.old {
          files = filter (λ file. not (has_number number file)) self.old.files;
        } }
    {
        let kept = self.has_file(number);
        self.files.retain(|file| file.number != number);
        kept
    }

    // whether the file of this number is kept
    fn has_file(&self, number: u64) -> bool
        ensures { result ≡ list_any (has_number number) self.now.files }
    {
        self.files.iter().any(|file| file.number == number)
    }

    /// The numbers of the log files that are kept, in order.
    ///
    /// # Errors
    /// Want of memory.
    pub fn file_numbers(&self, alloc: Global) -> Result<IdList, AllocError>
        ensures { IfOk result (λ numbers. numbers ≡ map (λ file. file.number) self.now.files) }
    {
        let mut numbers = IdList::new(alloc);
        'files: for file in &self.files {
            numbers.push(file.number)?;
        }
        Ok(numbers)
    }
}
