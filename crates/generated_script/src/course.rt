//! The rounds of a generated script.

ghost use Rattle.std.specs.Prelude.{◌≡◌, ◌+◌, ◌<◌, ◌≤◌, ◌%◌, ◌++◌, OnOk};
ghost use Rattle.generated_script.specs.Course.{course_of, next_number, drawn_below, purged_path, round_moment, fetch_lines, delivery_lines, purge_lines, log_lines, with_fetch, delivered, purged, round_lines, after_round};
ghost use Rattle.generated_script.specs.declared.numbers.TheConstants.{MOST_ROUNDS};

use crate::line::{
    put_advance, put_command, put_cut, put_delete, put_droplog, put_finish, put_get, put_got,
};
use std::alloc::AllocError;

/// How many passes take turns.
pub const PASSES: u32 = 4;

/// How many paths are asked for.
pub const PATHS: u32 = 50;

/// What the rounds so far left, in whose terms the definition of a script is given.
#[derive(Drop)]
pub struct Course {
    /// The number that was drawn last, below 2^31; the seed, where none was drawn.
    pub number: u32,
    /// Which paths are marked, since an answer to a fetch of theirs was written and no purge followed.
    pub marks: [bool; 50],
    /// How many answers to fetches were written.
    pub answers: u32,
}

impl Course {
    // before the first round
    pub(crate) fn new(seed: u32) -> Course
        ensures { result ≡ course_of seed }
    {
        Course {
            number: seed,
            marks: [false; 50],
            answers: 0,
        }
    }

    // adds what a round of this number says, and goes on to the next one
    #[tactic(auto, unfolding(crate::specs::Course::round_lines, crate::specs::Course::after_round))]
    pub(crate) fn put_round(&mut self, out: &mut Vec<u8>, round: u32) -> Result<(), AllocError>
        requires round { round ≤ MOST_ROUNDS }
        requires answers { self.old.answers ≤ MOST_ROUNDS }
        ensures lines { OnOk result (out.new.items ≡ out.old.items ++ round_lines round self.old) }
        ensures course { OnOk result (self.new ≡ after_round round self.old) }
        ensures answers { self.new.answers ≤ self.old.answers + 1 }
    {
        self.put_delivery(out, round)?;
        if round % 100 == 0 {
            self.put_purge(out, round)?;
        }
        if round % 1000 == 0 {
            put_log(out, round)?;
        }
        Ok(())
    }

    // adds a delivery of a drawn path by a drawn pass
    #[tactic(auto, unfolding(crate::specs::Course::delivery_lines, crate::specs::Course::delivered))]
    fn put_delivery(&mut self, out: &mut Vec<u8>, round: u32) -> Result<(), AllocError>
        requires round { round ≤ MOST_ROUNDS }
        requires answers { self.old.answers ≤ MOST_ROUNDS }
        ensures lines { OnOk result (out.new.items ≡ out.old.items ++ delivery_lines round self.old) }
        ensures course { OnOk result (self.new ≡ delivered self.old) }
        ensures answers { self.new.answers ≤ self.old.answers + 1 }
    {
        let pass = self.draw(PASSES);
        let path = self.draw(PATHS);
        let moment = 1000 + round;
        put_get(out, pass, moment, path)?;
        self.put_fetch(out, pass, moment, path)?;
        put_finish(out, pass, moment, round)
    }

    // adds the answer to a fetch of this path and marks it, where it is not marked
    #[tactic(auto, unfolding(crate::specs::Course::fetch_lines, crate::specs::Course::with_fetch))]
    fn put_fetch(
        &mut self,
        out: &mut Vec<u8>,
        pass: u32,
        moment: u32,
        path: u32,
    ) -> Result<(), AllocError>
        requires path { path < PATHS }
        requires answers { self.old.answers ≤ MOST_ROUNDS }
        ensures lines { OnOk result (out.new.items ≡ out.old.items ++ fetch_lines pass moment path self.old) }
        ensures course { OnOk result (self.new ≡ with_fetch path self.old) }
        ensures answers { self.new.answers ≤ self.old.answers + 1 }
    {
        if self.marks[path as usize] {
            return Ok(());
        }
        self.marks[path as usize] = true;
        self.answers += 1;
        put_got(out, pass, moment, self.answers)
    }

    // adds the purge of a drawn path, and takes its mark away
    #[tactic(auto, unfolding(crate::specs::Course::purge_lines, crate::specs::Course::purged))]
    fn put_purge(&mut self, out: &mut Vec<u8>, round: u32) -> Result<(), AllocError>
        requires round { round ≤ MOST_ROUNDS }
        ensures lines { OnOk result (out.new.items ≡ out.old.items ++ purge_lines round (purged_path self.old)) }
        ensures course { OnOk result (self.new ≡ purged self.old) }
        ensures answers { self.new.answers ≡ self.old.answers }
    {
        let path = self.draw(PATHS);
        self.marks[path as usize] = false;
        let moment = 1000 + round;
        let trigger = round / 100;
        put_command(out, moment, path)?;
        put_advance(out, moment, trigger)?;
        put_advance(out, moment, trigger)?;
        put_delete(out, moment, trigger)
    }

    // draws a number below the bound
    #[tactic(auto, unfolding(crate::specs::Course::next_number, crate::specs::Course::drawn_below))]
    fn draw(&mut self, bound: u32) -> u32
        requires { 0 < bound }
        ensures drawn { result ≡ drawn_below bound (next_number self.old.number) }
        ensures below { result < bound }
        ensures course { self.new ≡ record {
          number = next_number self.old.number;
          marks = self.old.marks;
          answers = self.old.answers;
        } }
    {
        self.number = ((1103515245 * self.number as u64 + 12345) % (1 << 31)) as u32;
        self.number / 65536 % bound
    }
}

// adds that a log file is cut and dropped
#[tactic(auto, unfolding(crate::specs::Course::log_lines))]
fn put_log(out: &mut Vec<u8>, round: u32) -> Result<(), AllocError>
    requires { round ≤ MOST_ROUNDS }
    ensures { OnOk result (out.new.items ≡ out.old.items ++ log_lines round) }
{
    let moment = 1000 + round;
    put_cut(out, moment)?;
    put_droplog(out, moment, round / 1000)
}
