//! A script on its way.

ghost use Rattle.std.specs.Prelude.{◌≡◌, ◌≢◌, ℕ, ◌+◌, ◌<◌, ◌≤◌, List, [], Err, IfOk, OnOk};
ghost use Rattle.std.specs.declared.option.Option.{Option};
ghost use Rattle.edge_base.specs.Causes.{Rose};
ghost use Rattle.replay_script.specs.Reading.{Running, RunsOn};

use crate::ahead::LineRead;
use crate::lines::Lines;
use crate::script::ReplayEnd;
use crate::step::{SCRIPT_LIMIT, Stepped, answer_one, scripted_node};
use cdni_base::Limits;
use edge_base::Source;
use node_core::Node;
use std::alloc::{AllocError, Global};
use std::marker::Model;

/// A script on its way: what was read of it, the node that answers it, the answer to the line that was read last, and the
/// number and the place of the next line.
#[derive(Drop)]
pub struct Reading {
    lines: Lines,
    node: Node,
    answer: Vec<u8>,
    number: u64,
    at: u64,
}

impl Model for Reading {
    ghost use Rattle.std.specs.Prelude.{◌+◌, ◌≤◌};
    ghost use Rattle.replay_script.specs.Reading.{Underway};
    ghost use Rattle.replay_script.specs.declared.step.TheConstants.{SCRIPT_LIMIT};

    ghost Value = { Underway };

    ghost use Rattle.std.specs.Coded.{codes, coded_list, coded×, coded_ℕ};
    ghost use Rattle.metadata_objects.specs.Coding.{level_code};
    ghost use Rattle.metadata_objects.specs.contracts.generic.Generic as generic;
    ghost use Rattle.pattern_match.specs.contracts.pattern.Pattern as pattern;

    ghost coded = { Prim.hlevel (
      codes,
      level_code (coded_list (coded× pattern.the_row.coded (coded×
          (coded_list generic.the_row.coded) coded_ℕ))),
    ) };

    ghost view = { λ r. record {
      node = r.node;
      answer = r.answer.items;
      ahead = r.lines.ahead;
      number = r.number;
      at = r.at;
    } };

    ghost invariant = { λ r. (r.number ≤ r.at + 1) × (r.at ≤ SCRIPT_LIMIT) };
}

impl Reading {
    /// Nothing read yet, and a node of the standard limits.
    ///
    /// # Errors
    /// Want of memory.
    pub fn new(alloc: Global) -> Result<Reading, AllocError>
        ensures start { IfOk result (λ way. (before : Option (List ℕ)) → Running before before [] way) }
        ensures number { IfOk result (λ way. way.number ≡ 1) }
        ensures place { IfOk result (λ way. way.at ≡ 0) }
    {
        Ok(Reading {
            lines: Lines::new(alloc)?,
            node: scripted_node(alloc, &Limits::standard())?,
            answer: Vec::new(alloc),
            number: 1,
            at: 0,
        })
    }

    /// The answer to the line that was read last, with its line feed; it is empty where that line set the limits.
    pub fn answer(&self) -> &[u8]
        ensures { result.now ≡ self.now.answer }
    {
        &self.answer
    }

    /// Reads the next line of the script and answers it.
    ///
    /// # Errors
    /// How the reading ended; that is never a fault of an output.
    pub fn next<S: Source>(&mut self, alloc: Global, input: &mut S) -> Result<(), ReplayEnd>
        ensures answers { (before : Option (List ℕ)) (given : List (List ℕ))
            → Running before (S.left input.old) given self.old
            → RunsOn before (S.left input.new) given self.new result }
        ensures further { OnOk result (self.old.at < self.new.at) }
        ensures in_time { self.new.at ≤ SCRIPT_LIMIT }
        ensures few { self.new.number ≤ SCRIPT_LIMIT + 1 }
        ensures read_later { S.faults input.old ≤ S.faults input.new }
        ensures read { result ≡ Err ReplayEnd.ReadFault → Rose (S.faults input.old) (S.faults input.new) }
        ensures read_well { result ≢ Err ReplayEnd.ReadFault → S.faults input.new ≡ S.faults input.old }
    {
        match self.lines.next_line(input) {
            LineRead::Line => {}
            LineRead::End => {
                if self.lines.line().is_empty() {
                    return Err(ReplayEnd::Done);
                }
                return Err(self.stop());
            }
            LineRead::TooLong => return Err(self.stop()),
            LineRead::Failed => return Err(ReplayEnd::ReadFault),
            LineRead::Memory => return Err(ReplayEnd::Memory),
        }
        let line = self.lines.line();
        let first = self.number == 1;
        match answer_one(
            alloc,
            &mut self.node,
            first,
            self.at,
            line,
            &mut self.answer,
        ) {
            Stepped::Answered => {}
            Stepped::NotALine => return Err(self.stop()),
            Stepped::Memory => return Err(ReplayEnd::Memory),
        }
        self.number += 1;
        self.at += line.len() as u64 + 1;
        Ok(())
    }

    // the next line is no script line
    fn stop(&self) -> ReplayEnd
        ensures { result ≡ ReplayEnd.NotALine self.now.number self.now.at }
    {
        ReplayEnd::NotALine {
            line: self.number,
            at: self.at,
        }
    }
}
