//! Homes in a cell: what one pass calls the shared node through.

ghost use Rattle.std.specs.Prelude.{◌≡◌};
ghost use Rattle.node_cell.specs.Entries.{history_of};

use crate::cell::NodeCell;
use crate::made::MadeWith;
use history::{Call, Reply};
use node_core::Home;
use std::alloc::{AllocError, Global};
use std::marker::Model;
use std::snapshot::Snapshot;
use std::sync::Wait;
use std::thread::Threads;
use turn_cell::Pass;

/// What one pass of a cell calls the node through. It is seen as where its pass stands.
#[derive(Drop)]
pub struct CellHome<'c, J: MadeWith> {
    cell: &'c NodeCell<J>,
    pass: Pass<Call>,
}

impl<'c, J: MadeWith> Model for CellHome<'c, J> {
    ghost use Rattle.node_cell.specs.Standing.{Standing};
    ghost use Rattle.turn_cell.specs.Cell.{number_of, numbers_of, seen_of, passes_of, IsOf};

    ghost Value = { Standing };

    ghost use Rattle.std.specs.Coded.{codes};
    ghost use Rattle.metadata_objects.specs.contracts.level.Level as level;

    ghost coded = { Prim.hlevel (codes, level.the_row.coded) };

    ghost view = { λ h. record {
      table = h.cell.now.turns.table.shared.table_id;
      passes = passes_of h.cell.now.turns;
      number = number_of h.pass;
      numbers = numbers_of h.pass;
      seen = seen_of h.pass;
    } };

    ghost invariant = { λ h. IsOf h.cell.now.turns h.pass };
}

impl<'c, J: MadeWith> CellHome<'c, J> {
    ghost use Rattle.node_cell.specs.Standing.{Standing};
    ghost use Rattle.turn_cell.specs.Cell.{number_of, numbers_of, seen_of, passes_of, IsOf, SitsAt};

    /// The home of a pass of this cell.
    pub fn new(cell: &'c NodeCell<J>, pass: Pass<Call>) -> CellHome<'c, J>
        requires { IsOf cell.now.turns pass }
        ensures table { result.table ≡ cell.now.turns.table.shared.table_id }
        ensures passes { result.passes ≡ passes_of cell.now.turns }
        ensures number { result.number ≡ number_of pass }
        ensures numbers { result.numbers ≡ numbers_of pass }
        ensures seen { result.seen ≡ seen_of pass }
    {
        CellHome { cell, pass }
    }

    /// The pass.
    pub fn into_pass(self) -> Pass<Call>
        ensures cell { SitsAt self.entry.table self.entry.passes result }
        ensures number { number_of result ≡ self.entry.number }
        ensures numbers { numbers_of result ≡ self.entry.numbers }
        ensures seen { seen_of result ≡ self.entry.seen }
    {
        self.pass
    }
}

impl<'c, J: MadeWith + Send + Sync> Home for CellHome<'c, J> {
    ghost use Rattle.std.specs.Prelude.{refl};
    ghost use Rattle.std.proofs.Common.{◌∙◌};
    ghost use Rattle.node_cell.specs.Standing.{StaysIn};

    ghost who = { λ s. record { made = J.made; number = s.number } };

    ghost has_seen = { λ s h. history_of s.seen ≡ h };

    ghost stays = { λ a b. StaysIn a b };

    ghost stays_at = { λ a. record { table = refl; passes = refl; number = refl; numbers = refl } };

    ghost stays_on = { λ a b c p q. record {
      table = q.table ∙ p.table;
      passes = q.passes ∙ p.passes;
      number = q.number ∙ p.number;
      numbers = q.numbers ∙ p.numbers;
    } };

    fn call<R: Threads + Wait + Sync>(
        &mut self,
        rt: &R,
        alloc: Global,
        call: Call,
    ) -> Result<Reply, AllocError> {
        let number = self.pass.number();
        let said = Snapshot::of(&call);
        let mut turn = self.cell.turns.take(rt, &mut self.pass);
        match turn.value().node.call(alloc, number, call) {
            Ok(reply) => {
                turn.give_entry(&mut self.pass, said);
                Ok(reply)
            }
            Err(error) => {
                turn.give_same(&mut self.pass);
                Err(error)
            }
        }
    }
}
