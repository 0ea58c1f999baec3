//! Cells: a node that passes share.

ghost use Rattle.std.specs.Prelude.{◌≡◌, ◌≤◌, [], ◌∷◌, ◌++◌, map, All, IfOk};
ghost use Rattle.node_core.specs.Node.{Stands as NodeStands};

use crate::made::{MadeNode, MadeWith};
use history::Call;
use node_core::Node;
use std::alloc::{AllocError, Global};
use std::marker::PhantomData;
use turn_cell::{Pass, PassList, TurnCell};

/// One node that passes call in turns. It is seen as the cell of these turns.
#[derive(Drop)]
pub struct NodeCell<J: MadeWith> {
    pub(crate) turns: TurnCell<MadeNode<J>>,
}

impl<J: MadeWith> NodeCell<J> {
    ghost use Rattle.turn_cell.specs.History.{numbers_from, longer, FollowedByOthers};
    ghost use Rattle.turn_cell.specs.Cell.{number_of, numbers_of, seen_of, passes_of, IsOf};

    /// A cell round a node that stands for no call, and its passes, numbered from 0.
    ///
    /// # Errors
    /// Want of memory. The node is then dropped.
    pub fn new<R>(
        rt: &R,
        alloc: Global,
        node: Node,
        passes: u32,
    ) -> Result<(NodeCell<J>, PassList<Call>), AllocError>
        requires fresh { NodeStands node J.made [] }
        ensures count { IfOk result (λ made. passes_of made.0.turns ≡ passes) }
        ensures numbered { IfOk result (λ made. map number_of made.1 ≡ numbers_from 0 passes) }
        ensures cell { IfOk result (λ made. All (λ pass. IsOf made.0.turns pass) made.1) }
        ensures own { IfOk result (λ made. All (λ pass. numbers_of pass ≡ number_of pass ∷ []) made.1) }
        ensures unseen { IfOk result (λ made. All (λ pass. seen_of pass ≡ []) made.1) }
    {
        let node = MadeNode {
            node: Box::new(alloc, node)?,
            with: PhantomData,
        };
        let (turns, passes) = TurnCell::new(rt, alloc, node, passes)?;
        Ok((NodeCell { turns }, passes))
    }

    /// Takes the pass `gone` into `keep`, which then has the longer of what they had seen, and the numbers of both.
    pub fn join_pass(&self, keep: &mut Pass<Call>, gone: Pass<Call>)
        requires keep { IsOf self.now.turns keep.old }
        requires gone { IsOf self.now.turns gone }
        ensures pass { IsOf self.now.turns keep.new }
        ensures number { number_of keep.new ≡ number_of keep.old }
        ensures numbers { numbers_of keep.new ≡ numbers_of keep.old ++ numbers_of gone }
        ensures longer { seen_of keep.new ≡ longer (seen_of keep.old) (seen_of gone) }
        ensures after_keep { FollowedByOthers (numbers_of keep.old) (seen_of keep.old) (seen_of keep.new) }
        ensures after_gone { FollowedByOthers (numbers_of gone) (seen_of gone) (seen_of keep.new) }
    {
        self.turns.join_pass(keep, gone);
    }
}
