//! A node, and what it is made with.

ghost use Rattle.std.specs.Prelude.{map, []};
ghost use Rattle.cdni_base.specs.Limits.{default_limits};
ghost use Rattle.history.specs.World.{Made, node_made};
ghost use Rattle.node_cell.specs.Entries.{history_of};
ghost use Rattle.node_core.specs.Node.{Stands as NodeStands};

use history::Call;
use node_core::Node;
use std::marker::{Brand, PhantomData};
use turn_cell::Stands;

/// What a node is made with: its limits, and what its log files say at their top. It is known of a node in a cell without
/// a look at it.
pub trait MadeWith {
    ghost made: { Made };
}

impl MadeWith for Brand {
    ghost made = { node_made default_limits [] [] };
}

/// A node that is made so, which a turn hands on by its address. It stands for the calls that it has taken in.
#[derive(Drop)]
pub struct MadeNode<J: MadeWith> {
    pub node: Box<Node>,
    pub with: PhantomData<J>,
}

impl<J: MadeWith> Stands for MadeNode<J> {
    type Entry = Call;

    ghost stands = { λ n calls. NodeStands n.node.value J.made (history_of calls) };
}
