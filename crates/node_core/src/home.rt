//! Homes: what a pass calls the node through.

ghost use Rattle.std.specs.Prelude.{◌≡◌, false, true, refl, IfOk, IsOk, MatchResult};
ghost use Rattle.std.proofs.Common.{◌∙◌};
ghost use Rattle.history.specs.Event.{History, event_of};
ghost use Rattle.history.specs.World.{Made};
ghost use Rattle.node_core.specs.Answers.{answers};
ghost use Rattle.node_core.specs.Home.{AreOf, EndsOpen, IsAnswered, IsUnanswered, Who};
ghost use Rattle.node_core.specs.Node.{NodeView, Stands};

use crate::node::Node;
use history::{Call, Reply};
use std::alloc::{AllocError, Global};
use std::sync::Wait;
use std::thread::Threads;

/// A node that one pass, and maybe others, call. It is known with what the node is made, the number of the pass, which
/// histories the pass has seen, and what stays as it is whatever is called.
pub trait Home: Drop {
    ghost who: { Self → Who };

    ghost has_seen: { Self → History → Type 0 };

    ghost stays: { Self → Self → Type 0 };

    /// Takes in the call of the home's pass: after what other passes have called since, it is answered as the history
    /// before it says.
    ///
    /// # Errors
    /// Want of memory, but for the end of a fetch, of a refresh or of a delivery that the pass has open, which takes none.
    /// What the call carried is lost then.
    fn call<R: Threads + Wait + Sync>(
        &mut self,
        rt: &R,
        alloc: Global,
        call: Call,
    ) -> Result<Reply, AllocError>
        ensures who { who self.new ≡ who self.old }
        ensures stays { stays self.old self.new }
        ensures kind { IfOk result (λ r. answers (event_of call) r ≡ true) }
        ensures seen { (h : History) → has_seen self.old h → MatchResult result
            (λ r. IsAnswered (who self.old) h (event_of call) r (has_seen self.new))
            (λ _. IsUnanswered (who self.old) h (has_seen self.new)) }
        ensures ended { (h : History) → has_seen self.old h
            → EndsOpen (who self.old).made h (who self.old).number (event_of call) → IsOk result };

    /// What stays, stays where nothing is called, and over one call after the other.
    ghost stays_at: { (a : Self) → stays a a };

    ghost stays_on: { (a b c : Self) → stays a b → stays b c → stays a c };
}

/// A node that one pass alone calls, under this number.
#[derive(Drop)]
pub struct OneHome {
    pub node: Node,
    pub number: u32,
}

impl Home for OneHome {
    ghost who = { λ s. record { made = s.node.made; number = s.number } };

    // its node stands for the history, and each entry is of its pass
    ghost has_seen = { λ s h. Stands s.node s.node.made h × AreOf s.number h };

    ghost stays = { λ a b. b.number ≡ a.number };

    ghost stays_at = { λ a. refl };

    ghost stays_on = { λ a b c p q. q ∙ p };

    fn call<R: Threads + Wait + Sync>(
        &mut self,
        _rt: &R,
        alloc: Global,
        call: Call,
    ) -> Result<Reply, AllocError> {
        self.node.call(alloc, self.number, call)
    }
}
