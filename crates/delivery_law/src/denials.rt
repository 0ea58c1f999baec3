//! A denial names the first rule that forbids, and what is admitted no rule forbids.

ghost use Rattle.std.specs.Prelude.{◌≡◌, ℕ, IsTrue};
ghost use Rattle.cdni_base.specs.declared.rule.Rule.{Rule};
ghost use Rattle.delivery_law.specs.Denials.{Forbids, IsFirstToForbid, is_admitted};
ghost use Rattle.history.specs.Event.{History, Admit, Request};
ghost use Rattle.history.specs.History.{reply_to};
ghost use Rattle.history.specs.World.{Made};
ghost use Rattle.history.specs.declared.reply.Reply.TheVariants as reply;

/// A delivery is denied by a rule that forbids it, and no rule before that one forbids it. The rules are, in this order:
/// the method, that no metadata is installed, that a trigger took it back, that no host matches, an object that must be
/// enforced and is not understood, the lists of locations, times and protocols, and that there is no source. Each has its
/// meaning at the admission. What is admitted none of them forbids.
pub fn a_denial_names_the_first_rule_that_forbids()
    ensures denied { (made : Made) (h : History) (pass : ℕ) (request : Request) (moment delivery : ℕ)
        (rule : Rule) → reply_to made h (pass, Admit request moment) ≡ reply.Denied delivery rule
        → IsFirstToForbid made h request moment rule }
    ensures admitted { (made : Made) (h : History) (pass : ℕ) (request : Request) (moment : ℕ)
        → IsTrue (is_admitted (reply_to made h (pass, Admit request moment)))
        → (rule : Rule) → Forbids made h request moment rule → ⊥ }
{}
