//! What the definitions mean, as laws above them. Each function does nothing: its contract is the law.
ghost use Rattle.std.specs.Prelude.{◌≡◌, ◌↔◌, ℕ, List, None};
ghost use Rattle.targets.specs.declared.target.Protocol.{Protocol};
ghost use Rattle.location_acl.specs.declared.footprint.Place.{Place};
ghost use Rattle.metadata_objects.specs.declared.generic.Generic.{Generic};
ghost use Rattle.inheritance.specs.Held.{location_of, time_of, protocol_of};
ghost use Rattle.cdni_base.specs.declared.rule.Rule.{Rule};
ghost use Rattle.verdict.specs.Verdict.{location_rule, time_rule, protocol_rule, verdict_of, NoneForbids, IsFirstToForbid};
ghost use Rattle.verdict.specs.declared.judging.Verdict.TheVariants.{Allow, Deny};

/// A delivery is allowed exactly where none of the rules forbids it.
#[tactic(auto, using(crate::proofs::Rules::allowed_exactly))]
pub fn allowed_where_none_forbids()
    ensures { (objects : List Generic) (spoken : Protocol) (place : Place) (moment : ℕ)
        → (verdict_of objects spoken place moment ≡ Allow) ↔ NoneForbids objects spoken place moment }
{}

/// A delivery is denied by a rule exactly where that rule forbids it and none before it does, in the order of `Rule`.
pub fn denied_by_the_first_that_forbids()
    ensures { (objects : List Generic) (spoken : Protocol) (place : Place) (moment : ℕ) (rule : Rule)
        → (verdict_of objects spoken place moment ≡ Deny rule) ↔ IsFirstToForbid objects spoken place moment rule }
{}

/// A kind of list of which no object is effective forbids nothing.
pub fn absent_lists_forbid_nothing()
    ensures location { (objects : List Generic) (place : Place)
        → location_of objects ≡ None → location_rule objects place ≡ None }
    ensures time { (objects : List Generic) (moment : ℕ) → time_of objects ≡ None → time_rule objects moment ≡ None }
    ensures protocol { (objects : List Generic) (spoken : Protocol)
        → protocol_of objects ≡ None → protocol_rule objects spoken ≡ None }
{}
