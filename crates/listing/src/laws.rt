//! What the definitions mean, as laws above them. Each function does nothing: its contract is the law.

ghost use Rattle.std.specs.Prelude.{◌≡◌, ◌↔◌, ℕ, Bool, List};
ghost use Rattle.std.specs.declared.option.Option.{Option};
ghost use Rattle.listing.specs.FirstMatch.{first_match, IsFirstMatch};

/// The first rule that holds decides, by its action and under its number, counted from 1, and no other answer says so.
/// Without a number it is denied exactly where there are rules and none holds, and allowed where no rules are given.
pub fn first_rule_that_holds_decides<R>()
    ensures { (holds allows : R → Bool) (rules : Option (List R)) (answer : Bool × Option ℕ) →
        (first_match holds allows rules ≡ answer) ↔ IsFirstMatch holds allows rules answer }
{}
