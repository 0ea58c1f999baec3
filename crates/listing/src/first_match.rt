//! Lists of rules that allow and deny, of which the first that holds decides (RFC 8006, sections 4.2.2 to 4.2.4).

ghost use Rattle.std.specs.Prelude.{◌≡◌, ◌<◌, ◌^◌, ◌↔◌, Bool, IfSome, IsSome, length};
ghost use Rattle.listing.specs.FirstMatch.{AreNumbered, first_from, first_match, IsFirstMatch};

use crate::list::Listing;
use std::marker::Model;

/// A rule that allows or denies what it holds. It is asked about a `Q`.
pub trait AccessRule<Q> {
    ghost holds: { Q → Self → Bool };

    ghost allows: { Self → Bool };

    /// Whether the rule holds what is asked about.
    fn holds(&self, asked: Q) -> bool
        ensures { result ≡ holds asked self.now };

    /// Whether it then allows.
    fn allows(&self) -> bool
        ensures { result ≡ allows self.now };
}

/// Rules that allow and deny, fewer than 2^32, or none given. It is seen as the list of them, where there is one.
#[derive(Clone, Drop)]
pub struct AccessList<R> {
    pub rules: Option<Listing<R>>,
}

impl<R> Model for AccessList<R> {
    ghost use Rattle.std.specs.Prelude.{List};
    ghost use Rattle.std.specs.declared.option.Option.{Option};
    ghost use Rattle.listing.specs.FirstMatch.{AreNumbered};

    ghost Value = { Option (List R) };

    ghost view = { λ l. l.rules };

    ghost invariant = { λ l. AreNumbered l.rules };

    ghost inverse = { λ rules. record { rules = rules } };
}

impl<R> AccessList<R> {
    /// The list of these rules, or nothing exactly where they are 2^32 or more.
    pub fn new(rules: Option<Listing<R>>) -> Option<AccessList<R>>
    where
        R: Drop,
        ensures of { IfSome result (λ list. list ≡ rules) }
        ensures fits { IsSome result ↔ AreNumbered rules }
    {
        if let Some(list) = &rules
            && list.len() > u32::MAX as usize
        {
            return None;
        }
        Some(AccessList { rules })
    }

    /// Whether it is allowed, and the number of the rule that says so, from 1: the first that holds what is asked
    /// about. Where none does it is denied, with no number; absent rules allow, with no number.
    #[tactic(auto, using(crate::proofs::FirstMatchLemmas::decided_is))]
    pub fn decide<Q: Copy>(&self, asked: Q) -> (bool, Option<u32>)
    where
        R: AccessRule<Q>,
        ensures value { result ≡ first_match (R.holds asked) R.allows self.now }
        ensures first { IsFirstMatch (R.holds asked) R.allows self.now result }
    {
        match &self.rules {
            Some(rules) => first_of(rules.as_slice(), asked),
            None => (true, None),
        }
    }
}

// the action and number of the first rule that holds what is asked about
fn first_of<Q: Copy, R: AccessRule<Q>>(rules: &[R], asked: Q) -> (bool, Option<u32>)
    requires { length rules.now < 2 ^ 32 }
    ensures { result ≡ first_from (R.holds asked) R.allows 1 rules.now }
{
    let mut number = 0;
    'rules: for rule in rules {
        number += 1;
        if rule.holds(asked) {
            return (rule.allows(), Some(number));
        }
    }
    (false, None)
}
