ghost use Rattle.turn_cell.specs.Laws.{Always, SeenInOneOrder, NumbersHaveOneOwner, OwnersHaveSeen, TicketsAreCounted, SlotHasLongest};

use crate::stands::Stands;

/// What the rule says between any two atomic steps of a cell, whatever its value. It does nothing.
pub fn rule_of_a_cell<V: Stands>()
    ensures one_order { Always V.stands (λ passes s. SeenInOneOrder s.views) }
    ensures one_owner { Always V.stands (λ passes s. NumbersHaveOneOwner passes s.views) }
    ensures owners_see { Always V.stands (λ passes s. OwnersHaveSeen passes s.views) }
    ensures tickets { Always V.stands (λ passes s. TicketsAreCounted s.words s.views) }
    ensures slot { Always V.stands (λ passes s. SlotHasLongest V.stands s) }
{}
