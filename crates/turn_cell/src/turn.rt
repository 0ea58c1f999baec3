ghost use Rattle.std.specs.Prelude.{◌≡◌, ℕ, List, [], ◌∷◌, ◌++◌};
ghost use types.Logic.{sem};
ghost use mir.Syntax.{named};
ghost use Rattle.std.specs.Borrow.{Lends};

use crate::cell::TurnCell;
use crate::pass::Pass;
use crate::stands::Stands;
use crate::view::View;
use atomic_table::Seat;
use std::marker::Brand;
use std::snapshot::Snapshot;
use std::sync::MutexGuard;

/// A turn at a cell's value. It cannot be let go: it ends by `give`.
pub struct Turn<'c, V: Stands> {
    pub(crate) cell: &'c TurnCell<V>,
    pub(crate) seat: Seat<Option<V>, View<V::Entry>>,
    pub(crate) number: u32,
    pub(crate) value: V,
    pub(crate) guard: MutexGuard<'c, u64>,
}

impl<'c, V: Stands> Turn<'c, V> {
    ghost use Rattle.turn_cell.specs.contracts.turn.Turn.{the_row};
    ghost use Rattle.turn_cell.specs.History.{FollowedByOwn};
    ghost use Rattle.turn_cell.specs.Cell.{number_of, numbers_of, seen_of, IsOf, IsTaken, HasTaken, cell_of, turn_number, turn_numbers, value_of, taken, with_value};

    /// The value.
    pub fn value(&mut self) -> &mut V
        ensures* writes_back { sem 𝓛 (Lends (the_row (record {
          mir = named 0;
          lft = [];
        }) V.row V.Entry.row V.Stands) V.row self.entry result (with_value self.entry.now)) }
        ensures value { result.now ≡ value_of self.old }
    {
        &mut self.value
    }

    /// Gives the turn back to the pass that took it. The value then stands for the given history, which the pass has
    /// seen. A caller that makes one entry, or none, gives it back by `give_entry` or `give_same`.
    pub fn give(self, pass: &mut Pass<V::Entry>)
        ghost history: { List (ℕ × V.Entry) }
        requires turn { IsTaken self }
        requires pass { HasTaken pass.old self }
        requires own { FollowedByOwn (turn_number self) (taken self) history }
        requires value { V.stands (value_of self) history }
        ensures pass { IsOf (cell_of self.entry) pass.new }
        ensures number { number_of pass.new ≡ number_of pass.old }
        ensures numbers { numbers_of pass.new ≡ turn_numbers self.entry }
        ensures seen { seen_of pass.new ≡ history }
    {
        let Turn {
            cell,
            mut seat,
            number: _,
            value,
            guard,
        } = self;
        let old = cell.table.shared.exchange(&mut seat, 0, Some(value));
        let None = old else { unreachable!() };
        cell.pass_on::<Brand>(&mut seat);
        pass.badge = seat.into_badge();
        drop(guard);
    }

    /// Gives the turn back to the pass that took it, with one entry of this pass more than was taken. The entry is
    /// named by its snapshot, which is no copy and costs nothing.
    pub fn give_entry(self, pass: &mut Pass<V::Entry>, entry: Snapshot<V::Entry>)
        requires turn { IsTaken self }
        requires pass { HasTaken pass.old self }
        requires value { V.stands (value_of self) (taken self ++ (turn_number self, entry.value) ∷ []) }
        ensures pass { IsOf (cell_of self.entry) pass.new }
        ensures number { number_of pass.new ≡ number_of pass.old }
        ensures numbers { numbers_of pass.new ≡ turn_numbers self.entry }
        ensures seen { seen_of pass.new ≡ taken self.entry ++ (turn_number self.entry, entry.value) ∷ [] }
    {
        self.give_as(pass, entry);
    }

    /// Gives the turn back to the pass that took it, with no entry more.
    pub fn give_same(self, pass: &mut Pass<V::Entry>)
        requires turn { IsTaken self }
        requires pass { HasTaken pass.old self }
        requires value { V.stands (value_of self) (taken self) }
        ensures pass { IsOf (cell_of self.entry) pass.new }
        ensures number { number_of pass.new ≡ number_of pass.old }
        ensures numbers { numbers_of pass.new ≡ turn_numbers self.entry }
        ensures seen { seen_of pass.new ≡ taken self.entry }
    {
        self.give(pass);
    }

    // gives the turn back with this history, which is the one that was taken and the entry
    fn give_as(self, pass: &mut Pass<V::Entry>, entry: Snapshot<V::Entry>)
        ghost history: { List (ℕ × V.Entry) }
        requires turn { IsTaken self }
        requires pass { HasTaken pass.old self }
        requires history { history ≡ taken self ++ (turn_number self, entry.value) ∷ [] }
        requires value { V.stands (value_of self) history }
        ensures pass { IsOf (cell_of self.entry) pass.new }
        ensures number { number_of pass.new ≡ number_of pass.old }
        ensures numbers { numbers_of pass.new ≡ turn_numbers self.entry }
        ensures seen { seen_of pass.new ≡ history }
    {
        let _ = entry;
        self.give(pass);
    }
}
