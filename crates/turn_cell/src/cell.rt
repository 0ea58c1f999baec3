ghost use Rattle.std.specs.Prelude.{◌≡◌, ℕ, ◌-◌, ◌+◌, ◌%◌, ◌^◌, ◌<◌, [], ◌∷◌, ◌++◌, map, All, Contains, IfOk, Some};

use crate::list::PassList;
use crate::pass::Pass;
use crate::plays::{CutOff, Draw, Learn, Look, Merge, PassOn, Told};
use crate::stands::Stands;
use crate::turn::Turn;
use crate::view::{TurnRule, View};
use atomic_table::{Badge, Seat, Table};
use std::alloc::{AllocError, Global};
use std::sync::{Mutex, MutexGuard, Wait};
use std::{hint, mem};

/// How often a thread looks before it sleeps.
const LOOKS: u32 = 100;

/// How often a thread looks whether the turn of another one is over, before it waits at the lock.
const ENTRY_LOOKS: u32 = 300;

/// One value and its history, at which the passes take turns.
#[derive(Drop)]
pub struct TurnCell<V: Stands> {
    pub(crate) table: Table<Option<V>, View<V::Entry>, u32, TurnRule, Global>,
    // Taken before a ticket is drawn. Threads wait here, so that no turn has to wait until a sleeper is awake.
    lock: Mutex<u64>,
    ghost sized: { (table.shared.table_id.words ≡ 2) × (table.shared.table_id.slots ≡ 1) },
}

impl<V: Stands> TurnCell<V> {
    ghost use Rattle.turn_cell.specs.declared.view.Stage.TheVariants.{Resting, Waiting, Serving};
    ghost use Rattle.turn_cell.specs.History.{numbers_from, longer, AllBelow, FollowedByOthers, FollowedByOwn};
    ghost use Rattle.turn_cell.specs.View.{maker, maker_with, having_seen};
    ghost use Rattle.turn_cell.specs.Plays.{Gets};
    ghost use Rattle.turn_cell.specs.Cell.{number_of, numbers_of, seen_of, passes_of, IsOf, HasAllNumbers, IsTaken, HasTaken, cell_of, turn_number, turn_numbers, value_of, taken};

    /// A cell round a value with no history, and its passes.
    ///
    /// # Errors
    /// Want of memory. The value is then dropped.
    pub fn new<R>(
        _rt: &R,
        alloc: Global,
        value: V,
        passes: u32,
    ) -> Result<(TurnCell<V>, PassList<V::Entry>), AllocError>
        requires { V.stands value [] }
        ensures count { IfOk result (λ made. passes_of made.0 ≡ passes) }
        ensures numbered { IfOk result (λ made. map number_of made.1 ≡ numbers_from 0 passes) }
        ensures cell { IfOk result (λ made. All (λ pass. IsOf made.0 pass) made.1) }
        ensures own { IfOk result (λ made. All (λ pass. numbers_of pass ≡ number_of pass ∷ []) made.1) }
        ensures unseen { IfOk result (λ made. All (λ pass. seen_of pass ≡ []) made.1) }
    {
        let mut slots = Vec::with_capacity(alloc, 1)?;
        slots.push(Some(value))?;
        let Ok((table, maker)) = Table::new(alloc, &[0, 0], slots, &passes) else {
            return Err(AllocError);
        };
        let cell = TurnCell {
            table,
            lock: Mutex::new(0),
        };
        let passes = cell.make_passes(alloc, maker, passes)?;
        Ok((cell, passes))
    }

    fn make_passes(
        &self,
        alloc: Global,
        mut seat: Seat<Option<V>, View<V::Entry>>,
        passes: u32,
    ) -> Result<PassList<V::Entry>, AllocError>
        requires count { passes_of self.now ≡ passes }
        requires seat { (seat.table_id ≡ self.now.table.shared.table_id) × (seat.id ≡ 0)
            × (seat.me ≡ (maker passes, [])) }
        ensures numbered { IfOk result (λ list. map number_of list ≡ numbers_from 0 passes) }
        ensures cell { IfOk result (λ list. All (λ pass. IsOf self.entry.now pass) list) }
        ensures own { IfOk result (λ list. All (λ pass. numbers_of pass ≡ number_of pass ∷ []) list) }
        ensures unseen { IfOk result (λ list. All (λ pass. seen_of pass ≡ []) list) }
    {
        let mut list = PassList::new(alloc);
        for number in 0..passes {
            let pass = self.make_pass(&mut seat, number);
            list.push(pass)?;
        }
        Ok(list)
    }

    fn make_pass(&self, seat: &mut Seat<Option<V>, View<V::Entry>>, number: u32) -> Pass<V::Entry>
        requires below { number < passes_of self.now }
        requires seat { (seat.old.table_id ≡ self.now.table.shared.table_id) × (seat.old.id ≡ 0) }
        requires numbers { seat.old.me ≡ (
          maker_with (passes_of self.now) (numbers_from number
              (passes_of self.now - number)),
          [],
        ) }
        ensures seat { (seat.new.table_id ≡ seat.old.table_id) × (seat.new.id ≡ 0) }
        ensures numbers { seat.new.me ≡ (
          maker_with (passes_of self.now) (numbers_from (number + 1)
              (passes_of self.now - (number + 1))),
          [],
        ) }
        ensures pass { IsOf self.now result }
        ensures number { number_of result ≡ number }
        ensures own { numbers_of result ≡ number ∷ [] }
        ensures unseen { seen_of result ≡ [] }
    {
        let cut = self.table.shared.split_seat::<CutOff>(seat);
        Pass {
            number,
            badge: cut.into_badge(),
        }
    }

    /// Waits for a turn. The value stands for what the pass had seen, followed by entries of other passes.
    pub fn take<'c, R: Wait>(&'c self, rt: &R, pass: &mut Pass<V::Entry>) -> Turn<'c, V>
        requires { IsOf self.now pass.old }
        ensures cell { cell_of result ≡ self.now }
        ensures turn { IsTaken result }
        ensures pass { HasTaken pass.new result }
        ensures number { turn_number result ≡ number_of pass.old }
        ensures numbers { turn_numbers result ≡ numbers_of pass.old }
        ensures history { FollowedByOthers (numbers_of pass.old) (seen_of pass.old) (taken result) }
        ensures made { AllBelow (passes_of self.now) (taken result) }
        ensures value { V.stands (value_of result) (taken result) }
    {
        let guard = self.enter(rt);
        let badge = mem::replace(&mut pass.badge, Badge::blank());
        let mut seat = badge.into_seat::<Option<V>>();
        let ticket = self.table.shared.fetch_add::<Draw>(&mut seat, 0, 1);
        self.wait_for(rt, &mut seat, ticket);
        let old = self.table.shared.exchange(&mut seat, 0, None);
        let Some(value) = old else { unreachable!() };
        Turn {
            cell: self,
            seat,
            number: pass.number,
            value,
            guard,
        }
    }

    // Takes the lock. It looks at the turn for a while before it waits: most turns are shorter than falling asleep and
    // waking up.
    fn enter<R: Wait>(&self, rt: &R) -> MutexGuard<'_, u64> {
        let shared = &self.table.shared;
        for _ in 0..ENTRY_LOOKS {
            if shared.peek(0) == shared.peek(1) {
                if let Some(guard) = self.lock.try_lock() {
                    return guard;
                }
            }
            hint::spin_loop();
        }
        self.lock.lock(rt)
    }

    // Returns once the ticket is the one that is served.
    fn wait_for<R: Wait>(&self, rt: &R, seat: &mut Seat<Option<V>, View<V::Entry>>, ticket: u64)
        requires seat { seat.old.table_id ≡ self.now.table.shared.table_id }
        requires ticket { (k : ℕ) × (seat.old.me.0.stage ≡ Waiting k) × (ticket ≡ k % 2 ^ 64) }
        requires slot { seat.old.me.1 ≡ [] }
        ensures seat { (seat.new.table_id ≡ seat.old.table_id) × (seat.new.id ≡ seat.old.id) }
        ensures turn { (k : ℕ) × Gets V.stands k seat.old.me seat.new.me }
    {
        let shared = &self.table.shared;
        let mut looks = 0;
        for _ in rt.forever() {
            let served = shared.load::<Look>(seat, 1);
            if served == ticket {
                return;
            }
            if looks < LOOKS {
                looks += 1;
                hint::spin_loop();
            } else {
                shared.park(rt, 1, (served % (1 << 32)) as u32);
            }
        }
        unreachable!()
    }

    // Ends the turn and wakes those that sleep, if anybody waits.
    pub(crate) fn pass_on<J: Told<V::Entry>>(&self, seat: &mut Seat<Option<V>, View<V::Entry>>)
        requires seat { seat.old.table_id ≡ self.now.table.shared.table_id }
        requires turn { (k : ℕ) × (seat.old.me.0.stage ≡ Serving k) }
        requires own { (number : ℕ) × Contains seat.old.me.0.numbers number
            × FollowedByOwn number seat.old.me.0.seen J.history }
        requires value { (x : V) × (seat.old.me.1 ≡ (0, Some x) ∷ []) × V.stands x J.history }
        ensures seat { (seat.new.table_id ≡ seat.old.table_id) × (seat.new.id ≡ seat.old.id) }
        ensures seen { seat.new.me ≡ (having_seen J.history Resting seat.old.me.0, []) }
    {
        let served = self.table.shared.fetch_add::<PassOn<J>>(seat, 1, 1);
        if self.table.shared.peek(0) != served.wrapping_add(1) {
            self.table.shared.wake_all(1);
        }
    }

    /// Takes the pass `gone` into `keep`, which then has the longer of what they had seen, and the numbers of both.
    pub fn join_pass(&self, keep: &mut Pass<V::Entry>, gone: Pass<V::Entry>)
        requires keep { IsOf self.now keep.old }
        requires gone { IsOf self.now gone }
        ensures pass { IsOf self.now keep.new }
        ensures number { number_of keep.new ≡ number_of keep.old }
        ensures numbers { numbers_of keep.new ≡ numbers_of keep.old ++ numbers_of gone }
        ensures longer { seen_of keep.new ≡ longer (seen_of keep.old) (seen_of gone) }
        ensures after_keep { FollowedByOthers (numbers_of keep.old) (seen_of keep.old) (seen_of keep.new) }
        ensures after_gone { FollowedByOthers (numbers_of gone) (seen_of gone) (seen_of keep.new) }
    {
        let badge = mem::replace(&mut keep.badge, Badge::blank());
        let mut seat = badge.into_seat::<Option<V>>();
        let Pass { number: _, badge } = gone;
        self.table
            .shared
            .join_seat::<Merge>(&mut seat, badge.into_seat::<Option<V>>());
        self.table.shared.load::<Learn>(&mut seat, 0);
        keep.badge = seat.into_badge();
    }

    /// Ends the cell, once all other passes were joined into this one, and gives the value, which stands for all that
    /// the pass has seen.
    pub fn close(self, last: Pass<V::Entry>) -> V
        requires pass { IsOf self last }
        requires all { HasAllNumbers self last }
        ensures { V.stands result (seen_of last) }
    {
        let TurnCell { table, lock: _ } = self;
        let Pass { number: _, badge } = last;
        let mut closed = table.close_with(badge.into_seat::<Option<V>>());
        let old = closed.take(0);
        closed.free();
        let Some(value) = old else { unreachable!() };
        value
    }
}
