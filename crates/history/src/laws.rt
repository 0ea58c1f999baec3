//! What the definitions mean, as laws above them. Each function does nothing: its contract is the law.

ghost use Rattle.std.specs.Prelude.{◌≡◌, ℕ, ◌<◌, ◌≤◌, ◌↔◌, ◌++◌, ◌∷◌, [], Some};
ghost use Rattle.history.specs.After.{after, begun_delivery, begun_fetch, begun_refresh};
ghost use Rattle.history.specs.Event.{Entry, History};
ghost use Rattle.history.specs.History.{reply_to, world_of};
ghost use Rattle.history.specs.Laws.{installed_refresh, ends_delivery, ends_fetch, ends_refresh, HasBegun, IsOpen};
ghost use Rattle.history.specs.World.{Made, nothing};

/// Nothing is left by the empty history, and each entry more changes what the entries before it left.
pub fn what_a_history_leaves()
    ensures empty { (made : Made) → world_of made [] ≡ nothing made }
    ensures more { (made : Made) (h : History) (entry : Entry)
        → world_of made (h ++ entry ∷ []) ≡ after (world_of made h) entry }
{}

/// The number of the installed refresh never falls.
pub fn the_installed_refresh_never_falls()
    ensures { (made : Made) (h more : History) →
        installed_refresh (world_of made h) ≤ installed_refresh (world_of made (h ++ more)) }
{}

/// A later delivery, fetch or refresh has a greater number, so no two have one number.
pub fn later_numbers_are_greater()
    ensures deliveries { (made : Made) (before between : History) (first second : Entry) (number later : ℕ)
        → begun_delivery (reply_to made before first) ≡ Some number
        → begun_delivery (reply_to made (before ++ first ∷ between) second) ≡ Some later → number < later }
    ensures fetches { (made : Made) (before between : History) (first second : Entry) (number later : ℕ)
        → begun_fetch (reply_to made before first) ≡ Some number
        → begun_fetch (reply_to made (before ++ first ∷ between) second) ≡ Some later → number < later }
    ensures refreshes { (made : Made) (before between : History) (first second : Entry) (number later : ℕ)
        → begun_refresh (reply_to made before first) ≡ Some number
        → begun_refresh (reply_to made (before ++ first ∷ between) second) ≡ Some later → number < later }
{}

/// A delivery, a fetch or a refresh is open exactly where its pass has begun it and has not asked for its end since.
pub fn what_is_open_has_begun_and_not_ended()
    ensures deliveries { (made : Made) (h : History) (number pass : ℕ)
        → IsOpen number pass (world_of made h).delivering.deliveries
        ↔ HasBegun made begun_delivery ends_delivery h number pass }
    ensures fetches { (made : Made) (h : History) (number pass : ℕ)
        → IsOpen number pass (world_of made h).delivering.fetches
        ↔ HasBegun made begun_fetch ends_fetch h number pass }
    ensures refreshes { (made : Made) (h : History) (number pass : ℕ)
        → IsOpen number pass (world_of made h).delivering.refreshes
        ↔ HasBegun made begun_refresh ends_refresh h number pass }
{}

/// An entry of another pass ends nothing.
pub fn another_pass_ends_nothing()
    ensures deliveries { (made : Made) (h : History) (number pass : ℕ) (entry : Entry) → (entry.0 ≡ pass → ⊥)
        → IsOpen number pass (world_of made h).delivering.deliveries
        → IsOpen number pass (world_of made (h ++ entry ∷ [])).delivering.deliveries }
    ensures fetches { (made : Made) (h : History) (number pass : ℕ) (entry : Entry) → (entry.0 ≡ pass → ⊥)
        → IsOpen number pass (world_of made h).delivering.fetches
        → IsOpen number pass (world_of made (h ++ entry ∷ [])).delivering.fetches }
    ensures refreshes { (made : Made) (h : History) (number pass : ℕ) (entry : Entry) → (entry.0 ≡ pass → ⊥)
        → IsOpen number pass (world_of made h).delivering.refreshes
        → IsOpen number pass (world_of made (h ++ entry ∷ [])).delivering.refreshes }
{}
