//! When the metadata is asked for, and which of what was brought is installed.

ghost use Rattle.std.specs.Prelude.{◌≡◌, ℕ, ◌+◌, ◌-◌, ◌^◌, ◌<◌, ◌≤◌, min, Some};
ghost use Rattle.delivery_law.specs.Denials.{IsInForce};
ghost use Rattle.delivery_law.specs.Refreshes.{IsFreshAt, IsUntouched, WasTakenBack};
ghost use Rattle.history.specs.Event.{History, RefreshBegin, RefreshEnd};
ghost use Rattle.history.specs.History.{AnsweredAt, reply_to};
ghost use Rattle.history.specs.World.{Installed, Made};
ghost use Rattle.history.specs.declared.reply.Reply.TheVariants as reply;
ghost use Rattle.metadata_objects.specs.Tree.{TreeData};
ghost use Rattle.std.specs.declared.option.Option.{Option};

/// No refresh is due exactly where valid metadata is installed that was asked for less than a period ago; the next one
/// is due when the period is over (RFC 8006, section 6.3).
pub fn a_refresh_is_due_where_no_fresh_metadata_is_installed()
    ensures early { (made : Made) (h : History) (pass moment next : ℕ)
        → reply_to made h (pass, RefreshBegin moment) ≡ reply.NotDue next
        → (installed : Installed) × IsFreshAt made h moment installed
        × (next ≡ min (installed.moment + made.limits.period) (2 ^ 64 - 1)) }
    ensures fresh { (made : Made) (h : History) (pass moment : ℕ) (installed : Installed)
        → IsFreshAt made h moment installed → reply_to made h (pass, RefreshBegin moment)
        ≡ reply.NotDue (min (installed.moment + made.limits.period) (2 ^ 64 - 1)) }
{}

/// What a refresh brings is stale where a trigger that became active since the refresh began hits a document of it, and
/// the first such one is told; where it is installed, or older than what is installed, none did.
pub fn metadata_is_stale_where_a_start_has_hit_it()
    ensures stale { (made : Made) (h : History) (pass refresh moment trigger : ℕ) (tree : TreeData)
        → reply_to made h (pass, RefreshEnd refresh (Some tree) moment) ≡ reply.Stale trigger
        → WasTakenBack made h pass refresh tree.resources trigger }
    ensures installed { (made : Made) (h : History) (pass refresh moment generation : ℕ) (tree : TreeData)
        → reply_to made h (pass, RefreshEnd refresh (Some tree) moment) ≡ reply.Installed generation
        → IsUntouched made h pass refresh tree }
    ensures older { (made : Made) (h : History) (pass refresh moment later : ℕ) (tree : TreeData)
        → reply_to made h (pass, RefreshEnd refresh (Some tree) moment) ≡ reply.Older later
        → IsUntouched made h pass refresh tree }
{}

/// The metadata that is installed is that of the latest refresh of those whose metadata was installed; what comes of an
/// earlier one is not installed any more.
pub fn the_latest_refresh_is_installed()
    ensures latest { (made : Made) (h : History) (installed : Installed) → IsInForce made h installed
        → (at pass refresh moment generation : ℕ) (tree : Option TreeData)
        → AnsweredAt made h at (pass, RefreshEnd refresh tree moment) (reply.Installed generation)
        → refresh ≤ installed.refresh }
    ensures older { (made : Made) (h : History) (pass refresh moment later : ℕ) (tree : TreeData)
        → reply_to made h (pass, RefreshEnd refresh (Some tree) moment) ≡ reply.Older later
        → (installed : Installed) × IsInForce made h installed × (installed.refresh ≡ later) × (refresh < later) }
{}
