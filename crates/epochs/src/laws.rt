//! What forgetting starts leaves.

ghost use Rattle.std.specs.Prelude.{◌≡◌, ◌≤◌, ℕ, List, Option};
ghost use Rattle.cdni_base.specs.Key.{KeyParts};
ghost use Rattle.epochs.specs.EpochsList.{Event, all_starts, is_stale, known_after};

/// Whatever started and was forgotten, in any order: for what began at no epoch below one up to which starts were
/// forgotten, the starts that are known answer what all starts would.
pub fn forgotten_starts_are_not_missed()
    ensures { (events : List Event) (begun : ℕ) (key : KeyParts) (ccid : Option (List ℕ))
        → (known_after events).settled ≤ begun
        → is_stale (known_after events).starts begun key ccid ≡ is_stale (all_starts events) begun key ccid }
{}
