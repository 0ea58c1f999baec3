//! What is admitted is admitted by metadata that holds.

ghost use Rattle.std.specs.Prelude.{◌≡◌, ℕ, IsTrue};
ghost use Rattle.delivery_law.specs.Metadata.{HasUnhitMetadata, uses_metadata};
ghost use Rattle.history.specs.Event.{History, Admit, Request};
ghost use Rattle.history.specs.History.{reply_to};
ghost use Rattle.history.specs.World.{Made};

/// Where an admission is allowed, or denied by a rule that is read from the metadata, metadata is installed, the last
/// that was installed before it; its refresh began and was ended before it, by the pass that began it; and no
/// invalidate or purge that started since the refresh began hits one of its documents.
pub fn an_admission_uses_metadata_that_no_start_has_hit()
    ensures { (made : Made) (h : History) (pass : ℕ) (request : Request) (moment : ℕ)
        → IsTrue (uses_metadata (reply_to made h (pass, Admit request moment)))
        → HasUnhitMetadata made h }
{}
