//! What a cancel does to the triggers that it names.

ghost use Rattle.std.specs.Prelude.{◌≡◌, ℕ, List, ◌++◌, ◌∷◌, [], Contains, Some};
ghost use Rattle.std.specs.List.{slice_get};
ghost use Rattle.history.specs.Event.{History, Cancel};
ghost use Rattle.history.specs.History.{reply_to, world_of};
ghost use Rattle.history.specs.Steps.{trigger_of};
ghost use Rattle.history.specs.World.{Made};
ghost use Rattle.history.specs.declared.reply.Reply.TheVariants as reply;
ghost use Rattle.trigger_law.specs.Accounts.{IsCancelled};
ghost use Rattle.trigger_status.specs.declared.job.JobStatus.{JobStatus};

/// After a cancel (RFC 8007, section 4.3) each trigger that it names is cancelled where it was pending, and is cancelling
/// where it was active; one that was cancelling already, or had ended, has the status that it had. The statuses are told
/// in the order of the numbers, and all other triggers are as they were.
pub fn a_cancel_cancels_what_it_names()
    ensures named { (made : Made) (h : History) (pass moment place id : ℕ) (ids : List ℕ) (list : List JobStatus)
        → reply_to made h (pass, Cancel ids moment) ≡ reply.Statuses list → slice_get ids place ≡ Some id
        → (status : JobStatus) × (slice_get list place ≡ Some status)
        × IsCancelled made h (pass, Cancel ids moment) id status }
    ensures others { (made : Made) (h : History) (pass moment id : ℕ) (ids : List ℕ) → (Contains ids id → ⊥)
        → trigger_of id (world_of made (h ++ (pass, Cancel ids moment) ∷ [])).controlling.triggers
        ≡ trigger_of id (world_of made h).controlling.triggers }
{}
