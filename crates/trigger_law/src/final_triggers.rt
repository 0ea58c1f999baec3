//! Triggers that have their last status.

ghost use Rattle.std.specs.Prelude.{◌≡◌, ◌⊎◌, ℕ, ◌++◌, ◌∷◌, [], true};
ghost use Rattle.std.specs.List.{list_any};
ghost use Rattle.history.specs.Event.{Advance, History};
ghost use Rattle.history.specs.History.{reply_to, world_of};
ghost use Rattle.history.specs.World.{Made};
ghost use Rattle.history.specs.declared.reply.Reply.TheVariants as reply;
ghost use Rattle.trigger_law.specs.FinalTriggers.{IsFinalIn, deletes};
ghost use Rattle.trigger_status.specs.declared.job.JobStatus.{JobStatus};

/// A trigger of which a step was answered that it has its last status (RFC 8007, section 5.2.3) has one from then on, until it
/// is deleted.
pub fn a_final_trigger_stays_final()
    ensures { (made : Made) (before since : History) (pass id moment : ℕ) (status : JobStatus)
        → reply_to made before (pass, Advance id moment) ≡ reply.Final status
        → IsFinalIn (world_of made ((before ++ (pass, Advance id moment) ∷ []) ++ since)) id
        ⊎ (list_any (deletes id) since ≡ true) }
{}
