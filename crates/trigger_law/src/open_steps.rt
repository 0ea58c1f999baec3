//! Triggers whose last step is open, and their numbers.

ghost use Rattle.std.specs.Prelude.{◌≡◌, ℕ, ◌++◌, Some};
ghost use Rattle.history.specs.After.{created_trigger};
ghost use Rattle.history.specs.Event.{Advance, Entry, History};
ghost use Rattle.history.specs.History.{reply_to};
ghost use Rattle.history.specs.World.{Made};
ghost use Rattle.history.specs.declared.reply.Reply.TheVariants as reply;
ghost use Rattle.trigger_law.specs.OpenSteps.{IsStepOpen};

/// Where a pass is answered that the step before is open, a step of the same trigger by the same pass began a fetch or a refresh
/// of the number that is told (RFC 8007, section 2), and the pass has not asked for its end since. So a pass that ends what each
/// of its steps begins is never answered so.
pub fn a_step_that_was_ended_is_not_open()
    ensures { (made : Made) (h : History) (pass id moment number : ℕ)
        → reply_to made h (pass, Advance id moment) ≡ reply.StepOpen number
        → IsStepOpen made h number pass id }
{}

/// A new trigger has a new number: until then a step of that number was answered that there is no such trigger.
pub fn a_new_trigger_has_a_new_number()
    ensures { (made : Made) (before since : History) (created : Entry) (pass id moment : ℕ)
        → created_trigger (reply_to made (before ++ since) created) ≡ Some id
        → reply_to made before (pass, Advance id moment) ≡ reply.Unknown id }
{}
