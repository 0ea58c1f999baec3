//! A trigger that a status resource shows can be commanded again.

ghost use Rattle.std.specs.Prelude.{◌≡◌, ℕ, List, All, Contains, Ok, Some, codes};
ghost use Rattle.cdni_base.specs.Provider.{IsProvider};
ghost use Rattle.cdni_base.specs.declared.provider.ProviderId.{ProviderId};
ghost use Rattle.trigger_status.specs.Command.{command_text};
ghost use Rattle.serde_json.specs.Find.{get};
ghost use Rattle.trigger_command.specs.Reading.{command_of};
ghost use Rattle.trigger_command.specs.Spec.{SpecParts};
ghost use Rattle.trigger_command.specs.declared.command.Act.TheVariants as act;
ghost use Rattle.trigger_command.specs.declared.command.Command.{Command};
ghost use Rattle.trigger_status.specs.Job.{job_data, trigger_data};
ghost use Rattle.trigger_status.specs.declared.job.Job.{Job};

/// The `trigger` of a status resource (RFC 8007, section 5.1.2) is read as the trigger that it is of, where it is put
/// into a command for any CDN whose id is not in its path.
pub fn what_a_status_resource_shows_reads_as_the_same_trigger()
    ensures shown { (job : Job) → get (codes "trigger") (job_data job) ≡ Some (trigger_data job.spec) }
    ensures read { (own other : ProviderId) (control elsewhere text : List ℕ) (command : Command) (spec : SpecParts)
        (path : List ProviderId)
        → command_of own control text ≡ Ok command → command.act ≡ act.Trigger spec
        → All (λ id. IsProvider id.0) path → (Contains path other → ⊥)
        → command_of other elsewhere (command_text path spec)
        ≡ Ok (record { path = path; act = act.Trigger spec }) }
{}
