//! By which calls a trigger came to stand where it does.

ghost use Rattle.std.specs.Prelude.{◌≡◌, ℕ, Some};
ghost use Rattle.history.specs.Event.{History};
ghost use Rattle.history.specs.History.{world_of};
ghost use Rattle.history.specs.Steps.{trigger_of};
ghost use Rattle.history.specs.World.{Made, Trigger};
ghost use Rattle.trigger_law.specs.Accounts.{IsAccountedFor};

/// A trigger was made by a command at its creation time, with the specification that it has, and the call at its change
/// time gave it its status (RFC 8007, section 5.1.2). An invalidate or a purge that is active, cancelling or complete
/// became active before.
pub fn a_trigger_stands_where_its_calls_left_it()
    ensures { (made : Made) (h : History) (id : ℕ) (trigger : Trigger)
        → trigger_of id (world_of made h).controlling.triggers ≡ Some trigger
        → IsAccountedFor made h id trigger }
{}
