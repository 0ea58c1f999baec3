//! What holds of connections that are served one after the other. The function does nothing but call
//! laws: its contract is the law.

ghost use Rattle.std.specs.Prelude.{List, All, length};
ghost use Rattle.std.specs.List.{flat_map};
ghost use Rattle.history.specs.Event.{History};
ghost use Rattle.location_acl.specs.declared.line.PlaceLine.{PlaceLine};
ghost use Rattle.node_core.specs.Home.{Who};
ghost use Rattle.session_base.specs.Doing.{Told};
ghost use Rattle.session_base.specs.declared.settings.Settings.{Settings};
ghost use Rattle.doors.specs.Ended.{EndsItsOwn};
ghost use Rattle.doors.specs.Visit.{IsVisit, Visit, calls_of};

use session::law::what_is_opened_is_ended;

/// Each delivery, fetch and refresh that the calls of visits begin is ended by a later one of these calls.
pub fn what_visits_open_is_ended()
    ensures { (settings : Settings) (table : List PlaceLine) (who : Who) (visits : List Visit) (h last : History)
        → All (λ (v : Visit). IsVisit settings table v) visits → Told who h (flat_map calls_of visits) last
        → EndsItsOwn who (length h) last }
{
    what_is_opened_is_ended();
}
