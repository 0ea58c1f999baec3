//! What holds of every session. Each function does nothing: its contract is the law.

ghost use Rattle.std.specs.Prelude.{◌≡◌, ◌≢◌, ◌<◌, ◌↔◌, false, length};
ghost use Rattle.cdni_base.specs.declared.asked.Asked.{Asked};
ghost use Rattle.control_request.specs.Control.{Triggers};
ghost use Rattle.control_request.specs.declared.advance.Step.TheVariants as step;
ghost use Rattle.history.specs.Event.{History};
ghost use Rattle.location_acl.specs.declared.footprint.Place.{Place};
ghost use Rattle.node_core.specs.Home.{Who};
ghost use Rattle.targets.specs.declared.target.Target.{Target};
ghost use Rattle.session_base.specs.Answer.{wire};
ghost use Rattle.session.specs.Answered.{answered};
ghost use Rattle.content_request.specs.Course.{Content, IsAnswerOf};
ghost use Rattle.session_base.specs.Doing.{Doing, Told};
ghost use Rattle.session.specs.Ended.{AllEnded};
ghost use Rattle.session.specs.Recorded.{AllRecorded};
ghost use Rattle.session.specs.Session.{Session};
ghost use Rattle.session.specs.Settled.{AllButLastRest, AllButLastSettle, AllRest, AllSettle, NoStepStaysOpen, RestsIn};
ghost use Rattle.trigger_command.specs.Spec.{SpecParts};
ghost use Rattle.content_request.specs.Telling.{AllTellOf, BroughtNothing};
ghost use Rattle.session_base.specs.declared.ending.Ending.{Ending};
ghost use Rattle.session_base.specs.declared.ending.Ending.TheVariants as ending;
ghost use Rattle.session_base.specs.declared.ending.Next.{Next};
ghost use Rattle.session_base.specs.declared.manner.Manner.{Manner};
ghost use Rattle.session.specs.declared.serve.TheConstants.{TURNS_MAX};
ghost use Rattle.session_base.specs.declared.settings.Settings.{Settings};

use delivery_law::log_rows::each_row_belongs_to_one_finish_and_one_admit;
use history::laws::what_is_open_has_begun_and_not_ended;
use trigger_law::final_triggers::a_final_trigger_stays_final;
use trigger_law::open_steps::{a_new_trigger_has_a_new_number, a_step_that_was_ended_is_not_open};

/// Each delivery that is admitted in a session is finished in it, and each fetch and refresh that is begun is ended.
pub fn what_is_opened_is_ended()
    ensures { (settings : Settings) (place : Place) (d : Doing) (end : Ending)
        → Session settings place d end → AllEnded d.calls }
{}

/// The end of a delivery tells the status of its answer, how many bytes the sink took, and how many of them were of the
/// body.
pub fn the_end_of_a_delivery_tells_what_was_written()
    ensures { (root : Target) (asked : Asked) (place : Place) (manner : Manner) (d : Doing) (after : Next)
        → (content : Content root asked place manner d after)
        → AllTellOf content.answer (length d.written) d.calls }
{}

/// Where the origins were asked and brought nothing, the answer is 502.
pub fn a_fetch_that_brings_nothing_is_a_bad_gateway()
    ensures { (root : Target) (asked : Asked) (place : Place) (manner : Manner) (d : Doing) (after : Next)
        → (content : Content root asked place manner d after)
        → BroughtNothing content.course → content.answer.status ≡ 502 }
{}

/// Each delivery that is ended in a session has its row in what a history leaves in which the session's calls were made, with
/// the status, the bytes and the moment that were told.
pub fn each_delivery_of_a_session_has_its_row()
    ensures { (who : Who) (settings : Settings) (place : Place) (d : Doing) (end : Ending) (h last : History)
        → Session settings place d end → Told who h d.calls last → AllRecorded who.made last d.calls }
{
    what_is_open_has_begun_and_not_ended();
    each_row_belongs_to_one_finish_and_one_admit();
}

/// Where the sink did not fail, it took the whole answer to a request for content, which is that of how the delivery went: a denial,
/// what was kept or fetched, a reached limit, or want of memory.
pub fn a_request_for_content_is_answered_whole()
    ensures whole { (root : Target) (asked : Asked) (place : Place) (manner : Manner) (d : Doing) (after : Next)
        → (content : Content root asked place manner d after)
        → content.fault ≡ false → d.written ≡ wire content.answer }
    ensures answer { (root : Target) (asked : Asked) (place : Place) (manner : Manner) (d : Doing) (after : Next)
        → (content : Content root asked place manner d after)
        → IsAnswerOf manner content.course content.answer }
{}

/// The answer is 502 only where the origins were asked and brought nothing.
pub fn a_bad_gateway_comes_of_nothing_else()
    ensures { (root : Target) (asked : Asked) (place : Place) (manner : Manner) (d : Doing) (after : Next)
        → (content : Content root asked place manner d after)
        → content.answer.status ≡ 502 → BroughtNothing content.course }
{}

/// A session ends in `Turns` exactly where 10,000 requests were answered in it, and in `Closed` only where fewer were.
pub fn the_last_turn_ends_a_session()
    ensures turns { (settings : Settings) (place : Place) (d : Doing) (end : Ending)
        → (session : Session settings place d end)
        → (end ≡ ending.Turns) ↔ (answered session.0 end ≡ TURNS_MAX) }
    ensures closed { (settings : Settings) (place : Place) (d : Doing) (end : Ending)
        → (session : Session settings place d end)
        → end ≡ ending.Closed → answered session.0 end < TURNS_MAX }
{}

/// Each trigger that is created in a session makes its steps there until it has its last status or a step is refused: where it is
/// deleted, another pass makes its steps, or a limit is reached. In the history to which the session leads it then came to its last
/// status, which it has unless it was deleted since; or a step was refused. No step finds the step before open, since each was
/// ended. Only a session that ends for want of memory may have found none for a step of its last trigger, and of no other one.
pub fn each_new_trigger_becomes_final()
    ensures steps { (settings : Settings) (spec : SpecParts) (manner : Manner) (d : Doing) (after : Next)
        → (trigger : Triggers settings spec manner d after)
        → trigger.last ≢ step.Memory → RestsIn trigger.id trigger.steps.calls }
    ensures rests { (settings : Settings) (place : Place) (d : Doing) (end : Ending)
        → Session settings place d end → end ≢ ending.Memory → AllRest d.calls }
    ensures rests_before { (settings : Settings) (place : Place) (d : Doing) (end : Ending)
        → Session settings place d end → AllButLastRest d.calls }
    ensures ended { (who : Who) (settings : Settings) (place : Place) (d : Doing) (end : Ending) (h last : History)
        → Session settings place d end → Told who h d.calls last → NoStepStaysOpen d.calls }
    ensures settles { (who : Who) (settings : Settings) (place : Place) (d : Doing) (end : Ending) (h last : History)
        → Session settings place d end → Told who h d.calls last → end ≢ ending.Memory
        → AllSettle who.made last d.calls }
    ensures settles_before { (who : Who) (settings : Settings) (place : Place) (d : Doing) (end : Ending) (h last : History)
        → Session settings place d end → Told who h d.calls last → AllButLastSettle who.made last d.calls }
{
    a_final_trigger_stays_final();
    a_step_that_was_ended_is_not_open();
    a_new_trigger_has_a_new_number();
}
