//! What holds of every session where a limit is reached. The function does nothing: its contract is the law.

ghost use Rattle.std.specs.Prelude.{◌≡◌, ℕ};
ghost use Rattle.cdni_base.specs.declared.asked.Asked.{Asked};
ghost use Rattle.content_request.specs.Course.{Content};
ghost use Rattle.control_request.specs.Control.{Course, IsAnswerOf, course_calls};
ghost use Rattle.location_acl.specs.declared.footprint.Place.{Place};
ghost use Rattle.session.specs.Full.{IsFullIn, IsUnavailable, IsUnavailableControl};
ghost use Rattle.session_base.specs.Answer.{Answer};
ghost use Rattle.session_base.specs.Content.{IsShown, full_shown};
ghost use Rattle.session_base.specs.Doing.{Doing};
ghost use Rattle.session_base.specs.declared.ending.Next.{Next};
ghost use Rattle.session_base.specs.declared.manner.Manner.{Manner};
ghost use Rattle.session_base.specs.declared.settings.Settings.{Settings};
ghost use Rattle.targets.specs.declared.target.Target.{Target};

/// Where a call of a request was answered that a limit is reached, but for the steps of a new trigger, the answer is 503 with
/// this number. A request is answered 503 for nothing else but a denial of this status and want of memory.
pub fn a_reached_limit_is_answered()
    ensures content { (root : Target) (asked : Asked) (place : Place) (manner : Manner) (d : Doing) (after : Next)
        → (content : Content root asked place manner d after) → (count : ℕ)
        → IsFullIn d.calls count → IsShown (full_shown manner count) content.answer }
    ensures only_content { (root : Target) (asked : Asked) (place : Place) (manner : Manner) (d : Doing) (after : Next)
        → (content : Content root asked place manner d after)
        → content.answer.status ≡ 503 → IsUnavailable manner d.calls content.answer }
    ensures control { (settings : Settings) (manner : Manner) (course : Course) (answer : Answer)
        → IsAnswerOf settings manner course answer → (count : ℕ)
        → IsFullIn (course_calls course) count → IsShown (full_shown manner count) answer }
    ensures only_control { (settings : Settings) (manner : Manner) (course : Course) (answer : Answer)
        → IsAnswerOf settings manner course answer → answer.status ≡ 503 → IsUnavailableControl course answer }
{}
