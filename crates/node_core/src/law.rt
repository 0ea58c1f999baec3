//! The laws, for every history.

ghost use Rattle.std.specs.Prelude.{◌≡◌, ℕ};
ghost use Rattle.history.specs.Event.{Event, History};
ghost use Rattle.history.specs.History.{reply_to};
ghost use Rattle.history.specs.World.{Made};
ghost use Rattle.history.specs.declared.reply.Reply.{Reply};
ghost use Rattle.node_core.specs.Law.{IsLawful};

use delivery_law::denials::a_denial_names_the_first_rule_that_forbids;
use delivery_law::fetches::{a_hit_gives_what_one_fetch_brought, a_miss_begins_its_own_fetch};
use delivery_law::log_rows::each_row_belongs_to_one_finish_and_one_admit;
use delivery_law::metadata::an_admission_uses_metadata_that_no_start_has_hit;
use delivery_law::refreshes::{
    a_refresh_is_due_where_no_fresh_metadata_is_installed,
    metadata_is_stale_where_a_start_has_hit_it, the_latest_refresh_is_installed,
};
use kept_law::kept_objects::kept_objects_are_the_most_recently_used;
use limit_law::limits::a_limit_is_told_where_it_is_reached;
use record_law::log_files::the_record_has_each_row_once;
use trigger_law::accounts::a_trigger_stands_where_its_calls_left_it;
use trigger_law::cancels::a_cancel_cancels_what_it_names;

/// What is answered as the history before it says keeps the laws: those of admissions, refreshes and triggers, of the
/// record, of what is kept, and of the limits.
pub fn every_answer_is_lawful()
    ensures { (made : Made) (h : History) (pass : ℕ) (event : Event) (answer : Reply)
        → answer ≡ reply_to made h (pass, event) → IsLawful made h pass event answer }
{
    a_denial_names_the_first_rule_that_forbids();
    a_hit_gives_what_one_fetch_brought();
    a_miss_begins_its_own_fetch();
    an_admission_uses_metadata_that_no_start_has_hit();
    a_refresh_is_due_where_no_fresh_metadata_is_installed();
    metadata_is_stale_where_a_start_has_hit_it();
    the_latest_refresh_is_installed();
    a_trigger_stands_where_its_calls_left_it();
    a_cancel_cancels_what_it_names();
    each_row_belongs_to_one_finish_and_one_admit();
    the_record_has_each_row_once();
    kept_objects_are_the_most_recently_used();
    a_limit_is_told_where_it_is_reached();
}
