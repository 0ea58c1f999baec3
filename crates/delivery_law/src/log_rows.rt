//! The record has one row for each delivery that was finished, and no other.

ghost use Rattle.std.specs.Prelude.{◌≡◌, ℕ, ◌+◌, Some};
ghost use Rattle.std.specs.List.{AllPairs, slice_get};
ghost use Rattle.delivery_law.specs.LogRows.{HasRow, IsOfOneDelivery};
ghost use Rattle.history.specs.Event.{History, Finish};
ghost use Rattle.history.specs.History.{AnsweredAt, world_of};
ghost use Rattle.history.specs.World.{Made, Recorded};
ghost use Rattle.history.specs.declared.reply.Reply.TheVariants as reply;

/// Each row is of one delivery, which one pass admitted and later finished, and says what was asked and told of it; no
/// two rows are of one delivery; and each delivery that was finished has its row, with the status, the bytes and the
/// moment that were told.
pub fn each_row_belongs_to_one_finish_and_one_admit()
    ensures one { (made : Made) (h : History) (place : ℕ) (one : Recorded)
        → slice_get (world_of made h).delivering.rows place ≡ Some one → IsOfOneDelivery made h (place + 1) one }
    ensures apart { (made : Made) (h : History)
        → AllPairs (λ one other. one.delivery ≡ other.delivery → ⊥) (world_of made h).delivering.rows }
    ensures each { (made : Made) (h : History) (number at pass delivery status total entity end : ℕ)
        → AnsweredAt made h at (pass, Finish delivery status total entity end) (reply.Logged number)
        → HasRow (world_of made h).delivering.rows number at delivery status total entity end }
{}
