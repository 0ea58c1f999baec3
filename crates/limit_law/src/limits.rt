//! An answer is full where a limit is reached, and nothing is opened there.

ghost use Rattle.std.specs.Prelude.{◌≡◌, ◌≤◌, ◌<◌, ℕ, true};
ghost use Rattle.history.specs.Event.{Event, History};
ghost use Rattle.history.specs.History.{reply_to};
ghost use Rattle.history.specs.World.{Made};
ghost use Rattle.history.specs.declared.reply.Reply.TheVariants as reply;
ghost use Rattle.limit_law.specs.Counts.{HasRoom, IsFull, opened_in, opens};

/// A call is answered that a limit is reached only where one is, and its count is told; an answer that opens something
/// comes only where none is. Each such answer is counted, and never more of them are given than the limit says.
pub fn a_limit_is_told_where_it_is_reached()
    ensures full { (made : Made) (h : History) (pass count : ℕ) (event : Event)
        → reply_to made h (pass, event) ≡ reply.Full count → IsFull made h event count }
    ensures room { (made : Made) (h : History) (pass : ℕ) (event : Event)
        → opens (reply_to made h (pass, event)) ≡ true
        → HasRoom made h event × (opened_in made h < made.limits.opened) }
    ensures most { (made : Made) (h : History) → opened_in made h ≤ made.limits.opened }
{}
