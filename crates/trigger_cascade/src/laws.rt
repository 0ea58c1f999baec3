//! What the rounds mean, as laws above their definition. Each function does nothing: its contract is the law.

ghost use Rattle.std.specs.Prelude.{◌≡◌, List, Some};
ghost use Rattle.std.specs.declared.alloc.Global.{Global};
ghost use Rattle.std.specs.Prelude.{String};
ghost use Rattle.cdni_base.specs.declared.provider.ProviderId.{ProviderId};
ghost use Rattle.trigger_cascade.specs.Cascade.{passed_text, Runs};
ghost use Rattle.trigger_cascade.specs.Law.{posts_due, posts_of, ArePolledOut};
ghost use Rattle.trigger_cascade.specs.Order.{order_of};
ghost use Rattle.trigger_cascade.specs.OrderParts.{OrderParts};
ghost use Rattle.trigger_cascade.specs.declared.cdn.Cdn.{Cdn};
ghost use Rattle.trigger_cascade.specs.declared.link.LinkCall.{LinkCall};
ghost use Rattle.trigger_command.specs.Spec.{SpecParts};

/// Each CDN outside the path is posted to once, in order, with the command to whose path this CDN is added, and no other is.
pub fn each_other_cdn_is_posted_to_once()
    ensures { (words : List (String Global)) (order : OrderParts) (path : List ProviderId) (spec : SpecParts)
        (made : List LinkCall) (last : List Cdn) → order_of words ≡ Some order → Runs order path spec made (Some last)
        → posts_of made ≡ posts_due path (passed_text order path spec) order.cdns }
{}

/// A CDN is pending, active or cancelling at the end only where it was polled in each of the rounds.
pub fn an_open_cdn_was_polled_in_each_round()
    ensures { (words : List (String Global)) (order : OrderParts) (path : List ProviderId) (spec : SpecParts)
        (made : List LinkCall) (last : List Cdn) → order_of words ≡ Some order → Runs order path spec made (Some last)
        → ArePolledOut order.rounds made last }
{}
