//! What takes content and metadata back.

ghost use Rattle.std.specs.Prelude.{◌≡◌, ℕ, All};
ghost use Rattle.std.specs.List.{Contains};
ghost use Rattle.delivery_law.specs.Starts.{BecameActive, StartsWith};
ghost use Rattle.history.specs.Event.{History};
ghost use Rattle.history.specs.History.{world_of};
ghost use Rattle.history.specs.World.{Made, Start, Trigger};

/// The starts of a history are the steps at which an invalidate or a purge became active, and no others.
pub fn a_start_is_where_a_trigger_becomes_active()
    ensures each { (made : Made) (h : History) → All (λ start. (trigger : Trigger)
        × BecameActive made h start.at trigger × StartsWith start start.at trigger)
        (world_of made h).delivering.starts }
    ensures every { (made : Made) (h : History) (at : ℕ) (trigger : Trigger) → BecameActive made h at trigger
        → (start : Start) × Contains (world_of made h).delivering.starts start × StartsWith start at trigger }
{}
