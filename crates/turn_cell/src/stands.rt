ghost use Rattle.std.specs.Prelude.{ℕ, List};

/// A value that stands for a history: the entries in order, each with the number of the pass that made it, oldest
/// first. One value may stand for several histories, since it need not keep them.
pub trait Stands: Drop {
    type Entry;

    ghost stands: { Self → List (ℕ × Self.Entry) → Type 0 };
}
