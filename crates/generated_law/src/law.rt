//! The law of generated scripts.

ghost use Rattle.std.specs.Prelude.{ℕ, ◌+◌, ◌*◌, ◌≤◌};
ghost use Rattle.generated_law.specs.Law.{IsScript};
ghost use Rattle.generated_script.specs.Script.{script_of};
ghost use Rattle.generated_script.specs.declared.numbers.TheConstants.{MOST_ROUNDS};

/// A generated script is lines of the grammar of scripts, of which only the first sets the limits: at most nine for each
/// round and three more, each of fewer than 512 bytes.
pub fn a_generated_script_is_a_script()
    ensures { (rounds seed : ℕ) → rounds ≤ MOST_ROUNDS → IsScript (9 * rounds + 3) (script_of rounds seed) }
{}
