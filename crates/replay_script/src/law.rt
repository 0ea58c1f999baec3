//! The law of deliveries over scripts.

ghost use Rattle.std.specs.Prelude.{ℕ, List};
ghost use Rattle.replay_script.specs.Law.{played, KeepsTheLaw};

use node_core::every_answer_is_lawful;

/// Whatever a script says, each answer of its history keeps the law of deliveries: a hit has what one fetch brought that
/// no later invalidation hits, a miss begins its own fetch, what is read from the metadata is read from metadata that
/// nothing has taken back, and a delivery that is finished has its row.
pub fn the_answers_of_a_script_are_lawful()
    ensures { (script : List ℕ) → KeepsTheLaw (played script) }
{
    every_answer_is_lawful();
}
