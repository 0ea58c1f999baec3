//! The law of generated scripts over their replay.

ghost use Rattle.std.specs.Prelude.{◌≡◌, ℕ, ◌+◌, ◌*◌, ◌≤◌, None};
ghost use Rattle.generated_law.specs.Law.{IsScript};
ghost use Rattle.generated_script.specs.Script.{script_of};
ghost use Rattle.generated_script.specs.declared.numbers.TheConstants.{MOST_ROUNDS};
ghost use Rattle.replay_script.specs.Script.{answers};

use generated_law::a_generated_script_is_a_script;
use script_line::laws::what_is_read_is_what_is_said;

// a generated script is lines of the grammar of scripts, and its replay meets no line that is none
pub(crate) fn a_generated_script_goes_on()
    ensures script { (rounds seed : ℕ) → rounds ≤ MOST_ROUNDS → IsScript (9 * rounds + 3) (script_of rounds seed) }
    ensures goes_on { (rounds seed : ℕ) → rounds ≤ MOST_ROUNDS → (answers (script_of rounds seed)).stops ≡ None }
{
    a_generated_script_is_a_script();
    what_is_read_is_what_is_said();
}
