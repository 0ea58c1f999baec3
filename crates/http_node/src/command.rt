//! The words of the commands that read and write streams.

ghost use Rattle.std.specs.Prelude.{◌≡◌, Some, IfSome};
ghost use Rattle.generated_script.specs.Numbers.{ScriptNumbers};
ghost use Rattle.http_node.specs.Command.{is_audit, is_replay, is_summary, AsksFor};

use generated_script::Numbers;

// whether the words are the one word `replay`
pub(crate) fn is_replay(words: &[String]) -> bool
    ensures { result ≡ is_replay words.now }
{
    match words {
        [word] => word.as_str() == "replay",
        _ => false,
    }
}

// whether the words are `replay` and `--summary`
pub(crate) fn is_summary(words: &[String]) -> bool
    ensures { result ≡ is_summary words.now }
{
    match words {
        [word, option] => word.as_str() == "replay" && option.as_str() == "--summary",
        _ => false,
    }
}

// whether the words are the one word `audit`
pub(crate) fn is_audit(words: &[String]) -> bool
    ensures { result ≡ is_audit words.now }
{
    match words {
        [word] => word.as_str() == "audit",
        _ => false,
    }
}

// the numbers behind the word `generate`
pub(crate) fn numbers_of(words: &[String]) -> Option<Numbers>
    ensures asked { IfSome result (λ numbers. AsksFor words.now numbers) }
    ensures complete { (numbers : ScriptNumbers) → AsksFor words.now numbers → result ≡ Some numbers }
{
    match words {
        [word, rounds, seed] if word.as_str() == "generate" => {
            Numbers::read(rounds.as_bytes(), seed.as_bytes())
        }
        _ => None,
    }
}
