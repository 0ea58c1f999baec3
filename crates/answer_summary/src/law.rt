//! The law of summaries.

ghost use Rattle.std.specs.Prelude.{ℕ, List};
ghost use Rattle.answer_summary.specs.Law.{SumsUp};
ghost use Rattle.answer_summary.specs.Summary.{rows_of};

/// Whatever the answers are, each word that begins one of them has one row in their summary, with the number of answers that
/// begin with it, and no other word has one; the words rise in byte order.
pub fn a_summary_has_each_word_once()
    ensures { (answers : List (List ℕ)) → SumsUp answers (rows_of answers) }
{}
