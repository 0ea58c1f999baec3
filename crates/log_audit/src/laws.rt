//! What the definitions mean, as laws above them. Each function does nothing: its contract is the law.

ghost use Rattle.std.specs.Prelude.{◌≡◌, ℕ, ◌↔◌, List, None, Some, true};
ghost use Rattle.cdni_log.specs.File.{file_text};
ghost use Rattle.cdni_log.specs.declared.row.FileHead.{FileHead};
ghost use Rattle.cdni_log.specs.declared.row.Row.{Row};
ghost use Rattle.cdni_log.specs.declared.field.Field.{Field};
ghost use Rattle.log_audit.specs.Forms.{IsValueOf};
ghost use Rattle.log_audit.specs.Value.{has_form};
ghost use Rattle.log_audit.specs.LogFile.{true_hash, LogFile, IsLogFile};
ghost use Rattle.log_audit.specs.Lines.{bad_line, IsBadLine};
ghost use Rattle.log_audit.specs.Written.{file_of, HaveForms};

/// A text has no bad line exactly where it is a log file.
pub fn a_log_file_has_no_bad_line()
    ensures { (text : List ℕ) → (bad_line text ≡ None) ↔ ((file : LogFile) × IsLogFile text file) }
{}

/// The bad line of a text is the first one after which no text makes it a log file; where the text ends too early it is
/// the line that is missing or cut.
pub fn a_bad_line_is_the_first_that_nothing_mends()
    ensures { (text : List ℕ) (n : ℕ) → (bad_line text ≡ Some n) ↔ IsBadLine text n }
{}

/// The text that is written of rows whose values have their forms is a log file, whose UUID and hash are those that are
/// written, and the hash is that of its bytes.
pub fn what_is_written_is_a_log_file()
    ensures { (head : FileHead) (rows : List Row) → HaveForms head rows
        → IsLogFile (file_text head rows) (file_of head rows)
        × ((file_of head rows).hash ≡ true_hash (file_of head rows)) }
{}

/// Each value of a record is what the standards say: a date that exists, a time of day, seconds with three decimals,
/// the number of an autonomous system, a token, a URL, a status of three digits, a number below 2^64, a text in quotes
/// that is read back, or `0` and `1`.
#[tactic(auto, using(crate::proofs::FormLemmas::form_is))]
pub fn a_value_is_what_its_form_says()
    ensures { (column : Field) (text : List ℕ) → has_form column text ≡ true → IsValueOf column text }
{}
