//! What the definitions mean, as laws above them. Each function does nothing: its contract is the law.

ghost use Rattle.std.specs.Prelude.{◌≡◌, ℕ, ◌<◌, ◌↔◌, List, Some, map};
ghost use Rattle.cdni_log.specs.Columns.{IsTable};
ghost use Rattle.cdni_log.specs.Date.{date_of, IsDateOf};
ghost use Rattle.cdni_log.specs.Extra.{IsLoggedOf, logged_value};
ghost use Rattle.cdni_log.specs.Field.{field_name, field_of, IsNameOf};
ghost use Rattle.cdni_log.specs.File.{file_text};
ghost use Rattle.cdni_log.specs.declared.field.Field.{Field};
ghost use Rattle.cdni_log.specs.declared.row.FileHead.{FileHead};
ghost use Rattle.cdni_log.specs.declared.row.Row.{Row};

/// Each day of the years 1970 to 9999 has the date that the calendar gives it.
pub fn a_day_has_its_date()
    ensures { (day : ℕ) → day < 2932897 → IsDateOf day (date_of day) }
{}

/// A log file is a table: its line of fields has the names of the head's fields, each record has as many values as
/// there are names, and each value is the one that the name in its place says. The value of the k-th header is the
/// k-th of the row's extra values; a text is in quotes, from which it can be read back.
#[tactic(auto, using(crate::proofs::TableLemmas::table))]
pub fn each_value_stands_below_its_name()
    ensures { (head : FileHead) (rows : List Row) → IsTable (map field_name head.fields) rows (file_text head rows) }
{}

/// A text names a field exactly where it is a name of it, so that no text names two: one of the thirteen names, or a
/// token of at most 64 bytes between `cs(` and `)`, whose case is no part of the field.
#[tactic(auto, using(crate::proofs::NameLemmas::names_it))]
pub fn a_text_names_one_field()
    ensures { (name : List ℕ) (column : Field) → (field_of name ≡ Some column) ↔ IsNameOf column name }
{}

/// What is logged of a header's value stands on one line and between two tabs: its first 1,024 bytes, with a space for
/// each control.
#[tactic(auto, using(crate::proofs::ExtraLemmas::is_logged))]
pub fn a_logged_value_has_no_control()
    ensures { (value : List ℕ) → IsLoggedOf value (logged_value value) }
{}
