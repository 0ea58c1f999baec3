//! What the definitions mean, as a law above them. The function does nothing: its contract is the law.

ghost use Rattle.std.specs.Prelude.{◌≡◌, ℕ, List, length, true};
ghost use Rattle.audit_report.specs.Report.{printed_order, put_into};
ghost use Rattle.cdni_log.specs.FieldList.{are_apart};
ghost use Rattle.cdni_log.specs.declared.field.Field.{Field};

/// The values that are printed of a record, put back into the order of the fields of its file, are those of the record: one
/// for each field, where no field is there twice.
pub fn what_is_printed_is_put_back()
    ensures { (fields : List Field) (values : List (List ℕ)) → are_apart fields ≡ true → length values ≡ length fields
        → put_into (printed_order fields) (put_into fields values (printed_order fields)) fields ≡ values }
{}
