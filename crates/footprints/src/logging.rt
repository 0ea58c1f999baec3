//! The capability of logging (RFC 8008, section 5.3).

ghost use Rattle.std.specs.Prelude.{◌≡◌, ◌++◌, Bool, false, true, IfOk, OnOk};
ghost use Rattle.serde_json.specs.Written.{comma_if, compact_text, items_text, members_text};
ghost use Rattle.footprints.specs.Logging.{is_optional, logging_object, optional_names, text_items};
ghost use Rattle.serde_json.specs.Data.{Members};

use crate::write::{add_comma, add_quoted};
use cdni_log::Field;
use listing::{Text, TextList};
use std::alloc::{AllocError, Global};

/// Adds the capability, behind others, up to the end of its value, behind which further members may stand.
#[tactic(auto, unfolding(json::specs::Print::escape_byte))]
pub(crate) fn add_logging_front(
    alloc: Global,
    out: &mut Vec<u8>,
    fields: &[Field],
) -> Result<(), AllocError>
    ensures { OnOk result ((others : Members) → out.new.items ++ members_text true others
        ≡ out.old.items ++ (comma_if true ++ compact_text (logging_object (optional_names fields.now) others))) }
{
    let names = optional_names(alloc, fields)?;
    out.extend_from_slice(br#",{"capability-type":"FCI.Logging","capability-value":{"fields":["#)?;
    add_texts(out, names.as_slice())?;
    out.extend_from_slice(br#","record-type":"cdni_http_request_v1"}"#)?;
    Ok(())
}

// the names of the fields that are optional
fn optional_names(alloc: Global, fields: &[Field]) -> Result<TextList, AllocError>
    ensures { IfOk result (λ names. names ≡ optional_names fields.now) }
{
    let mut names = TextList::new(alloc);
    'fields: for field in fields {
        if is_optional(field) {
            names.push(field.name(alloc)?)?;
        }
    }
    Ok(names)
}

// whether a record need not have the field
fn is_optional(field: &Field) -> bool
    ensures { result ≡ is_optional field.now }
{
    matches!(
        field,
        Field::EntityBytes | Field::Ccid | Field::Cached | Field::Header(_)
    )
}

// adds the items of an array of these texts, and its end
fn add_texts(out: &mut Vec<u8>, texts: &[Text]) -> Result<(), AllocError>
    ensures { OnOk result (out.new.items ≡ out.old.items ++ items_text false (text_items texts.now)) }
{
    let mut later = false;
    'items: for i in 0..texts.len() {
        add_comma(out, later)?;
        add_quoted(out, texts[i].bytes())?;
        later = true;
    }
    out.extend_from_slice(b"]")
}
