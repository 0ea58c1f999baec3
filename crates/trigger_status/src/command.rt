//! Trigger commands that are passed on (RFC 8007, section 5.1.1).

ghost use Rattle.std.specs.Prelude.{◌≡◌, ◌++◌, false, codes, IfOk, OnOk};
ghost use Rattle.serde_json.specs.Data.{array};
ghost use Rattle.serde_json.specs.Written.{comma_if, compact_text, items_text};
ghost use Rattle.trigger_status.specs.Command.{command_text, id_data};
ghost use Rattle.trigger_status.specs.Items.{each_as};
ghost use Rattle.trigger_status.specs.Write.{AddsOne};

use crate::resource::add_trigger_member;
use crate::write::{add_comma, add_name, add_quoted, end_object};
use cdni_base::ProviderId;
use listing::Text;
use std::alloc::{AllocError, Global};
use trigger_command::{ProviderIdList, Spec};

/// The command of a trigger that came through the CDNs of this path, as JSON without spaces: `cdn-path` and `trigger`,
/// which is written as in a status resource.
///
/// # Errors
/// Want of memory.
pub fn command_json(alloc: Global, path: &ProviderIdList, spec: &Spec) -> Result<Text, AllocError>
    ensures { IfOk result (λ text. text ≡ command_text path.now spec.now) }
{
    let mut out = Vec::from_slice(alloc, b"{")?;
    add_path(&mut out, path.as_slice())?;
    add_trigger_member(&mut out, spec)?;
    end_object(&mut out)?;
    Ok(Text::from_vec(out))
}

// adds the member with the ids of these CDNs
fn add_path(out: &mut Vec<u8>, path: &[ProviderId]) -> Result<(), AllocError>
    ensures { OnOk result (AddsOne out.old.items false out.new.items (codes "cdn-path")
        (array (each_as id_data path.now))) }
{
    add_name(out, false, b"cdn-path")?;
    add_ids(out, path)?;
    Ok(())
}

fn add_ids(out: &mut Vec<u8>, ids: &[ProviderId]) -> Result<(), AllocError>
    ensures { OnOk result (out.new.items ≡ out.old.items ++ compact_text (array (each_as id_data ids.now))) }
{
    out.extend_from_slice(b"[")?;
    add_id_items(out, ids)
}

fn add_id_items(out: &mut Vec<u8>, ids: &[ProviderId]) -> Result<(), AllocError>
    ensures { OnOk result (out.new.items ≡ out.old.items ++ items_text false (each_as id_data ids.now)) }
{
    let mut later = false;
    'items: for i in 0..ids.len() {
        add_id(out, later, &ids[i])?;
        later = true;
    }
    out.extend_from_slice(b"]")
}

fn add_id(out: &mut Vec<u8>, later: bool, id: &ProviderId) -> Result<(), AllocError>
    ensures { OnOk result (out.new.items ≡ out.old.items ++ (comma_if later ++ compact_text (id_data id.now))) }
{
    add_comma(out, later)?;
    add_quoted(out, id.0.bytes())
}
