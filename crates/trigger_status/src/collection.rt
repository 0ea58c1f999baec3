//! Trigger collections (RFC 8007, section 5.1.3).

ghost use Rattle.std.specs.Prelude.{◌≡◌, ◌++◌, true, false, IfOk, OnOk};
ghost use Rattle.serde_json.specs.Written.{comma_if, compact_text, items_text, members_text};
ghost use Rattle.trigger_status.specs.Collection.{control_url, trigger_url, link, some_members, all_members};
ghost use Rattle.trigger_status.specs.Collection.{collection_text};
ghost use Rattle.trigger_status.specs.Items.{each_as};
ghost use Rattle.trigger_status.specs.Write.{AddsOne};

use crate::job::Filter;
use crate::write::{add_comma, add_name, add_quoted, add_text_member};
use cdni_base::ProviderId;
use listing::Text;
use std::alloc::{AllocError, Global};
use targets::HostName;
use trigger_command::IdList;

/// The collection of the triggers of these numbers (RFC 8007, section 5.1.3), as JSON without spaces, with the members
/// of each object in the order of their bytes. The collection of all triggers also has `own`, the id of this CDN, and
/// the URLs of all collections. URLs are those of `http` at the control host.
///
/// # Errors
/// Want of memory.
pub fn collection_json(
    alloc: Global,
    ids: &IdList,
    filter: Filter,
    own: &ProviderId,
    control: &HostName,
) -> Result<Text, AllocError>
    ensures { IfOk result (λ text. text ≡ collection_text ids.now filter own.now control.now) }
{
    let mut out = Vec::from_slice(alloc, b"{")?;
    match filter {
        Filter::All => add_all(alloc, &mut out, ids.as_slice(), own, control)?,
        Filter::Pending | Filter::Active | Filter::Complete | Filter::Failed => {
            add_triggers(alloc, &mut out, false, ids.as_slice(), control)?;
        }
    }
    Ok(Text::from_vec(out))
}

// adds the members of the collection of all triggers, and its end
#[tactic(auto, unfolding(crate::specs::Collection::all_members))]
fn add_all(
    alloc: Global,
    out: &mut Vec<u8>,
    ids: &[u64],
    own: &ProviderId,
    control: &HostName,
) -> Result<(), AllocError>
    ensures { OnOk result (out.new.items ≡ out.old.items
        ++ members_text false (all_members ids.now own.now control.now)) }
{
    add_text_member(out, false, b"cdn-id", own.0.bytes())?;
    add_link(alloc, out, b"coll-active", control, b"/triggers/active")?;
    add_link(alloc, out, b"coll-all", control, b"/triggers")?;
    add_link(alloc, out, b"coll-complete", control, b"/triggers/complete")?;
    add_link(alloc, out, b"coll-failed", control, b"/triggers/failed")?;
    add_link(alloc, out, b"coll-pending", control, b"/triggers/pending")?;
    add_triggers(alloc, out, true, ids, control)?;
    Ok(())
}

// adds a member with the URL of this path
fn add_link(
    alloc: Global,
    out: &mut Vec<u8>,
    name: &[u8],
    control: &HostName,
    path: &[u8],
) -> Result<(), AllocError>
    ensures { OnOk result (AddsOne out.old.items true out.new.items name.now (link control.now path.now)) }
{
    let url = control_url(alloc, control, path)?;
    add_text_member(out, true, name, &url)
}

// adds the URLs of the triggers, and the end of the collection
#[tactic(auto, unfolding(crate::specs::Collection::some_members))]
fn add_triggers(
    alloc: Global,
    out: &mut Vec<u8>,
    later: bool,
    ids: &[u64],
    control: &HostName,
) -> Result<(), AllocError>
    ensures { OnOk result (out.new.items ≡ out.old.items ++ members_text later (some_members ids.now control.now)) }
{
    add_name(out, later, b"triggers")?;
    out.extend_from_slice(b"[")?;
    add_id_items(alloc, out, ids, control)?;
    out.extend_from_slice(b"}")
}

fn add_id_items(
    alloc: Global,
    out: &mut Vec<u8>,
    ids: &[u64],
    control: &HostName,
) -> Result<(), AllocError>
    ensures { OnOk result (out.new.items ≡ out.old.items
        ++ items_text false (each_as (trigger_url control.now) ids.now)) }
{
    let mut later = false;
    'items: for i in 0..ids.len() {
        add_id(alloc, out, later, ids[i], control)?;
        later = true;
    }
    out.extend_from_slice(b"]")
}

fn add_id(
    alloc: Global,
    out: &mut Vec<u8>,
    later: bool,
    id: u64,
    control: &HostName,
) -> Result<(), AllocError>
    ensures { OnOk result (out.new.items ≡ out.old.items
        ++ (comma_if later ++ compact_text (trigger_url control.now id))) }
{
    let path = format!(in alloc; "/triggers/{id}")?;
    let url = control_url(alloc, control, path.as_bytes())?;
    add_comma(out, later)?;
    add_quoted(out, &url)
}

// the URL of this path at the control host
fn control_url(alloc: Global, control: &HostName, path: &[u8]) -> Result<Vec<u8>, AllocError>
    ensures { IfOk result (λ url. url.items ≡ control_url control.now path.now) }
{
    let mut url = Vec::from_slice(alloc, b"http://")?;
    url.extend_from_slice(control.bytes())?;
    url.extend_from_slice(path)?;
    Ok(url)
}
