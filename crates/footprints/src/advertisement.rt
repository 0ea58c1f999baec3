//! The advertisement as JSON (RFC 8008, section 5).

ghost use Rattle.std.specs.Prelude.{◌≡◌, ◌++◌, false, true, IfOk, OnOk};
ghost use Rattle.serde_json.specs.Written.{comma_if, compact_text, items_text, members_text};
ghost use Rattle.footprints.specs.Advertisement.{advert_text, capability_data, footprint_data, footprint_items, logging_data};
ghost use Rattle.footprints.specs.Advertisement.{footprint_members, type_and_value};

use crate::capability::Capability;
use crate::logging::add_logging_front;
use crate::settings::AdvertSettings;
use crate::write::{add_comma, add_quoted};
use cdni_log::Field;
use listing::{Text, cut_at};
use std::alloc::{AllocError, Global};

/// The advertisement (RFC 8008, section 5), as JSON without spaces, with the members of each object in the order of
/// their bytes: the delivery protocol of the listener, the acquisition protocol HTTP/1.1, those of the fields of log
/// files that are optional, and the metadata that is enforced, each with the footprints, where there are any.
///
/// # Errors
/// Want of memory.
#[tactic(auto, unfolding(crate::specs::Advertisement::advert_data, json::specs::Print::escape_byte))]
pub fn advert(alloc: Global, settings: &AdvertSettings) -> Result<Text, AllocError>
    ensures { IfOk result (λ text. text ≡ advert_text settings.now) }
{
    let footprints = settings.footprints.as_slice();
    let mut out = Vec::from_slice(alloc, br#"{"capabilities":["#)?;
    let delivery = Capability::DeliveryProtocol(settings.protocol);
    add_capability(&mut out, false, delivery, footprints)?;
    add_capability(&mut out, true, Capability::AcquisitionProtocol, footprints)?;
    add_logging(alloc, &mut out, settings.fields.as_slice(), footprints)?;
    add_capability(&mut out, true, Capability::Metadata, footprints)?;
    out.extend_from_slice(b"]}")?;
    Ok(Text::from_vec(out))
}

// adds a capability with its footprints
fn add_capability(
    out: &mut Vec<u8>,
    later: bool,
    capability: Capability,
    footprints: &[Text],
) -> Result<(), AllocError>
    ensures { OnOk result (out.new.items ≡ out.old.items
        ++ (comma_if later ++ compact_text (capability_data footprints.now capability))) }
{
    add_comma(out, later)?;
    out.extend_from_slice(capability.front().as_bytes())?;
    add_footprints(out, footprints)
}

// adds the capability of logging with its footprints, behind others
fn add_logging(
    alloc: Global,
    out: &mut Vec<u8>,
    fields: &[Field],
    footprints: &[Text],
) -> Result<(), AllocError>
    ensures { OnOk result (out.new.items
        ≡ out.old.items ++ (comma_if true ++ compact_text (logging_data footprints.now fields.now))) }
{
    add_logging_front(alloc, out, fields)?;
    add_footprints(out, footprints)
}

// adds the last member of a capability, where there are footprints, and its end
#[tactic(auto, unfolding(json::specs::Print::escape_byte))]
fn add_footprints(out: &mut Vec<u8>, footprints: &[Text]) -> Result<(), AllocError>
    ensures { OnOk result (out.new.items ≡ out.old.items ++ members_text true (footprint_members footprints.now)) }
{
    if footprints.is_empty() {
        return out.extend_from_slice(b"}");
    }
    out.extend_from_slice(br#","footprints":["#)?;
    add_footprint_items(out, footprints)?;
    out.extend_from_slice(b"}")?;
    Ok(())
}

fn add_footprint_items(out: &mut Vec<u8>, footprints: &[Text]) -> Result<(), AllocError>
    ensures { OnOk result (out.new.items ≡ out.old.items ++ items_text false (footprint_items footprints.now)) }
{
    let mut later = false;
    'items: for i in 0..footprints.len() {
        add_footprint(out, later, footprints[i].bytes())?;
        later = true;
    }
    out.extend_from_slice(b"]")
}

#[tactic(auto, unfolding(json::specs::Print::escape_byte))]
fn add_footprint(out: &mut Vec<u8>, later: bool, text: &[u8]) -> Result<(), AllocError>
    ensures { OnOk result (out.new.items ≡ out.old.items
        ++ (comma_if later ++ compact_text (footprint_data text.now))) }
{
    let (kind, value) = type_and_value(text);
    add_comma(out, later)?;
    out.extend_from_slice(br#"{"footprint-type":"#)?;
    add_quoted(out, kind)?;
    out.extend_from_slice(br#","footprint-value":["#)?;
    add_quoted(out, value)?;
    out.extend_from_slice(b"]}")?;
    Ok(())
}

// what stands before the first `:` of a text, and what stands behind it
fn type_and_value(text: &[u8]) -> (&[u8], &[u8])
    ensures { (result.0.now, result.1.now) ≡ type_and_value text.now }
{
    match cut_at(b':', text) {
        Some(parts) => parts,
        None => (text, b""),
    }
}
