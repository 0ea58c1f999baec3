//! Where the values that are printed stand in a record.

ghost use Rattle.std.specs.Prelude.{◌≡◌, ◌≤◌, ◌<◌, ◌+◌, ◌^◌, ◌++◌, length, map, IfOk, OnOk};
ghost use Rattle.std.specs.List.{filter, list_any};
ghost use Rattle.audit_report.specs.Report.{are_next, is_field_of, place_of, printed_places};
ghost use Rattle.cdni_log.specs.Field.{is_header};
ghost use Rattle.cdni_log.specs.FieldList.{is_same};

use cdni_log::{Field, default_fields};
use std::alloc::{AllocError, Global};

// the places of the fields in the order in which they are printed
#[tactic(auto, unfolding(crate::specs::Report::printed_order))]
pub(crate) fn printed_places(alloc: Global, fields: &[Field]) -> Result<Vec<usize>, AllocError>
    ensures { IfOk result (λ places. places.items ≡ printed_places fields.now) }
{
    let order = default_fields(alloc)?;
    let mut places = Vec::new(alloc);
    add_places(&mut places, order.as_slice(), fields)?;
    add_header_places(&mut places, fields, fields)?;
    Ok(places)
}

// adds the places of those in the order that are fields
fn add_places(places: &mut Vec<usize>, order: &[Field], fields: &[Field]) -> Result<(), AllocError>
    ensures { OnOk result (places.new.items
        ≡ places.old.items ++ map (place_of fields.now) (filter (is_field_of fields.now) order.now)) }
{
    match order {
        [] => Ok(()),
        [first, others @ ..] => {
            if is_among(first, fields) {
                places.push(place_of(first, fields))?;
            }
            add_places(places, others, fields)
        }
    }
}

// adds the places of the headers among these of the fields
fn add_header_places(
    places: &mut Vec<usize>,
    some: &[Field],
    fields: &[Field],
) -> Result<(), AllocError>
    ensures { OnOk result (places.new.items
        ≡ places.old.items ++ map (place_of fields.now) (filter is_header some.now)) }
{
    match some {
        [] => Ok(()),
        [first, others @ ..] => {
            if is_header(first) {
                places.push(place_of(first, fields))?;
            }
            add_header_places(places, others, fields)
        }
    }
}

// the place of the first of the fields that is this one
fn place_of(field: &Field, fields: &[Field]) -> usize
    ensures place { result ≡ place_of fields.now field.now }
    ensures within { result ≤ length fields.now }
{
    match fields {
        [] => 0,
        [first, others @ ..] => {
            if is_same(field, first) {
                0
            } else {
                place_of(field, others) + 1
            }
        }
    }
}

fn is_among(field: &Field, fields: &[Field]) -> bool
    ensures { result ≡ list_any (is_same field.now) fields.now }
{
    match fields {
        [] => false,
        [first, others @ ..] => is_same(field, first) || is_among(field, others),
    }
}

fn is_same(field: &Field, other: &Field) -> bool
    ensures { result ≡ is_same field.now other.now }
{
    field == other
}

fn is_header(field: &Field) -> bool
    ensures { result ≡ is_header field.now }
{
    matches!(field, Field::Header(_))
}

// whether each place is the next one, from this one on
pub(crate) fn are_next(at: usize, places: &[usize]) -> bool
    requires { at + length places.now < 2 ^ 64 }
    ensures { result ≡ are_next at places.now }
{
    match places {
        [] => true,
        [first, others @ ..] => *first == at && are_next(at + 1, others),
    }
}
