//! Items of a list that either all read, or the list is not understood.

ghost use Rattle.std.specs.Prelude.{◌≡◌, IfOk, map};
ghost use Rattle.serde_json.specs.View.{items_of};
ghost use Rattle.metadata_objects.specs.Items.{each_of, name_in};

use cdni_base::{Listing, Text};
use json_read::JsonValue;
use std::alloc::{AllocError, Global};

/// What one item of a list is read as.
pub(crate) trait Item: Drop {
    ghost use Rattle.std.specs.declared.option.Option.{Option};
    ghost use Rattle.serde_json.specs.Data.{Data};

    ghost reads: { Data → Option Self };

    // the item, if it reads
    fn read_item<V: JsonValue>(alloc: Global, value: &V) -> Result<Option<Self>, AllocError>
        ensures { IfOk result (λ found. found ≡ reads (V.seen value.now)) };
}

// the items, if each of them reads
pub(crate) fn each<T: Item, V: JsonValue>(
    alloc: Global,
    items: &[V],
) -> Result<Option<Listing<T>>, AllocError>
    ensures { IfOk result (λ found. found ≡ each_of T.reads (items_of (map V.seen items.now))) }
{
    let mut list = Listing::new(alloc);
    'items: for i in 0..items.len() {
        let Some(item) = T::read_item(alloc, &items[i])? else {
            return Ok(None);
        };
        list.push(item)?;
    }
    Ok(Some(list))
}

#[tactic(auto, unfolding(crate::specs::Items::name_in))]
fn name_of<V: JsonValue>(alloc: Global, value: &V) -> Result<Option<Text>, AllocError>
    ensures { IfOk result (λ found. found ≡ name_in (V.seen value.now)) }
{
    match value.as_str() {
        Some(name) => Ok(Some(Text::of(alloc, name.as_bytes())?)),
        None => Ok(None),
    }
}

impl Item for Text {
    ghost use Rattle.metadata_objects.specs.Items.{name_in};

    ghost reads = { name_in };

    fn read_item<V: JsonValue>(alloc: Global, value: &V) -> Result<Option<Text>, AllocError> {
        name_of(alloc, value)
    }
}
