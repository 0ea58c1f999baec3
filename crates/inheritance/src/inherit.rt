//! Which objects are effective: those of the innermost levels.

ghost use Rattle.std.specs.Prelude.{◌≡◌, ◌++◌, ℕ, List, Some, IfSome, IfOk, OnOk, option_map, map};
ghost use Rattle.std.specs.List.{find, list_any};
ghost use Rattle.metadata_objects.specs.LevelData.{index_view};
ghost use Rattle.inheritance.specs.Chain.{chain};
ghost use Rattle.metadata_objects.specs.declared.generic.Generic.{Generic};
ghost use Rattle.metadata_objects.specs.GenericList.{is_of_kind, is_unenforceable};
ghost use Rattle.inheritance.specs.HostTable.{IsTableOf};
ghost use Rattle.inheritance.specs.Effective.{innermost, overriding, firsts, effective};

use crate::chain::{chain, chain_by};
use crate::host_table::HostTable;
use crate::laws::effective_object_is_innermost;
use crate::objects::Effective;
use cdni_base::Target;
use metadata_objects::{Generic, GenericList, HostIndex};
use std::alloc::{AllocError, Global};

/// The effective metadata of a target (RFC 8006, section 3.3). Of the levels that apply to it (the first HostMatch that
/// matches, and at each level the first PathMatch that matches) the innermost that has an object of a type gives its
/// first. `None` exactly where no HostMatch matches.
///
/// # Errors
/// Want of memory.
pub fn effective<'t>(
    alloc: Global,
    index: &'t HostIndex,
    target: &Target,
) -> Result<Option<Effective<'t>>, AllocError>
    ensures list { IfOk result (λ found. found ≡ option_map effective (chain (index_view index.now) target.now)) }

    // The effective object of a type is the first of the innermost array that has one.
    ensures innermost { (arrays : List (List Generic)) (kind : List ℕ)
        → chain (index_view index.now) target.now ≡ Some arrays
        → IfOk result (λ found. IfSome found (λ objects. find (is_of_kind kind) objects ≡ innermost kind arrays)) }
{
    effective_object_is_innermost();
    let arrays = chain(alloc, index, target)?;
    effective_of(alloc, arrays)
}

/// The same by the table of the index, in time that does not grow with the hosts of the index, nor with the objects of
/// the levels unless one of them is mandatory and not understood.
///
/// # Errors
/// Want of memory.
pub fn effective_by<'t>(
    alloc: Global,
    index: &'t HostIndex,
    table: &HostTable,
    target: &Target,
) -> Result<Option<Effective<'t>>, AllocError>
    requires { IsTableOf table.now (index_view index.now) }
    ensures list { IfOk result (λ found. found ≡ option_map effective (chain (index_view index.now) target.now)) }

    // The effective object of a type is the first of the innermost array that has one.
    ensures innermost { (arrays : List (List Generic)) (kind : List ℕ)
        → chain (index_view index.now) target.now ≡ Some arrays
        → IfOk result (λ found. IfSome found (λ objects. find (is_of_kind kind) objects ≡ innermost kind arrays)) }
{
    effective_object_is_innermost();
    let arrays = chain_by(alloc, index, table, target)?;
    effective_of(alloc, arrays)
}

// what is effective of these arrays
fn effective_of<'t>(
    alloc: Global,
    arrays: Option<Vec<&'t GenericList>>,
) -> Result<Option<Effective<'t>>, AllocError>
    ensures { IfOk result (λ found. found ≡ option_map effective (option_map (λ arrays. map
        (λ objects. objects.now) arrays.items) arrays.entry)) }
{
    match arrays {
        Some(arrays) => {
            let unenforceable = first_unenforceable(alloc, &arrays)?;
            Ok(Some(Effective {
                arrays,
                unenforceable,
            }))
        }
        None => Ok(None),
    }
}

// the first effective object that is mandatory and not understood; all effective objects are listed where an array has
// such an object
fn first_unenforceable<'t>(
    alloc: Global,
    arrays: &[&'t GenericList],
) -> Result<Option<&'t Generic>, AllocError>
    ensures { IfOk result (λ found. option_map (λ object. object.now) found ≡ find is_unenforceable
        (effective (map (λ objects. objects.now) arrays.now))) }
{
    if !has_unenforceable(arrays) {
        return Ok(None);
    }
    let list = overlaid(alloc, arrays)?;
    Ok(unenforceable_in(&list))
}

// whether an array has an object that is mandatory and not understood
fn has_unenforceable(arrays: &[&GenericList]) -> bool
    ensures { result ≡ list_any (list_any is_unenforceable) (map (λ objects. objects.now) arrays.now) }
{
    'arrays: for objects in arrays {
        if objects.has_unenforceable() {
            return true;
        }
    }
    false
}

// the first of these objects that is mandatory and not understood
fn unenforceable_in<'t>(list: &[&'t Generic]) -> Option<&'t Generic>
    ensures { option_map (λ object. object.now) result ≡ find is_unenforceable (map (λ object. object.now) list.now) }
{
    'objects: for object in list {
        if object.is_unenforceable() {
            return Some(*object);
        }
    }
    None
}

// one object for each type of the arrays
fn overlaid<'t>(alloc: Global, arrays: &[&'t GenericList]) -> Result<Vec<&'t Generic>, AllocError>
    ensures { IfOk result (λ list. map (λ object. object.now) list.items ≡ effective (map
        (λ objects. objects.now) arrays.now)) }
{
    let mut list = Vec::new(alloc);
    'arrays: for i in 0..arrays.len() {
        add_types(&mut list, arrays, arrays[i].as_slice())?;
    }
    Ok(list)
}

// adds one object for each type of these objects that the list lacks
fn add_types<'t>(
    list: &mut Vec<&'t Generic>,
    arrays: &[&'t GenericList],
    objects: &'t [Generic],
) -> Result<(), AllocError>
    ensures { (before : List Generic)
        → map (λ object. object.now) list.old.items ≡ map (overriding (map (λ objects. objects.now) arrays.now))
        (firsts before)
        → OnOk result (map (λ object. object.now) list.new.items ≡ map (overriding (map
        (λ objects. objects.now) arrays.now)) (firsts (before ++ objects.now))) }
{
    'objects: for object in objects {
        if !has_kind(list, object.kind.bytes()) {
            list.push(overriding(arrays, object))?;
        }
    }
    Ok(())
}

// whether the list has an object of this type
fn has_kind(list: &[&Generic], kind: &[u8]) -> bool
    ensures { result ≡ list_any (is_of_kind kind.now) (map (λ object. object.now) list.now) }
{
    'objects: for object in list {
        if object.kind.is(kind) {
            return true;
        }
    }
    false
}

// the object that counts in the place of this one
fn overriding<'t>(arrays: &[&'t GenericList], object: &'t Generic) -> &'t Generic
    ensures { result.now ≡ overriding (map (λ objects. objects.now) arrays.now) object.now }
{
    match innermost(arrays, object.kind.bytes()) {
        Some(other) => other,
        None => object,
    }
}

// the first object of this type in the innermost array that has one
fn innermost<'t>(arrays: &[&'t GenericList], kind: &[u8]) -> Option<&'t Generic>
    ensures { option_map (λ object. object.now) result ≡ innermost kind.now (map (λ objects. objects.now) arrays.now) }
{
    let mut found = None;
    'arrays: for objects in arrays {
        if let Some(object) = first_of_kind(objects.as_slice(), kind) {
            found = Some(object);
        }
    }
    found
}

// the first object of this type
fn first_of_kind<'t>(objects: &'t [Generic], kind: &[u8]) -> Option<&'t Generic>
    ensures { option_map (λ object. object.now) result ≡ find (is_of_kind kind.now) objects.now }
{
    'objects: for object in objects {
        if object.kind.is(kind) {
            return Some(object);
        }
    }
    None
}
