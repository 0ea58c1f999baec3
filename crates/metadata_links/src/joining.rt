//! The whole of all documents, where each stands in the place of the Link that names it.

ghost use Rattle.std.specs.Prelude.{◌≡◌, ◌<◌, ◌≤◌, IfSome, codes, length, slice_get, slice_set, Some};
ghost use Rattle.json_read.specs.Path.{IsName};
ghost use Rattle.metadata_links.specs.Filled.{Fills, FillsEach, FillsMember, HasItems, HasMembers, IsTaken, last_of, with_member};
ghost use Rattle.metadata_links.specs.Joined.{followed, property_filled, list_filled, level_filled, path_with, path_filled, host_filled, index_filled};

use json_read::{BorrowedValue, JsonValue};
use metadata_objects::NESTING_MAX;
use std::mem;
use std::vec::IntoIter;

/// The documents that are left, in order.
type Documents<'a> = IntoIter<BorrowedValue<'a>>;

type Items<'a> = Vec<BorrowedValue<'a>>;

type Members<'a> = Vec<(&'a str, BorrowedValue<'a>)>;

// the HostIndex, whose places are filled from the documents
#[tactic(auto, unfolding(crate::specs::Joined::index_filled))]
pub(crate) fn fill_index<'a>(
    value: BorrowedValue<'a>,
    documents: &mut Documents<'a>,
) -> BorrowedValue<'a>
    ensures { Fills index_filled value.entry documents.old result documents.new }
{
    match into_members(value) {
        Ok(members) => BorrowedValue::Object(fill_hosts_in(members, documents)),
        Err(other) => other,
    }
}

fn fill_hosts_in<'a>(members: Members<'a>, documents: &mut Documents<'a>) -> Members<'a>
    ensures { FillsMember (codes "hosts") (list_filled host_filled) members.entry.items documents.old result.items documents.new }
{
    let mut members = members;
    match last_of(&members, "hosts") {
        Some(i) => {
            let member = take_at(&mut members, i);
            let filled = fill_hosts(member, documents);
            put_at(&mut members, i, filled);
            members
        }
        None => members,
    }
}

fn fill_hosts<'a>(list: BorrowedValue<'a>, documents: &mut Documents<'a>) -> BorrowedValue<'a>
    ensures { Fills (list_filled host_filled) list.entry documents.old result documents.new }
{
    match into_items(list) {
        Ok(items) => BorrowedValue::Array(fill_each_host(items, documents)),
        Err(other) => other,
    }
}

fn fill_each_host<'a>(hosts: Items<'a>, documents: &mut Documents<'a>) -> Items<'a>
    ensures { FillsEach host_filled hosts.entry.items documents.old result.items documents.new }
{
    let mut items = hosts;
    'items: for i in 0..items.len() {
        let host = mem::replace(&mut items[i], BorrowedValue::Null);
        items[i] = fill_host(host, documents);
    }
    items
}

fn fill_host<'a>(value: BorrowedValue<'a>, documents: &mut Documents<'a>) -> BorrowedValue<'a>
    ensures { Fills host_filled value.entry documents.old result documents.new }
{
    let host = follow(value, documents);
    fill_level_at(host, "host-metadata", NESTING_MAX, documents)
}

// the document that stands for a Link, or the value where it is none
fn follow<'a>(link: BorrowedValue<'a>, documents: &mut Documents<'a>) -> BorrowedValue<'a>
    ensures { Fills followed link.entry documents.old result documents.new }
{
    let mut value = link;
    'links: while JsonValue::get(&value, "href").is_some() {
        match documents.next() {
            Some(document) => value = document,
            None => return value,
        }
    }
    value
}

// the object whose level at this property is filled, at which `left` PathMatch objects may nest
#[cycle(filling)]
fn fill_level_at<'a>(
    value: BorrowedValue<'a>,
    name: &str,
    left: u32,
    documents: &mut Documents<'a>,
) -> BorrowedValue<'a>
    ensures { Fills (property_filled name.now (level_filled (path_filled left))) value.entry documents.old result documents.new }
{
    match into_members(value) {
        Ok(members) => BorrowedValue::Object(fill_level_in(members, name, left, documents)),
        Err(other) => other,
    }
}

#[cycle(filling)]
fn fill_level_in<'a>(
    members: Members<'a>,
    name: &str,
    left: u32,
    documents: &mut Documents<'a>,
) -> Members<'a>
    ensures { FillsMember name.now (level_filled (path_filled left)) members.entry.items documents.old result.items documents.new }
{
    let mut members = members;
    match last_of(&members, name) {
        Some(i) => {
            let member = take_at(&mut members, i);
            let filled = fill_level(member, left, documents);
            put_at(&mut members, i, filled);
            members
        }
        None => members,
    }
}

#[cycle(filling)]
fn fill_level<'a>(
    value: BorrowedValue<'a>,
    left: u32,
    documents: &mut Documents<'a>,
) -> BorrowedValue<'a>
    ensures { Fills (level_filled (path_filled left)) value.entry documents.old result documents.new }
{
    let level = follow(value, documents);
    let level = fill_generics_at(level, documents);
    fill_paths_at(level, left, documents)
}

fn fill_generics_at<'a>(
    value: BorrowedValue<'a>,
    documents: &mut Documents<'a>,
) -> BorrowedValue<'a>
    ensures { Fills (property_filled (codes "metadata") (list_filled followed)) value.entry documents.old result documents.new }
{
    match into_members(value) {
        Ok(members) => BorrowedValue::Object(fill_generics_in(members, documents)),
        Err(other) => other,
    }
}

fn fill_generics_in<'a>(members: Members<'a>, documents: &mut Documents<'a>) -> Members<'a>
    ensures { FillsMember (codes "metadata") (list_filled followed) members.entry.items documents.old result.items documents.new }
{
    let mut members = members;
    match last_of(&members, "metadata") {
        Some(i) => {
            let member = take_at(&mut members, i);
            let filled = fill_generics(member, documents);
            put_at(&mut members, i, filled);
            members
        }
        None => members,
    }
}

fn fill_generics<'a>(list: BorrowedValue<'a>, documents: &mut Documents<'a>) -> BorrowedValue<'a>
    ensures { Fills (list_filled followed) list.entry documents.old result documents.new }
{
    match into_items(list) {
        Ok(items) => BorrowedValue::Array(fill_each_generic(items, documents)),
        Err(other) => other,
    }
}

fn fill_each_generic<'a>(generics: Items<'a>, documents: &mut Documents<'a>) -> Items<'a>
    ensures { FillsEach followed generics.entry.items documents.old result.items documents.new }
{
    let mut items = generics;
    'items: for i in 0..items.len() {
        let generic = mem::replace(&mut items[i], BorrowedValue::Null);
        items[i] = follow(generic, documents);
    }
    items
}

#[cycle(filling)]
fn fill_paths_at<'a>(
    value: BorrowedValue<'a>,
    left: u32,
    documents: &mut Documents<'a>,
) -> BorrowedValue<'a>
    ensures { Fills (property_filled (codes "paths") (list_filled (path_filled left))) value.entry documents.old result documents.new }
{
    match into_members(value) {
        Ok(members) => BorrowedValue::Object(fill_paths_in(members, left, documents)),
        Err(other) => other,
    }
}

#[cycle(filling)]
fn fill_paths_in<'a>(members: Members<'a>, left: u32, documents: &mut Documents<'a>) -> Members<'a>
    ensures { FillsMember (codes "paths") (list_filled (path_filled left)) members.entry.items documents.old result.items documents.new }
{
    let mut members = members;
    match last_of(&members, "paths") {
        Some(i) => {
            let member = take_at(&mut members, i);
            let filled = fill_paths(member, left, documents);
            put_at(&mut members, i, filled);
            members
        }
        None => members,
    }
}

#[cycle(filling)]
fn fill_paths<'a>(
    list: BorrowedValue<'a>,
    left: u32,
    documents: &mut Documents<'a>,
) -> BorrowedValue<'a>
    ensures { Fills (list_filled (path_filled left)) list.entry documents.old result documents.new }
{
    match into_items(list) {
        Ok(items) => BorrowedValue::Array(fill_each_path(items, left, documents)),
        Err(other) => other,
    }
}

#[cycle(filling)]
fn fill_each_path<'a>(paths: Items<'a>, left: u32, documents: &mut Documents<'a>) -> Items<'a>
    ensures { FillsEach (path_filled left) paths.entry.items documents.old result.items documents.new }
{
    let mut items = paths;
    'items: for i in 0..items.len() {
        let path = mem::replace(&mut items[i], BorrowedValue::Null);
        items[i] = fill_path(path, left, documents);
    }
    items
}

// the PathMatch, of which `left` may nest, itself counted
#[cycle(filling)]
fn fill_path<'a>(
    value: BorrowedValue<'a>,
    left: u32,
    documents: &mut Documents<'a>,
) -> BorrowedValue<'a>
    ensures { Fills (path_filled left) value.entry documents.old result documents.new }
{
    if left == 0 {
        return value;
    }
    fill_path_within(value, left - 1, documents)
}

// the PathMatch, below which `left` may nest
#[cycle(filling)]
fn fill_path_within<'a>(
    value: BorrowedValue<'a>,
    left: u32,
    documents: &mut Documents<'a>,
) -> BorrowedValue<'a>
    ensures { Fills (path_with (path_filled left)) value.entry documents.old result documents.new }
{
    let path = follow(value, documents);
    fill_level_at(path, "path-metadata", left, documents)
}

// the items of a list, or another value
fn into_items<'a>(value: BorrowedValue<'a>) -> Result<Items<'a>, BorrowedValue<'a>>
    ensures { HasItems value.entry result }
{
    match value {
        BorrowedValue::Array(items) => Ok(items),
        BorrowedValue::Null => Err(BorrowedValue::Null),
        BorrowedValue::Bool(flag) => Err(BorrowedValue::Bool(flag)),
        BorrowedValue::Number(text) => Err(BorrowedValue::Number(text)),
        BorrowedValue::String(text) => Err(BorrowedValue::String(text)),
        BorrowedValue::Object(members) => Err(BorrowedValue::Object(members)),
    }
}

// the members of an object, or another value
fn into_members<'a>(value: BorrowedValue<'a>) -> Result<Members<'a>, BorrowedValue<'a>>
    ensures { HasMembers value.entry result }
{
    match value {
        BorrowedValue::Object(members) => Ok(members),
        BorrowedValue::Null => Err(BorrowedValue::Null),
        BorrowedValue::Bool(flag) => Err(BorrowedValue::Bool(flag)),
        BorrowedValue::Number(text) => Err(BorrowedValue::Number(text)),
        BorrowedValue::String(text) => Err(BorrowedValue::String(text)),
        BorrowedValue::Array(items) => Err(BorrowedValue::Array(items)),
    }
}

// the place of the last member of this name, which is the one that counts
fn last_of(members: &[(&str, BorrowedValue<'_>)], name: &str) -> Option<usize>
    ensures last { result ≡ last_of name.now members.now }
    ensures within { IfSome result (λ i. i < length members.now) }
{
    let mut left = members.len();
    'members: while left > 0 {
        left -= 1;
        if members[left].0 == name {
            return Some(left);
        }
    }
    None
}

// takes the value of a member out, and leaves null
fn take_at<'a>(members: &mut Members<'a>, i: usize) -> BorrowedValue<'a>
    requires { i < length members.old.items }
    ensures { IsTaken members.old.items i result members.new.items }
{
    mem::replace(&mut members[i].1, BorrowedValue::Null)
}

// puts the value of a member
fn put_at<'a>(members: &mut Members<'a>, i: usize, value: BorrowedValue<'a>)
    requires { i < length members.old.items }
    ensures { members.new.items ≡ with_member members.old.items i value.entry }
{
    members[i].1 = value;
}
