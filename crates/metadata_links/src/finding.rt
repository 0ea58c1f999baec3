//! The Links of a document, in reading order.

ghost use Rattle.std.specs.Prelude.{◌≡◌, ◌∷◌, ◌++◌, map, [], IfOk, codes};
ghost use Rattle.serde_json.specs.View.{items_of};
ghost use Rattle.json_read.specs.Path.{IsName};
ghost use Rattle.metadata_links.specs.Finding.{Lists, link_of, each_item, in_list, at_property, deeper, in_generic, in_members, in_level, path_with, in_path, in_host, in_index, in_document};

use crate::href::named_by;
use crate::link::{Link, LinkList, Place};
use cdni_base::Listing;
use json_read::{JsonPath, JsonValue};
use metadata_objects::NESTING_MAX;
use std::alloc::{AllocError, Global};

/// How many PathMatch objects of one document may nest, at the most. A JSON text nests 127 levels, and so it has fewer.
pub(crate) const LEVELS_MAX: u32 = 127;

/// The Links before one that names nothing, and the pointer of that one.
#[derive(Drop)]
pub(crate) struct BadLink {
    pub links: LinkList,
    pub path: JsonPath,
}

/// Why not all Links were listed.
#[derive(Drop)]
pub(crate) enum Stop {
    /// A Link names nothing.
    Bad(BadLink),
    /// Want of memory.
    Memory,
}

impl From<AllocError> for Stop {
    ghost use Rattle.std.specs.Prelude.{◌≡◌};
    ghost use Rattle.metadata_links.specs.declared.finding.Stop.TheVariants as stop;

    ghost from_gives = { λ _ fault. fault ≡ stop.Memory };

    fn from(_error: AllocError) -> Stop {
        Stop::Memory
    }
}

// the Links of a document at this place, in so many PathMatch objects; `base` is its endpoint
pub(crate) fn list_document<V: JsonValue>(
    alloc: Global,
    value: &V,
    base: &[u8],
    place: Place,
    depth: u32,
) -> Result<LinkList, Stop>
    ensures { Lists result (in_document base.now place depth (V.seen value.now)) }
{
    let path = JsonPath::root(alloc);
    let none = Listing::new(alloc);
    match place {
        Place::Index => list_index(alloc, value, &path, base, none),
        Place::Host => list_host(alloc, value, &path, base, none),
        Place::Level => list_level(alloc, value, &path, base, depth, LEVELS_MAX, none),
        Place::Path => list_path(alloc, value, &path, base, depth, LEVELS_MAX, none),
        Place::Generic => list_generic(alloc, value, &path, base, depth, none),
    }
}

// the Links of a HostIndex, behind those that were found before; the functions below are the same for their objects
#[tactic(auto, unfolding(crate::specs::Finding::in_index))]
fn list_index<V: JsonValue>(
    alloc: Global,
    value: &V,
    path: &JsonPath,
    base: &[u8],
    before: LinkList,
) -> Result<LinkList, Stop>
    ensures { Lists result (in_index base.now path.now before (V.seen value.now)) }
{
    match value.get("hosts") {
        Some(list) => list_hosts(alloc, list, &path.child(alloc, "hosts")?, base, before),
        None => Ok(before),
    }
}

fn list_hosts<V: JsonValue>(
    alloc: Global,
    list: &V,
    path: &JsonPath,
    base: &[u8],
    before: LinkList,
) -> Result<LinkList, Stop>
    ensures { Lists result (in_list (in_host base.now) path.now before (V.seen list.now)) }
{
    match list.as_array() {
        Some(items) => list_each_host(alloc, items, path, base, before),
        None => Ok(before),
    }
}

fn list_each_host<V: JsonValue>(
    alloc: Global,
    items: &[V],
    path: &JsonPath,
    base: &[u8],
    before: LinkList,
) -> Result<LinkList, Stop>
    ensures { Lists result (each_item (in_host base.now) path.now 0 before (items_of (map V.seen items.now))) }
{
    let mut links = before;
    'items: for i in 0..items.len() {
        let place = path.item(alloc, i)?;
        links = list_host(alloc, &items[i], &place, base, links)?;
    }
    Ok(links)
}

#[tactic(auto, unfolding(crate::specs::Finding::in_host))]
fn list_host<V: JsonValue>(
    alloc: Global,
    value: &V,
    path: &JsonPath,
    base: &[u8],
    before: LinkList,
) -> Result<LinkList, Stop>
    ensures { Lists result (in_host base.now path.now before (V.seen value.now)) }
{
    match value.get("href") {
        Some(href) => list_link(alloc, href, path, base, Place::Host, 0, before),
        None => list_level_at(
            alloc,
            value,
            path,
            "host-metadata",
            base,
            0,
            LEVELS_MAX,
            before,
        ),
    }
}

// the Link with this `href`
fn list_link<V: JsonValue>(
    alloc: Global,
    href: &V,
    path: &JsonPath,
    base: &[u8],
    place: Place,
    depth: u32,
    before: LinkList,
) -> Result<LinkList, Stop>
    ensures { Lists result (link_of base.now place depth path.now before (V.seen href.now)) }
{
    let named = match href.as_str() {
        Some(text) => named_by(alloc, base, text.as_bytes())?,
        None => None,
    };
    match named {
        Some(target) => Ok(with_link(
            before,
            Link {
                target,
                place,
                depth,
            },
        )?),
        None => Err(Stop::Bad(BadLink {
            links: before,
            path: path.copy(alloc)?,
        })),
    }
}

fn with_link(before: LinkList, link: Link) -> Result<LinkList, AllocError>
    ensures { IfOk result (λ links. links ≡ before ++ link ∷ []) }
{
    let mut links = before;
    links.push(link)?;
    Ok(links)
}

// the Links of the level at the property `name`, below which `left` PathMatch objects may nest
#[cycle(levels)]
fn list_level_at<V: JsonValue>(
    alloc: Global,
    value: &V,
    path: &JsonPath,
    name: &str,
    base: &[u8],
    depth: u32,
    left: u32,
    before: LinkList,
) -> Result<LinkList, Stop>
    requires { IsName name.now }
    ensures { Lists result (at_property name.now (in_level base.now depth (in_path base.now left (deeper depth)))
        path.now before (V.seen value.now)) }
{
    match value.get(name) {
        Some(level) => list_level(
            alloc,
            level,
            &path.child(alloc, name)?,
            base,
            depth,
            left,
            before,
        ),
        None => Ok(before),
    }
}

#[cycle(levels)]
#[tactic(auto, unfolding(crate::specs::Finding::in_level))]
fn list_level<V: JsonValue>(
    alloc: Global,
    value: &V,
    path: &JsonPath,
    base: &[u8],
    depth: u32,
    left: u32,
    before: LinkList,
) -> Result<LinkList, Stop>
    ensures { Lists result (in_level base.now depth (in_path base.now left (deeper depth)) path.now before
        (V.seen value.now)) }
{
    match value.get("href") {
        Some(href) => list_link(alloc, href, path, base, Place::Level, depth, before),
        None => list_members(alloc, value, path, base, depth, left, before),
    }
}

#[cycle(levels)]
#[tactic(auto, unfolding(crate::specs::Finding::in_members))]
fn list_members<V: JsonValue>(
    alloc: Global,
    value: &V,
    path: &JsonPath,
    base: &[u8],
    depth: u32,
    left: u32,
    before: LinkList,
) -> Result<LinkList, Stop>
    ensures { Lists result (in_members base.now depth (in_path base.now left (deeper depth)) path.now before
        (V.seen value.now)) }
{
    let links = list_generics_at(alloc, value, path, base, depth, before)?;
    list_paths_at(alloc, value, path, base, depth, left, links)
}

fn list_generics_at<V: JsonValue>(
    alloc: Global,
    value: &V,
    path: &JsonPath,
    base: &[u8],
    depth: u32,
    before: LinkList,
) -> Result<LinkList, Stop>
    ensures { Lists result (at_property (codes "metadata") (in_list (in_generic base.now depth)) path.now before
        (V.seen value.now)) }
{
    match value.get("metadata") {
        Some(list) => list_generics(
            alloc,
            list,
            &path.child(alloc, "metadata")?,
            base,
            depth,
            before,
        ),
        None => Ok(before),
    }
}

fn list_generics<V: JsonValue>(
    alloc: Global,
    list: &V,
    path: &JsonPath,
    base: &[u8],
    depth: u32,
    before: LinkList,
) -> Result<LinkList, Stop>
    ensures { Lists result (in_list (in_generic base.now depth) path.now before (V.seen list.now)) }
{
    match list.as_array() {
        Some(items) => list_each_generic(alloc, items, path, base, depth, before),
        None => Ok(before),
    }
}

fn list_each_generic<V: JsonValue>(
    alloc: Global,
    items: &[V],
    path: &JsonPath,
    base: &[u8],
    depth: u32,
    before: LinkList,
) -> Result<LinkList, Stop>
    ensures { Lists result (each_item (in_generic base.now depth) path.now 0 before
        (items_of (map V.seen items.now))) }
{
    let mut links = before;
    'items: for i in 0..items.len() {
        let place = path.item(alloc, i)?;
        links = list_generic(alloc, &items[i], &place, base, depth, links)?;
    }
    Ok(links)
}

#[tactic(auto, unfolding(crate::specs::Finding::in_generic))]
fn list_generic<V: JsonValue>(
    alloc: Global,
    value: &V,
    path: &JsonPath,
    base: &[u8],
    depth: u32,
    before: LinkList,
) -> Result<LinkList, Stop>
    ensures { Lists result (in_generic base.now depth path.now before (V.seen value.now)) }
{
    match value.get("href") {
        Some(href) => list_link(alloc, href, path, base, Place::Generic, depth, before),
        None => Ok(before),
    }
}

// the Links of the property `paths` of a level at this depth
#[cycle(levels)]
fn list_paths_at<V: JsonValue>(
    alloc: Global,
    value: &V,
    path: &JsonPath,
    base: &[u8],
    depth: u32,
    left: u32,
    before: LinkList,
) -> Result<LinkList, Stop>
    ensures { Lists result (at_property (codes "paths") (in_list (in_path base.now left (deeper depth))) path.now before
        (V.seen value.now)) }
{
    match value.get("paths") {
        Some(list) => {
            list_paths(
                alloc,
                list,
                &path.child(alloc, "paths")?,
                base,
                deeper(depth),
                left,
                before,
            )
        }
        None => Ok(before),
    }
}

// one PathMatch more, past the seventeenth none
fn deeper(depth: u32) -> u32
    ensures { result ≡ deeper depth }
{
    if depth <= NESTING_MAX {
        depth + 1
    } else {
        depth
    }
}

#[cycle(levels)]
fn list_paths<V: JsonValue>(
    alloc: Global,
    list: &V,
    path: &JsonPath,
    base: &[u8],
    depth: u32,
    left: u32,
    before: LinkList,
) -> Result<LinkList, Stop>
    ensures { Lists result (in_list (in_path base.now left depth) path.now before (V.seen list.now)) }
{
    match list.as_array() {
        Some(items) => list_each_path(alloc, items, path, base, depth, left, before),
        None => Ok(before),
    }
}

#[cycle(levels)]
fn list_each_path<V: JsonValue>(
    alloc: Global,
    items: &[V],
    path: &JsonPath,
    base: &[u8],
    depth: u32,
    left: u32,
    before: LinkList,
) -> Result<LinkList, Stop>
    ensures { Lists result (each_item (in_path base.now left depth) path.now 0 before
        (items_of (map V.seen items.now))) }
{
    let mut links = before;
    'items: for i in 0..items.len() {
        let place = path.item(alloc, i)?;
        links = list_path(alloc, &items[i], &place, base, depth, left, links)?;
    }
    Ok(links)
}

// the Links of a PathMatch, of which `left` may nest, itself counted
#[cycle(levels)]
fn list_path<V: JsonValue>(
    alloc: Global,
    value: &V,
    path: &JsonPath,
    base: &[u8],
    depth: u32,
    left: u32,
    before: LinkList,
) -> Result<LinkList, Stop>
    ensures { Lists result (in_path base.now left depth path.now before (V.seen value.now)) }
{
    if left == 0 {
        return Ok(before);
    }
    list_path_within(alloc, value, path, base, depth, left - 1, before)
}

// the Links of a PathMatch, below which `left` may nest
#[cycle(levels)]
#[tactic(auto, unfolding(crate::specs::Finding::path_with))]
fn list_path_within<V: JsonValue>(
    alloc: Global,
    value: &V,
    path: &JsonPath,
    base: &[u8],
    depth: u32,
    left: u32,
    before: LinkList,
) -> Result<LinkList, Stop>
    ensures { Lists result (path_with base.now depth (in_path base.now left (deeper depth)) path.now before
        (V.seen value.now)) }
{
    match value.get("href") {
        Some(href) => list_link(alloc, href, path, base, Place::Path, depth, before),
        None => list_level_at(
            alloc,
            value,
            path,
            "path-metadata",
            base,
            depth,
            left,
            before,
        ),
    }
}
