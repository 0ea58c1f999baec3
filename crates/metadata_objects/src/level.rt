//! HostMetadata, PathMetadata, PathMatch and PatternMatch (RFC 8006, sections 4.1.3 to 4.1.6).

ghost use Rattle.std.specs.Prelude.{◌≡◌, map};
ghost use Rattle.serde_json.specs.View.{items_of};
ghost use Rattle.json_read.specs.Path.{IsName};
ghost use Rattle.metadata_objects.specs.Reading.{Gives, all_of};
ghost use Rattle.metadata_objects.specs.LevelData.{level_view, path_view, paths_view};
ghost use Rattle.metadata_objects.specs.Level.{metadata_of, paths_of, level_with, needed_level, pattern_of, needed_pattern, path_match_with, path_match_of};

use crate::fault::MetaFault;
use crate::generic::generics_at;
use crate::generic_list::GenericList;
use crate::host::NESTING_MAX;
use crate::object::{flag, one_more, out_of_range, refuse_link, text};
use json_read::{JsonPath, JsonValue, list_at, maybe, need};
use pattern_match::{MAX_PATTERN_LEN, Pattern, PatternFault};
use std::alloc::Global;

/// The metadata of one level (RFC 8006, sections 4.1.3 and 4.1.6), and the levels below it. It is seen as a
/// `LevelData`.
#[derive(Drop)]
#[cycle(level)]
pub struct Level {
    pub metadata: GenericList,
    pub paths: PathMatchList,
}

/// A pattern of paths, and the metadata of the paths that match it (RFC 8006, section 4.1.4).
#[derive(Drop)]
#[cycle(level)]
pub struct PathMatch {
    pub pattern: Pattern,
    pub level: Level,
}

/// A list of PathMatch objects.
pub type PathMatchList = Vec<PathMatch>;

// the level at the property `name` of the object at `path`, below which `left` PathMatch objects may nest, after
// `count` objects
#[cycle(levels)]
#[tactic(auto, unfolding(crate::specs::Level::needed_level))]
pub(crate) fn level_at_member<V: JsonValue>(
    alloc: Global,
    value: &V,
    path: &JsonPath,
    name: &str,
    left: u32,
    count: u32,
) -> Result<(Level, u32), MetaFault>
    requires { IsName name.now }
    ensures { Gives (λ x. (level_view x.0, x.1)) result (needed_level (path_match_of left) path.now name.now count
        (V.seen value.now)) }
{
    let member = need(alloc, value, path, name)?;
    level_at(alloc, member, &path.child(alloc, name)?, left, count)
}

// the level at `path`
#[cycle(levels)]
#[tactic(auto, unfolding(crate::specs::Level::level_with))]
fn level_at<V: JsonValue>(
    alloc: Global,
    value: &V,
    path: &JsonPath,
    left: u32,
    count: u32,
) -> Result<(Level, u32), MetaFault>
    ensures { Gives (λ x. (level_view x.0, x.1)) result (level_with (path_match_of left) path.now count
        (V.seen value.now)) }
{
    refuse_link(alloc, value, path)?;
    let (metadata, count) = metadata_at(alloc, value, path, count)?;
    let (paths, count) = paths_at(alloc, value, path, left, count)?;
    Ok((Level { metadata, paths }, count))
}

// the objects of the property `metadata` of the object at `path`, after `count` objects
#[tactic(auto, unfolding(crate::specs::Level::metadata_of))]
fn metadata_at<V: JsonValue>(
    alloc: Global,
    value: &V,
    path: &JsonPath,
    count: u32,
) -> Result<(GenericList, u32), MetaFault>
    ensures { Gives (λ x. (x.0, x.1)) result (metadata_of path.now count (V.seen value.now)) }
{
    let Some(list) = maybe(alloc, value, path, "metadata")? else {
        return Ok((GenericList::new(alloc), count));
    };
    let path = path.child(alloc, "metadata")?;
    let items = list_at(alloc, list, &path)?;
    generics_at(alloc, items, &path, count)
}

// the PathMatch objects of the property `paths` of the object at `path`
#[cycle(levels)]
#[tactic(auto, unfolding(crate::specs::Level::paths_of))]
fn paths_at<V: JsonValue>(
    alloc: Global,
    value: &V,
    path: &JsonPath,
    left: u32,
    count: u32,
) -> Result<(PathMatchList, u32), MetaFault>
    ensures { Gives (λ x. (paths_view x.0.items, x.1)) result (paths_of (path_match_of left) path.now count
        (V.seen value.now)) }
{
    let Some(list) = maybe(alloc, value, path, "paths")? else {
        return Ok((Vec::new(alloc), count));
    };
    let path = path.child(alloc, "paths")?;
    let items = list_at(alloc, list, &path)?;
    path_matches_at(alloc, items, &path, left, count)
}

// the PathMatch objects of the list at `path`
#[cycle(levels)]
fn path_matches_at<V: JsonValue>(
    alloc: Global,
    items: &[V],
    path: &JsonPath,
    left: u32,
    count: u32,
) -> Result<(PathMatchList, u32), MetaFault>
    ensures { Gives (λ x. (paths_view x.0.items, x.1)) result (all_of (path_match_of left) path.now 0 count (items_of
        (map V.seen items.now))) }
{
    let mut list = Vec::new(alloc);
    let mut so_far = count;
    'items: for i in 0..items.len() {
        let place = path.item(alloc, i)?;
        let (path_match, next) = path_match_at(alloc, &items[i], &place, left, so_far)?;
        match list.push(path_match) {
            Ok(()) => {}
            Err(_) => return Err(MetaFault::Memory),
        }
        so_far = next;
    }
    Ok((list, so_far))
}

// the PathMatch at `path`, at which `left` more may nest, itself counted
#[cycle(levels)]
fn path_match_at<V: JsonValue>(
    alloc: Global,
    value: &V,
    path: &JsonPath,
    left: u32,
    count: u32,
) -> Result<(PathMatch, u32), MetaFault>
    ensures { Gives (λ x. (path_view x.0, x.1)) result (path_match_of left path.now count (V.seen value.now)) }
{
    if left == 0 {
        one_more(count)?;
        return Err(MetaFault::TooDeep {
            n: NESTING_MAX as usize + 1,
        });
    }
    path_match_within(alloc, value, path, left - 1, count)
}

// the PathMatch at `path`, below which `left` more may nest
#[cycle(levels)]
#[tactic(auto, unfolding(crate::specs::Level::path_match_with))]
fn path_match_within<V: JsonValue>(
    alloc: Global,
    value: &V,
    path: &JsonPath,
    left: u32,
    count: u32,
) -> Result<(PathMatch, u32), MetaFault>
    ensures { Gives (λ x. (path_view x.0, x.1)) result (path_match_with (path_match_of left) path.now count
        (V.seen value.now)) }
{
    let count = one_more(count)?;
    refuse_link(alloc, value, path)?;
    let pattern = pattern_at_member(alloc, value, path, "path-pattern")?;
    let (level, count) = level_at_member(alloc, value, path, "path-metadata", left, count)?;
    Ok((PathMatch { pattern, level }, count))
}

// the pattern at the property `name` of the object at `path`
#[tactic(auto, unfolding(crate::specs::Level::needed_pattern))]
fn pattern_at_member<V: JsonValue>(
    alloc: Global,
    value: &V,
    path: &JsonPath,
    name: &str,
) -> Result<Pattern, MetaFault>
    requires { IsName name.now }
    ensures { Gives (λ pattern. pattern) result (needed_pattern path.now name.now (V.seen value.now)) }
{
    let member = need(alloc, value, path, name)?;
    pattern_at(alloc, member, &path.child(alloc, name)?)
}

// the PatternMatch at `path`
#[tactic(auto, unfolding(crate::specs::Level::pattern_of))]
fn pattern_at<V: JsonValue>(alloc: Global, value: &V, path: &JsonPath) -> Result<Pattern, MetaFault>
    ensures { Gives (λ pattern. pattern) result (pattern_of path.now (V.seen value.now)) }
{
    let pattern = text(alloc, value, path, "pattern")?;
    if pattern.len() > MAX_PATTERN_LEN {
        return Err(out_of_range(alloc, path, "pattern"));
    }
    let case_sensitive = flag(alloc, value, path, "case-sensitive", false)?;
    match Pattern::read(alloc, pattern.as_bytes(), case_sensitive) {
        Ok(pattern) => Ok(pattern),
        Err(PatternFault::TooLong { len: _ }) => unreachable!(),
        Err(PatternFault::Memory) => Err(MetaFault::Memory),
    }
}
