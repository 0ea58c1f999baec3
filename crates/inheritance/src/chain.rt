//! The arrays of metadata that apply to a target (RFC 8006, sections 4.1.1 to 4.1.6).

ghost use Rattle.std.specs.Prelude.{◌≡◌, IfOk, option_map, map, slice_get};
ghost use Rattle.std.specs.List.{find};
ghost use Rattle.metadata_objects.specs.LevelData.{level_view, index_view, hosts_view, paths_view, branches_of, branches_in, objects_in, host_view};
ghost use Rattle.inheritance.specs.Chain.{matches_port, matches_target, arrays_at, first_below, chain};
ghost use Rattle.inheritance.specs.HostTable.{site_among, site_with_port, IsTableOf};

use crate::host_table::HostTable;
use cdni_base::Target;
use metadata_objects::{GenericList, HostIndex, HostMatch, Level, PathMatch};
use std::alloc::{AllocError, Global};

// there is room for so many arrays at once: few targets have more levels
const USUAL_LEVELS: usize = 4;

// the arrays of the first HostMatch that matches, outermost first
#[tactic(auto, unfolding(crate::specs::Chain::chain))]
pub(crate) fn chain<'t>(
    alloc: Global,
    index: &'t HostIndex,
    target: &Target,
) -> Result<Option<Vec<&'t GenericList>>, AllocError>
    ensures { IfOk result (λ found.
        option_map (λ arrays. map (λ objects. objects.now) arrays.items) found ≡ chain
        (index_view index.now) target.now) }
{
    match first_host(index.hosts.as_slice(), target) {
        Some(host) => Ok(Some(arrays(alloc, &host.level, target.path.bytes())?)),
        None => Ok(None),
    }
}

// the same by the table of the index
#[tactic(auto, unfolding(crate::specs::Chain::chain))]
pub(crate) fn chain_by<'t>(
    alloc: Global,
    index: &'t HostIndex,
    table: &HostTable,
    target: &Target,
) -> Result<Option<Vec<&'t GenericList>>, AllocError>
    requires { IsTableOf table.now (index_view index.now) }
    ensures { IfOk result (λ found.
        option_map (λ arrays. map (λ objects. objects.now) arrays.items) found ≡ chain
        (index_view index.now) target.now) }
{
    match host_by(index, table, target) {
        Some(host) => Ok(Some(arrays(alloc, &host.level, target.path.bytes())?)),
        None => Ok(None),
    }
}

// the first HostMatch that matches, by the table of the index
fn host_by<'t>(index: &'t HostIndex, table: &HostTable, target: &Target) -> Option<&'t HostMatch>
    requires { IsTableOf table.now (index_view index.now) }
    ensures { option_map (λ host. host_view host.now) result
        ≡ find (matches_target target.now) (index_view index.now) }
{
    host_among(index.hosts.as_slice(), table.places(&target.host), target)
}

// the first HostMatch at one of these places that has the target's port or none
fn host_among<'t>(
    hosts: &'t [HostMatch],
    places: &[usize],
    target: &Target,
) -> Option<&'t HostMatch>
    ensures { option_map (λ host. host_view host.now) result
        ≡ site_among (hosts_view hosts.now) target.now places.now }
{
    'places: for place in places {
        if let Some(host) = host_with_port(hosts, *place, target) {
            return Some(host);
        }
    }
    None
}

// the HostMatch at this place, where it has the target's port or none
fn host_with_port<'t>(
    hosts: &'t [HostMatch],
    place: usize,
    target: &Target,
) -> Option<&'t HostMatch>
    ensures { option_map (λ host. host_view host.now) result
        ≡ site_with_port target.now (slice_get (hosts_view hosts.now) place) }
{
    let host = host_at(hosts, place)?;
    if matches_port(host, target) {
        Some(host)
    } else {
        None
    }
}

fn host_at(hosts: &[HostMatch], place: usize) -> Option<&HostMatch>
    ensures { option_map (λ host. host_view host.now) result ≡ slice_get (hosts_view hosts.now) place }
{
    hosts.get(place)
}

// the first HostMatch that matches
fn first_host<'t>(hosts: &'t [HostMatch], target: &Target) -> Option<&'t HostMatch>
    ensures { option_map (λ host. host_view host.now) result ≡ find (matches_target target.now) (hosts_view hosts.now) }
{
    'hosts: for host in hosts {
        if matches(host, target) {
            return Some(host);
        }
    }
    None
}

fn matches(host: &HostMatch, target: &Target) -> bool
    ensures { result ≡ matches_target target.now (host_view host.now) }
{
    host.host.host == target.host && matches_port(host, target)
}

// the HostMatch has the target's port or none
fn matches_port(host: &HostMatch, target: &Target) -> bool
    ensures { result ≡ matches_port host.now.host.port target.now.port }
{
    match host.host.port {
        Some(port) => port == target.port,
        None => true,
    }
}

// the array of the level and those below it that apply to the path
fn arrays<'t>(
    alloc: Global,
    level: &'t Level,
    path: &[u8],
) -> Result<Vec<&'t GenericList>, AllocError>
    ensures { IfOk result (λ arrays.
        map (λ objects. objects.now) arrays.items ≡ arrays_at path.now (level_view level.now)) }
{
    let mut arrays = Vec::with_capacity(alloc, USUAL_LEVELS)?;
    let mut here = level;
    'levels: loop {
        arrays.push(objects(here))?;
        match inner_level(here, path) {
            Some(inner) => here = inner,
            None => return Ok(arrays),
        }
    }
}

// the objects of a level
fn objects(level: &Level) -> &GenericList
    ensures { result.now ≡ objects_in (level_view level.now) }
{
    &level.metadata
}

// the level below this one of the first pattern that matches the path
fn inner_level<'t>(level: &'t Level, path: &[u8]) -> Option<&'t Level>
    ensures { option_map (λ inner. level_view inner.now) result
        ≡ first_below path.now (branches_in (level_view level.now)) }
{
    level_for(&level.paths, path)
}

// the level of the first pattern that matches the path
fn level_for<'t>(paths: &'t [PathMatch], path: &[u8]) -> Option<&'t Level>
    ensures { option_map (λ level. level_view level.now) result
        ≡ first_below path.now (branches_of (paths_view paths.now)) }
{
    'paths: for path_match in paths {
        if path_match.pattern.matches(path) {
            return Some(&path_match.level);
        }
    }
    None
}
