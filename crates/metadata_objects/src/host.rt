//! HostIndex and HostMatch (RFC 8006, sections 4.1.1 and 4.1.2).

ghost use Rattle.std.specs.Prelude.{◌≡◌, ◌<◌, length, map, IfOk, Err};
ghost use Rattle.serde_json.specs.View.{items_of};
ghost use Rattle.metadata_objects.specs.Reading.{Gives};
ghost use Rattle.metadata_objects.specs.Host.{host_index_of, host_match_of, hosts_of};
ghost use Rattle.metadata_objects.specs.LevelData.{host_view, hosts_view, index_view};

use crate::fault::MetaFault;
use crate::level::{Level, level_at_member};
use crate::object::{one_more, out_of_range, refuse_link, text};
use cdni_base::{Endpoint, EndpointFault, Listing};
use json_read::{JsonPath, JsonScratch, JsonValue, ParseFault, list_at, need, parse_borrowed};
use std::alloc::Global;

/// How many PathMatch objects may nest.
pub const NESTING_MAX: u32 = 16;

/// The most bytes of the text of a HostIndex.
pub const DOCUMENT_MAX: usize = 8388608;

/// The hosts of a metadata tree, in order (RFC 8006, section 4.1.1).
#[derive(Drop)]
pub struct HostIndex {
    pub hosts: HostMatchList,
}

/// A host and its metadata (RFC 8006, section 4.1.2).
#[derive(Drop)]
pub struct HostMatch {
    pub host: Endpoint,
    pub level: Level,
}

/// A list of hosts.
pub type HostMatchList = Listing<HostMatch>;

impl HostIndex {
    ghost use Rattle.metadata_objects.specs.Host.{host_index_of_text, IsWithinLimits};
    ghost use Rattle.metadata_objects.specs.declared.host.TheConstants.{DOCUMENT_MAX};

    /// Reads the HostIndex of a JSON text of at most 8,388,608 bytes.
    ///
    /// # Errors
    /// `TooLong` exactly where the text is longer, else the first fault in the order of reading, or want of memory.
    #[tactic(auto, unfolding(crate::specs::Host::host_index_of_text))]
    pub fn read(alloc: Global, bytes: &[u8]) -> Result<HostIndex, MetaFault>
        ensures value { Gives (λ index. index_view index) result (host_index_of_text bytes.now) }
        ensures within { IfOk result (λ index. IsWithinLimits (index_view index)) }
        ensures too_long { DOCUMENT_MAX < length bytes.now → result ≡ Err (MetaFault.TooLong (length bytes.now)) }
    {
        if bytes.len() > DOCUMENT_MAX {
            return Err(MetaFault::TooLong { len: bytes.len() });
        }
        let mut scratch = JsonScratch::new(alloc);
        match parse_borrowed(alloc, bytes, &mut scratch) {
            Ok(value) => HostIndex::of_value(alloc, &value),
            Err(ParseFault::NotJson) => Err(MetaFault::NotJson),
            Err(ParseFault::Memory) => Err(MetaFault::Memory),
        }
    }

    /// Reads the HostIndex of a JSON value.
    ///
    /// # Errors
    /// The first fault in the order of reading, or want of memory.
    pub fn of_value<V: JsonValue>(alloc: Global, value: &V) -> Result<HostIndex, MetaFault>
        ensures value { Gives (λ index. index_view index) result (host_index_of (V.seen value.now)) }
        ensures within { IfOk result (λ index. IsWithinLimits (index_view index)) }
    {
        index_of(alloc, value)
    }
}

#[tactic(auto, unfolding(crate::specs::Host::host_index_of))]
fn index_of<V: JsonValue>(alloc: Global, value: &V) -> Result<HostIndex, MetaFault>
    ensures { Gives (λ index. index_view index) result (host_index_of (V.seen value.now)) }
{
    let root = JsonPath::root(alloc);
    let list = need(alloc, value, &root, "hosts")?;
    let path = root.child(alloc, "hosts")?;
    let items = list_at(alloc, list, &path)?;
    let (hosts, _) = hosts_at(alloc, items, &path, 0)?;
    Ok(HostIndex { hosts })
}

// the hosts of the list at `path`, after `count` objects
fn hosts_at<V: JsonValue>(
    alloc: Global,
    items: &[V],
    path: &JsonPath,
    count: u32,
) -> Result<(HostMatchList, u32), MetaFault>
    ensures { Gives (λ x. (hosts_view x.0, x.1)) result (hosts_of path.now count (items_of (map V.seen items.now))) }
{
    let mut list = Listing::new(alloc);
    let mut so_far = count;
    'items: for i in 0..items.len() {
        let place = path.item(alloc, i)?;
        let (host, next) = host_match_at(alloc, &items[i], &place, so_far)?;
        list.push(host)?;
        so_far = next;
    }
    Ok((list, so_far))
}

// the HostMatch at `path`, after `count` objects
#[tactic(auto, unfolding(crate::specs::Host::host_match_of))]
fn host_match_at<V: JsonValue>(
    alloc: Global,
    value: &V,
    path: &JsonPath,
    count: u32,
) -> Result<(HostMatch, u32), MetaFault>
    ensures { Gives (λ x. (host_view x.0, x.1)) result (host_match_of path.now count (V.seen value.now)) }
{
    let count = one_more(count)?;
    refuse_link(alloc, value, path)?;
    let name = text(alloc, value, path, "host")?;
    let host = match Endpoint::read(alloc, name.as_bytes()) {
        Ok(host) => host,
        Err(EndpointFault::Memory) => return Err(MetaFault::Memory),
        Err(_) => return Err(out_of_range(alloc, path, "host")),
    };
    let (level, count) = level_at_member(alloc, value, path, "host-metadata", NESTING_MAX, count)?;
    Ok((HostMatch { host, level }, count))
}
