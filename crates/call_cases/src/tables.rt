//! What is effective by the table of hosts, beside the plain search.

ghost use Rattle.metadata_objects.specs.LevelData.{index_view};
ghost use Rattle.inheritance.specs.HostTable.{IsTableOf};

use crate::fields;
use crate::urls::target_of;
use anyhow::bail;
use cdni_base::{Target, Text};
use inheritance::{Effective, HostTable, effective, effective_by};
use metadata_objects::HostIndex;
use std::alloc::{AllocError, Global};

/// How many HostMatch objects there are.
const SITES: u32 = 40;

/// How many hosts they are of, and one that none is of.
const HOSTS: u32 = 7;

/// The answer, where the call is of a kind of this module.
pub fn answer(alloc: Global, kind: &[u8], inputs: &[Vec<u8>]) -> anyhow::Result<Option<String>> {
    Ok(Some(match kind {
        b"table" => table(alloc, inputs)?,
        b"host-places" => host_places(alloc, inputs)?,
        _ => return Ok(None),
    }))
}

/// How many searches found a host, how many found what cannot be enforced, and how many the table answered otherwise.
#[derive(Clone, Copy)]
struct Counts {
    hosts: u32,
    forbidden: u32,
    otherwise: u32,
}

// the next number of a sequence without pattern
fn next(number: &mut u32) -> u32 {
    *number = number.wrapping_mul(1103515245).wrapping_add(12345);
    *number >> 16
}

// adds an object of this type and value
fn add_object(out: &mut String, kind: &str, value: &str) -> Result<(), AllocError> {
    out.push_str("{\"generic-metadata-type\":\"MI.")?;
    out.push_str(kind)?;
    out.push_str("\",\"generic-metadata-value\":")?;
    out.push_str(value)?;
    out.push_str("}")
}

// adds a list of an object that nothing understands, which is mandatory or not, and of a ccid
fn add_metadata(
    alloc: Global,
    out: &mut String,
    is_mandatory: bool,
    ccid: &str,
) -> Result<(), AllocError> {
    out.push_str("{\"metadata\":[")?;
    let further = format!(in alloc; "1,\"mandatory-to-enforce\":{is_mandatory}")?;
    add_object(out, "Further", further.as_str())?;
    out.push_str(",")?;
    let grouping = format!(in alloc; "{{\"ccid\":\"{ccid}\"}}")?;
    add_object(out, "Grouping", grouping.as_str())?;
    out.push_str("]")
}

// adds a HostMatch with a host, a port or none, a ccid of this number, and another ccid below `/films/*`
fn add_site(alloc: Global, out: &mut String, number: u32, drawn: u32) -> Result<(), AllocError> {
    let port = match drawn / HOSTS % 3 {
        0 => "",
        1 => ":80",
        _ => ":8080",
    };
    write!(
        out,
        "{{\"host\":\"h{}.example{port}\",\"host-metadata\":",
        drawn % HOSTS
    )?;
    add_metadata(
        alloc,
        out,
        drawn % 5 == 0,
        format!(in alloc; "{number}")?.as_str(),
    )?;
    out.push_str(",\"paths\":[{\"path-pattern\":{\"pattern\":\"/films/*\"},\"path-metadata\":")?;
    add_metadata(alloc, out, false, format!(in alloc; "f{number}")?.as_str())?;
    out.push_str("}}]}}")
}

// a HostIndex of such HostMatch objects
fn index_of(alloc: Global, number: &mut u32) -> anyhow::Result<HostIndex> {
    let mut text = String::from_str(alloc, "{\"hosts\":[")?;
    for place in 0..SITES {
        if place > 0 {
            text.push_str(",")?;
        }
        let drawn = next(number);
        add_site(alloc, &mut text, place, drawn)?;
    }
    text.push_str("]}")?;
    match HostIndex::read(alloc, text.as_bytes()) {
        Ok(index) => Ok(index),
        Err(_) => bail!("a text that was made is no HostIndex"),
    }
}

// whether both are the same text, or none
fn is_same_text(one: Option<&Text>, other: Option<&Text>) -> bool {
    match (one, other) {
        (Some(one), Some(other)) => one.is(other.bytes()),
        (None, None) => true,
        _ => false,
    }
}

// whether both have the same collection, and both or none of them what cannot be enforced
fn is_same(one: &Option<Effective>, other: &Option<Effective>) -> bool {
    match (one, other) {
        (Some(one), Some(other)) => {
            is_same_text(one.ccid(), other.ccid())
                && one.unenforceable().is_some() == other.unenforceable().is_some()
        }
        (None, None) => true,
        _ => false,
    }
}

// searches one target by both
fn count_target(
    alloc: Global,
    counts: &mut Counts,
    index: &HostIndex,
    table: &HostTable,
    target: &Target,
) -> Result<(), AllocError>
    requires { IsTableOf table.now (index_view index.now) }
{
    let plain = effective(alloc, index, target)?;
    let by_table = effective_by(alloc, index, table, target)?;
    if !is_same(&plain, &by_table) {
        counts.otherwise = counts.otherwise.saturating_add(1);
    }
    if let Some(found) = &plain {
        counts.hosts = counts.hosts.saturating_add(1);
        if found.unenforceable().is_some() {
            counts.forbidden = counts.forbidden.saturating_add(1);
        }
    }
    Ok(())
}

// searches the URLs of all hosts
fn count_index(alloc: Global, counts: &mut Counts, index: &HostIndex) -> anyhow::Result<()> {
    let table = HostTable::of(alloc, index)?;
    for host in 0..=HOSTS {
        for rest in ["/a", "/films/a", ":8080/a", ":8080/films/a", ":81/a"] {
            let url = format!(in alloc; "http://h{host}.example{rest}")?;
            let target = target_of(alloc, url.as_bytes())?;
            count_target(alloc, counts, index, &table, &target)?;
        }
    }
    Ok(())
}

// makes so many indexes by a sequence that begins with this number, and searches both ways
fn table(alloc: Global, inputs: &[Vec<u8>]) -> anyhow::Result<String> {
    let (rounds, number) = fields::two(inputs)?;
    let Ok(mut number) = u32::try_from(fields::number(number)?) else {
        bail!("a number is too large");
    };
    let mut counts = Counts {
        hosts: 0,
        forbidden: 0,
        otherwise: 0,
    };
    for _ in 0..fields::number(rounds)? {
        let index = index_of(alloc, &mut number)?;
        count_index(alloc, &mut counts, &index)?;
    }
    let Counts {
        hosts,
        forbidden,
        otherwise,
    } = counts;
    Ok(format!(in alloc; "{hosts} found, {forbidden} unenforceable, {otherwise} otherwise")?)
}

// where the HostMatch objects of a host stand
fn host_places(alloc: Global, inputs: &[Vec<u8>]) -> anyhow::Result<String> {
    let (place, text) = fields::two(inputs)?;
    let place = fields::size(place)?;
    let Ok(index) = HostIndex::read(alloc, text) else {
        bail!("an input is no HostIndex");
    };
    let table = HostTable::of(alloc, &index)?;
    let hosts = index.hosts.as_slice();
    let Some(host) = hosts.get(place) else {
        bail!("a host is not there");
    };
    let mut out = format!(in alloc; "{} hosts:", hosts.len())?;
    for place in table.places(&host.host.host) {
        write!(out, " {place}")?;
    }
    Ok(out)
}
