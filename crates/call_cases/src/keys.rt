//! Keys, hosts and ignored names that are looked up, and trees with the keys of their documents. A key is a URL, and with a
//! space between them what is ignored of its query: `*` for all of it, or names with commas between them.

use crate::urls::target_of;
use crate::{escape, fields};
use anyhow::bail;
use cdni_base::{Endpoint, HostName, Ignored, Key, Listing, TextList, is_same_key, url_key};
use listing::{Text, cut_at};
use metadata_objects::{HostIndex, KeyList, Tree};
use std::alloc::{AllocError, Global};
use std::collections::{HashMap, HashSet};

/// The answer, where the call is of a kind of this module.
pub fn answer(alloc: Global, kind: &[u8], inputs: &[Vec<u8>]) -> anyhow::Result<Option<String>> {
    Ok(Some(match kind {
        b"looked-up" => looked_up(alloc, inputs)?,
        b"same-key" => same_key(alloc, inputs)?,
        b"host-set" => host_set(alloc, inputs)?,
        b"ignored-set" => ignored_set(alloc, inputs)?,
        b"tree" => tree(alloc, inputs)?,
        b"new-keys" => new_keys(alloc)?,
        _ => return Ok(None),
    }))
}

// what is ignored of a query
fn ignored_of(alloc: Global, text: &[u8]) -> Result<Ignored, AllocError> {
    if text == b"*".as_slice() {
        return Ok(Ignored::All);
    }
    let mut names = TextList::new(alloc);
    for name in text.split(|byte| *byte == b',') {
        names.push(Text::of(alloc, name)?)?;
    }
    Ok(Ignored::Names(names))
}

/// The key of this text.
pub fn key_of(alloc: Global, text: &[u8]) -> anyhow::Result<Key> {
    match cut_at(b' ', text) {
        Some((url, names)) => {
            let target = target_of(alloc, url)?;
            Ok(url_key(alloc, &target, &ignored_of(alloc, names)?)?)
        }
        None => Ok(url_key(alloc, &target_of(alloc, text)?, &Ignored::None)?),
    }
}

// the numbers of these keys, of equal ones that of the last
fn numbered(alloc: Global, keys: &[Vec<u8>]) -> anyhow::Result<HashMap<Key, u64>> {
    let mut numbers = HashMap::new(alloc);
    let mut number = 0u64;
    for key in keys {
        number = number.saturating_add(1);
        numbers.insert(key_of(alloc, key.as_slice())?, number)?;
    }
    Ok(numbers)
}

// the number of the key that is sought, and how many of the others differ
fn looked_up(alloc: Global, inputs: &[Vec<u8>]) -> anyhow::Result<String> {
    let (sought, keys) = fields::first(inputs)?;
    let numbers = numbered(alloc, keys)?;
    let count = numbers.len();
    match numbers.get(&key_of(alloc, sought)?) {
        Some(number) => Ok(format!(in alloc; "{number} of {count}")?),
        None => Ok(format!(in alloc; "none of {count}")?),
    }
}

// whether both are the same key
fn same_key(alloc: Global, inputs: &[Vec<u8>]) -> anyhow::Result<String> {
    let (one, other) = fields::two(inputs)?;
    let one = key_of(alloc, one)?;
    let other = key_of(alloc, other)?;
    Ok(fields::flag(alloc, is_same_key(&one, &other))?)
}

fn host_of(alloc: Global, text: &[u8]) -> anyhow::Result<HostName> {
    match Endpoint::read(alloc, text) {
        Ok(endpoint) => Ok(endpoint.host),
        Err(_) => bail!("an input is no host"),
    }
}

// whether a set of one host has the other
fn host_set(alloc: Global, inputs: &[Vec<u8>]) -> anyhow::Result<String> {
    let (one, other) = fields::two(inputs)?;
    let mut hosts = HashSet::new(alloc);
    hosts.insert(host_of(alloc, one)?)?;
    Ok(fields::flag(alloc, hosts.contains(&host_of(alloc, other)?))?)
}

// whether a set of one text's ignored names has those of the other
fn ignored_set(alloc: Global, inputs: &[Vec<u8>]) -> anyhow::Result<String> {
    let (one, other) = fields::two(inputs)?;
    let mut ignored = HashSet::new(alloc);
    ignored.insert(ignored_of(alloc, one)?)?;
    Ok(fields::flag(alloc, ignored.contains(&ignored_of(alloc, other)?))?)
}

// how many hosts a tree has, and the keys of its documents
fn tree(alloc: Global, inputs: &[Vec<u8>]) -> anyhow::Result<String> {
    let (text, key) = fields::two(inputs)?;
    let Ok(index) = HostIndex::read(alloc, text) else {
        bail!("an input is no HostIndex");
    };
    let mut resources = KeyList::new(alloc);
    resources.push(key_of(alloc, key)?)?;
    let tree = Tree { index, resources };
    let mut out = format!(in alloc; "{} hosts of", tree.index.hosts.len())?;
    for resource in tree.resources.as_slice() {
        out.push_str(" ")?;
        escape::add(&mut out, resource.text(false, true))?;
    }
    Ok(out)
}

// how many keys a new list has
fn new_keys(alloc: Global) -> Result<String, AllocError> {
    let keys: Listing<Key> = Listing::new(alloc);
    format!(in alloc; "{}", keys.len())
}
