//! Metadata trees, what is effective of them, and the verdict.

use crate::base::endpoint_text;
use crate::urls::target_of;
use crate::{escape, fields};
use anyhow::bail;
use cdni_base::{Ignored, Protocol, Text};
use inheritance::{Effective, effective};
use json_read::parse;
use listing::AccessList;
use location_acl::{Ip, Place};
use metadata_objects::{Generic, Held, HostIndex, HostMatch, MetaFault};
use std::alloc::{AllocError, Global};
use verdict::{Verdict, judge, plan};

/// The answer, where the call is of a kind of this module.
pub fn answer(alloc: Global, kind: &[u8], inputs: &[Vec<u8>]) -> anyhow::Result<Option<String>> {
    Ok(Some(match kind {
        b"index" => index(alloc, HostIndex::read(alloc, fields::one(inputs)?))?,
        b"index-of-value" => index_of_value(alloc, fields::one(inputs)?)?,
        b"effective" => effective_text(alloc, inputs)?,
        _ => return Ok(None),
    }))
}

// the hosts of a tree, or why it does not read
fn index(alloc: Global, read: Result<HostIndex, MetaFault>) -> Result<String, AllocError> {
    match read {
        Ok(index) => index_text(alloc, &index),
        Err(MetaFault::Field(fault)) => {
            let mut out = format!(in alloc; "{:?} at ", fault.cause)?;
            escape::add(&mut out, fault.path.bytes())?;
            Ok(out)
        }
        Err(MetaFault::Link { path }) => {
            let mut out = String::from_str(alloc, "Link at ")?;
            escape::add(&mut out, path.bytes())?;
            Ok(out)
        }
        Err(_) => String::from_str(alloc, "another fault"),
    }
}

// the same of a value that owns its texts
fn index_of_value(alloc: Global, text: &[u8]) -> anyhow::Result<String> {
    let Ok(value) = parse(alloc, text) else {
        bail!("an input is no JSON text");
    };
    Ok(index(alloc, HostIndex::of_value(alloc, &value))?)
}

fn index_text(alloc: Global, index: &HostIndex) -> Result<String, AllocError> {
    let mut out = format!(in alloc; "{} hosts", index.hosts.len())?;
    for host in index.hosts.as_slice() {
        add_host(alloc, &mut out, host)?;
    }
    Ok(out)
}

// adds a host, how many paths are below it, and its objects
fn add_host(alloc: Global, out: &mut String, host: &HostMatch) -> Result<(), AllocError> {
    out.push_str(", ")?;
    out.push_str(endpoint_text(alloc, &host.host)?.as_str())?;
    write!(out, ", {} paths", host.level.paths.len())?;
    for object in host.level.metadata.as_slice() {
        add_object(out, object)?;
    }
    Ok(())
}

fn add_object(out: &mut String, object: &Generic) -> Result<(), AllocError> {
    out.push_str(", ")?;
    escape::add(out, object.kind.bytes())?;
    out.push_str(if object.mandatory {
        " mandatory"
    } else {
        " optional"
    })?;
    out.push_str(if object.redistribute {
        ""
    } else {
        " not to be redistributed"
    })?;
    out.push_str(match object.held {
        Held::NotUnderstood => " not understood",
        _ => "",
    })
}

// what is effective of a tree for a URL, and what is decided of a request for it
fn effective_text(alloc: Global, inputs: &[Vec<u8>]) -> anyhow::Result<String> {
    let (url, text) = fields::two(inputs)?;
    let Ok(index) = HostIndex::read(alloc, text) else {
        bail!("an input is no HostIndex");
    };
    let target = target_of(alloc, url)?;
    let Some(effective) = effective(alloc, &index, &target)? else {
        return Ok(fields::none(alloc)?);
    };
    let mut out = String::new(alloc);
    add_objects(&mut out, &effective)?;
    add_lists(&mut out, &effective)?;
    add_verdict(alloc, &mut out, &effective)?;
    Ok(out)
}

// adds the objects that are no lists
fn add_objects(out: &mut String, effective: &Effective) -> Result<(), AllocError> {
    let sources = match effective.sources() {
        Some(sources) => sources.len(),
        None => 0,
    };
    write!(out, "{sources} sources, ")?;
    out.push_str(ignored_word(effective.ignored()))?;
    add_ccid(out, effective.ccid())?;
    out.push_str(match effective.unenforceable() {
        Some(_) => ", unenforceable",
        None => ", enforceable",
    })
}

fn ignored_word(ignored: Option<&Ignored>) -> &'static str {
    match ignored {
        Some(Ignored::None) => "nothing ignored",
        Some(_) => "ignored",
        None => "no cache",
    }
}

fn add_ccid(out: &mut String, ccid: Option<&Text>) -> Result<(), AllocError> {
    out.push_str(", ccid ")?;
    match ccid {
        Some(ccid) => escape::add(out, ccid.bytes()),
        None => out.push_str("none"),
    }
}

// adds for each list whether it is there, and whether it has rules
fn add_lists(out: &mut String, effective: &Effective) -> Result<(), AllocError> {
    out.push_str(", location ")?;
    out.push_str(list_word(effective.location()))?;
    out.push_str(", time ")?;
    out.push_str(list_word(effective.time()))?;
    out.push_str(", protocol ")?;
    out.push_str(list_word(effective.protocol()))
}

fn list_word<R>(list: Option<&AccessList<R>>) -> &'static str {
    match list {
        Some(list) if list.rules.is_some() => "rules",
        Some(_) => "without rules",
        None => "none",
    }
}

// adds the verdict on a client at no known network or country, and how many origins may be asked
fn add_verdict(alloc: Global, out: &mut String, effective: &Effective) -> Result<(), AllocError> {
    let client = Place {
        ip: Ip::V4(0),
        asn: None,
        country: None,
    };
    match judge(alloc, effective, Protocol::Http, &client, 0)? {
        Verdict::Allow => out.push_str(", allowed")?,
        Verdict::Deny(rule) => write!(out, ", denied {}", rule.status())?,
    }
    write!(out, ", {} planned", plan(alloc, effective)?.len())
}
