//! One connection of a case.

use crate::field;
use crate::telling::{TellingGate, TellingHome};
use crate::told::{told_asks, told_calls};
use anyhow::bail;
use edge_base::{ListClock, MemorySink, MemorySource};
use location_acl::{Ip, Place};
use node_core::OneHome;
use serde_json::Value;
use session::{Ending, Peer, Settings, serve_session};
use std::alloc::Global;
use std::sync::Wait;
use std::thread::Threads;
use upstream_gate::MemoryGate;

// The network of the client, where it is known.
fn asn_of(value: &Value) -> anyhow::Result<Option<u32>> {
    let Some(number) = field::get(value, "asn")?.as_u64() else {
        return Ok(None);
    };
    match u32::try_from(number) {
        Ok(number) => Ok(Some(number)),
        Err(_) => bail!("a number is too large"),
    }
}

// The country of the client, where it is known.
fn country_of(value: &Value) -> anyhow::Result<Option<(u8, u8)>> {
    let Some(text) = field::get(value, "country")?.as_str() else {
        return Ok(None);
    };
    match text.as_bytes() {
        [first, second] => Ok(Some((*first, *second))),
        _ => bail!("a country has two letters"),
    }
}

// The place of the client.
fn place_of(value: &Value) -> anyhow::Result<Place> {
    let Ok(ip) = Ip::read(field::text(value, "ip")?.as_bytes()) else {
        bail!("an address does not read");
    };
    Ok(Place {
        ip,
        asn: asn_of(value)?,
        country: country_of(value)?,
    })
}

// Whether the connection ended as it was to.
fn is_ending(value: &Value, ending: Ending) -> anyhow::Result<bool> {
    let name = field::text(value, "ending")?;
    Ok(match ending {
        Ending::Ended => name == "Ended",
        Ending::Closed => name == "Closed",
        Ending::BadHead { taken } => {
            name == "BadHead"
                && field::number(value, "least")? <= taken
                && taken <= field::number(value, "most")?
        }
        Ending::CutShort { taken } => {
            name == "CutShort" && taken == field::number(value, "taken")?
        }
        Ending::ReadFault => name == "ReadFault",
        Ending::WriteFault => name == "WriteFault",
        Ending::Turns => name == "Turns",
        Ending::Memory => name == "Memory",
    })
}

// Serves a connection; in what it differs from what was to pass, if it does.
pub fn differs<R: Threads + Wait + Sync>(
    rt: &R,
    alloc: Global,
    home: &mut TellingHome<OneHome>,
    gate: &mut TellingGate<MemoryGate>,
    clock: &mut ListClock,
    settings: &Settings,
    value: &Value,
) -> anyhow::Result<Option<&'static str>> {
    let peer = Peer {
        place: place_of(field::get(value, "peer")?)?,
    };
    let bytes = field::joined(alloc, value, "source")?;
    let mut source = MemorySource::new(alloc, &bytes, &field::numbers(alloc, value, "reads")?)?;
    let mut sink = MemorySink::new(alloc, &field::numbers(alloc, value, "takes")?)?;
    home.lines.clear();
    gate.lines.clear();
    let ending = serve_session(
        rt,
        alloc,
        home,
        &peer,
        &mut source,
        &mut sink,
        gate,
        clock,
        settings,
    );
    if !home.is_whole || !gate.is_whole {
        bail!("no memory");
    }
    // the sink in memory faults where it may not grow
    let refused = matches!(ending, Ending::Memory | Ending::WriteFault);
    if refused && value.get("refusing").is_some() {
        return Ok(None);
    }
    if !is_ending(value, ending)? {
        return Ok(Some("an ending"));
    }
    if sink.held() != field::joined(alloc, value, "written")?.as_slice() {
        return Ok(Some("the bytes"));
    }
    if home.lines != told_calls(alloc, value)? {
        return Ok(Some("the calls"));
    }
    if gate.lines != told_asks(alloc, value)? {
        return Ok(Some("the asks"));
    }
    Ok(None)
}
