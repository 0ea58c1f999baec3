//! Texts of addresses, blocks and footprints, which rule decides, and place files. A client's place is an address, its
//! network and its country, with spaces between them.

use crate::{escape, fields};
use anyhow::bail;
use listing::cut_at;
use location_acl::{
    Block, Footprint, FootprintList, Ip, LocationAcl, LocationRule, LocationRuleList, Place,
    PlaceTable, laws, plain, read_country, read_network,
};
use std::alloc::{AllocError, Global};

/// The answer, where the call is of a kind of this module.
pub fn answer(alloc: Global, kind: &[u8], inputs: &[Vec<u8>]) -> anyhow::Result<Option<String>> {
    Ok(Some(match kind {
        b"address" => address(alloc, fields::one(inputs)?)?,
        b"block-4" => block(alloc, inputs, false)?,
        b"block-6" => block(alloc, inputs, true)?,
        b"footprint" => footprint(alloc, inputs)?,
        b"no-rules" => decisions(alloc, None, fields::one(inputs)?)?,
        b"rules" => rules(alloc, inputs)?,
        b"place" => place(alloc, inputs)?,
        b"place-file" => place_file(alloc, fields::one(inputs)?)?,
        b"place-laws" => place_laws(alloc)?,
        _ => return Ok(None),
    }))
}

// the address, or why the text is none
fn address(alloc: Global, text: &[u8]) -> Result<String, AllocError> {
    match Ip::read(text) {
        Ok(ip) => ip_text(alloc, ip),
        Err(fault) => format!(in alloc; "{fault:?}"),
    }
}

fn ip_text(alloc: Global, ip: Ip) -> Result<String, AllocError> {
    match ip {
        Ip::V4(number) => format!(in alloc; "IPv4 {number:x}"),
        Ip::V6(number) => format!(in alloc; "IPv6 {number:x}"),
    }
}

fn ip_of(text: &[u8]) -> anyhow::Result<Ip> {
    match Ip::read(text) {
        Ok(ip) => Ok(ip),
        Err(_) => bail!("an input is no address"),
    }
}

// whether a block holds an address, or why the text is no block
fn block(alloc: Global, inputs: &[Vec<u8>], six: bool) -> anyhow::Result<String> {
    let (text, others) = fields::first(inputs)?;
    match Block::read(text, six) {
        Ok(block) => {
            let ip = ip_of(fields::one(others)?)?;
            Ok(fields::flag(alloc, block.holds(ip))?)
        }
        Err(fault) => Ok(format!(in alloc; "{fault:?}")?),
    }
}

fn place_of(text: &[u8]) -> anyhow::Result<Place> {
    let Some((address, rest)) = cut_at(b' ', text) else {
        bail!("a place has no network");
    };
    let Some((network, country)) = cut_at(b' ', rest) else {
        bail!("a place has no country");
    };
    let (Some(asn), Some(country)) = (read_network(network), read_country(country)) else {
        bail!("an input is no place");
    };
    Ok(Place {
        ip: ip_of(address)?,
        asn,
        country,
    })
}

// whether a footprint holds each place, or that the texts are none
fn footprint(alloc: Global, inputs: &[Vec<u8>]) -> anyhow::Result<String> {
    let [kind, value, places @ ..] = inputs else {
        bail!("a footprint has a type and a value");
    };
    let Some(footprint) = Footprint::read(kind.as_slice(), value.as_slice()) else {
        return Ok(fields::none(alloc)?);
    };
    let mut out = String::new(alloc);
    for place in places {
        let place = place_of(place.as_slice())?;
        if !out.is_empty() {
            out.push_str(" ")?;
        }
        out.push_str(if footprint.holds(&place) {
            "true"
        } else {
            "false"
        })?;
    }
    Ok(out)
}

// the rule of a text such as `deny asn=as1 countrycode=us`
fn rule_of(alloc: Global, text: &[u8]) -> anyhow::Result<LocationRule> {
    let mut footprints = FootprintList::new(alloc);
    let (word, rest) = match cut_at(b' ', text) {
        Some((word, rest)) => (word, rest),
        None => (text, b"".as_slice()),
    };
    if !rest.is_empty() {
        for part in rest.split(|byte| *byte == b' ') {
            footprints.push(footprint_of(part)?)?;
        }
    }
    Ok(LocationRule {
        footprints,
        allow: fields::is_second(word, b"deny", b"allow")?,
    })
}

// the footprint of a text such as `asn=as1`
fn footprint_of(text: &[u8]) -> anyhow::Result<Footprint> {
    let Some((kind, value)) = cut_at(b'=', text) else {
        bail!("a footprint has a type and a value");
    };
    match Footprint::read(kind, value) {
        Some(footprint) => Ok(footprint),
        None => bail!("a footprint does not read"),
    }
}

// what a list of these rules decides of a place
fn rules(alloc: Global, inputs: &[Vec<u8>]) -> anyhow::Result<String> {
    let (place, rules) = fields::first(inputs)?;
    let mut list = LocationRuleList::new(alloc);
    for rule in rules {
        list.push(rule_of(alloc, rule.as_slice())?)?;
    }
    decisions(alloc, Some(list), place)
}

// what the list and a copy of it decide of a place
fn decisions(
    alloc: Global,
    rules: Option<LocationRuleList>,
    place: &[u8],
) -> anyhow::Result<String> {
    let place = place_of(place)?;
    let Some(acl) = LocationAcl::new(rules) else {
        bail!("too many rules");
    };
    let copy = acl.clone()?;
    let mut out = String::new(alloc);
    add_decision(&mut out, acl.decide(&place))?;
    out.push_str(", and its copy ")?;
    add_decision(&mut out, copy.decide(&place))?;
    Ok(out)
}

fn add_decision(out: &mut String, decision: (bool, Option<u32>)) -> Result<(), AllocError> {
    out.push_str(if decision.0 { "allows" } else { "denies" })?;
    match decision.1 {
        Some(rule) => write!(out, " by {rule}"),
        None => out.push_str(" by none"),
    }
}

fn add_place(alloc: Global, out: &mut String, place: &Place) -> Result<(), AllocError> {
    out.push_str(ip_text(alloc, place.ip)?.as_str())?;
    match place.asn {
        Some(asn) => write!(out, " as{asn}")?,
        None => out.push_str(" -")?,
    }
    out.push_str(" ")?;
    match place.country {
        Some((first, second)) => escape::add(out, [first, second].as_slice()),
        None => out.push_str("-"),
    }
}

// how many lines a place file has, the place of the address, and the place by plain search
fn place(alloc: Global, inputs: &[Vec<u8>]) -> anyhow::Result<String> {
    let (address, text) = fields::two(inputs)?;
    let ip = ip_of(address)?;
    let Ok(table) = PlaceTable::read(alloc, text) else {
        bail!("an input is no place file");
    };
    let mut out = format!(in alloc; "{} lines: ", table.lines().len())?;
    add_place(alloc, &mut out, &table.place_of(ip))?;
    out.push_str(", plainly ")?;
    add_place(alloc, &mut out, &plain::place_of(table.lines(), ip))?;
    Ok(out)
}

// how many lines a place file has, or why the text is none
fn place_file(alloc: Global, text: &[u8]) -> Result<String, AllocError> {
    match PlaceTable::read(alloc, text) {
        Ok(table) => format!(in alloc; "{} lines", table.lines().len()),
        Err(fault) => format!(in alloc; "{fault:?}"),
    }
}

// The laws are contracts: to call them is to cite them.
fn place_laws(alloc: Global) -> Result<String, AllocError> {
    laws::text_has_one_address();
    laws::reading_is_grammar();
    laws::text_has_one_block();
    laws::shortest_block_holds_all();
    laws::longest_block_holds_one();
    laws::bits_past_the_length_do_not_count();
    laws::address_has_one_place();
    laws::text_has_one_place_file();
    String::from_str(alloc, "cited")
}
