//! The words that say to which CDNs a command is passed on.

ghost use Rattle.std.specs.Prelude.{◌≡◌, IfOk};
ghost use Rattle.std.specs.Option.{option_map};
ghost use Rattle.trigger_cascade.specs.Order.{are_distinct, cdn_of, differ, each_cdn, has_id, http_target, is_http, order_of};
ghost use Rattle.trigger_cascade.specs.Order.{order_in, order_with, provider_in, rounds_of};

use crate::cdn::{Cdn, Standing};
use cdni_base::{ProviderFault, ProviderId};
use listing::{cut_at, read_decimal};
use std::alloc::{AllocError, Global};
use std::marker::Model;
use targets::{Target, TargetFault};

/// The most rounds of polling.
const ROUNDS_MAX: u64 = 1000;

/// The most CDNs that a command is passed on to.
const CDNS_MAX: usize = 16;

/// What the words say: the id of this CDN, how many rounds of polling there are, and the CDNs that the command is
/// passed on to. It is seen as the three.
#[derive(Drop)]
pub(crate) struct Order {
    pub(crate) own: ProviderId,
    pub(crate) rounds: u64,
    pub(crate) cdns: Vec<Cdn>,
}

impl Model for Order {
    ghost use Rattle.trigger_cascade.specs.OrderParts.{OrderParts};

    ghost Value = { OrderParts };

    ghost view = { λ order. record { own = order.own; rounds = order.rounds; cdns = order.cdns.items } };
}

// what the words say, if they are the word `cascade`, an id, a number of rounds and 1 to 16 CDNs
pub(crate) fn order_of(alloc: Global, words: &[String]) -> Result<Option<Order>, AllocError>
    ensures { IfOk result (λ order. order ≡ order_of words.now) }
{
    match words {
        [first, own, rounds, cdns @ ..] if first.as_str() == "cascade" => {
            order_in(alloc, own.as_bytes(), rounds.as_bytes(), cdns)
        }
        _ => Ok(None),
    }
}

fn order_in(
    alloc: Global,
    own: &[u8],
    rounds: &[u8],
    cdns: &[String],
) -> Result<Option<Order>, AllocError>
    ensures { IfOk result (λ order. order ≡ order_in own.now rounds.now cdns.now) }
{
    let Some(own) = provider_in(alloc, own)? else {
        return Ok(None);
    };
    let Some(rounds) = rounds_of(rounds) else {
        return Ok(None);
    };
    let Some(cdns) = each_cdn(alloc, cdns)? else {
        return Ok(None);
    };
    Ok(order_with(own, rounds, cdns))
}

// the order, where there are 1 to 16 CDNs and no id is twice, that of this CDN included
fn order_with(own: ProviderId, rounds: u64, cdns: Vec<Cdn>) -> Option<Order>
    ensures { result ≡ order_with own rounds cdns.items }
{
    if cdns.is_empty() || cdns.len() > CDNS_MAX || !are_distinct(&own, &cdns) {
        return None;
    }
    Some(Order { own, rounds, cdns })
}

// whether no id is twice
fn are_distinct(own: &ProviderId, cdns: &[Cdn]) -> bool
    ensures { result ≡ are_distinct own.now cdns.now }
{
    !has_id(own, cdns) && differ(cdns)
}

// whether one of these CDNs has this id
fn has_id(id: &ProviderId, cdns: &[Cdn]) -> bool
    ensures { result ≡ has_id id.now cdns.now }
{
    cdns.iter().any(|cdn| cdn.id.0 == id.0)
}

// whether no two of these CDNs have the same id
fn differ(cdns: &[Cdn]) -> bool
    ensures { result ≡ differ cdns.now }
{
    'cdns: for (i, cdn) in cdns.iter().enumerate() {
        if has_id(&cdn.id, &cdns[i + 1..]) {
            return false;
        }
    }
    true
}

// the CDNs of these words
fn each_cdn(alloc: Global, words: &[String]) -> Result<Option<Vec<Cdn>>, AllocError>
    ensures { IfOk result (λ cdns. option_map (λ v. v.items) cdns ≡ each_cdn words.now) }
{
    let mut cdns = Vec::new(alloc);
    'words: for word in words {
        let Some(cdn) = cdn_of(alloc, word.as_bytes())? else {
            return Ok(None);
        };
        cdns.push(cdn)?;
    }
    Ok(Some(cdns))
}

// the CDN of a word: its id, `=`, and the URL where it takes commands
fn cdn_of(alloc: Global, word: &[u8]) -> Result<Option<Cdn>, AllocError>
    ensures { IfOk result (λ cdn. cdn ≡ cdn_of word.now) }
{
    let Some((id, url)) = cut_at(b'=', word) else {
        return Ok(None);
    };
    let Some(id) = provider_in(alloc, id)? else {
        return Ok(None);
    };
    let Some(to) = http_target(alloc, url)? else {
        return Ok(None);
    };
    Ok(Some(Cdn {
        id,
        to,
        standing: Standing::Waiting,
    }))
}

fn provider_in(alloc: Global, text: &[u8]) -> Result<Option<ProviderId>, AllocError>
    ensures { IfOk result (λ id. id ≡ provider_in text.now) }
{
    match ProviderId::read(alloc, text) {
        Ok(id) => Ok(Some(id)),
        Err(ProviderFault::Bad { at: _ }) => Ok(None),
        Err(ProviderFault::Memory) => Err(AllocError),
    }
}

/// The target of an absolute URL of the scheme `http` (RFC 9110, section 4.2.1); none where the text is no such URL.
///
/// # Errors
/// Want of memory.
pub fn http_target(alloc: Global, url: &[u8]) -> Result<Option<Target>, AllocError>
    ensures { IfOk result (λ target. target ≡ http_target url.now) }
{
    if !is_http(url) {
        return Ok(None);
    }
    match Target::read(alloc, url, None, false) {
        Ok(target) => Ok(Some(target)),
        Err(TargetFault::Memory) => Err(AllocError),
        Err(_) => Ok(None),
    }
}

// whether the text begins with `http://`, in any case
fn is_http(text: &[u8]) -> bool
    ensures { result ≡ is_http text.now }
{
    text.len() >= 7 && text[..7].eq_ignore_ascii_case(b"http://")
}

// the number of rounds that the text writes, from 1 to 1,000
fn rounds_of(text: &[u8]) -> Option<u64>
    ensures { result ≡ rounds_of text.now }
{
    match read_decimal(text) {
        Some(rounds) if 1 <= rounds && rounds <= ROUNDS_MAX => Some(rounds),
        _ => None,
    }
}
