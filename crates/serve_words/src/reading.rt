//! What the values of the options say.

ghost use Rattle.std.specs.Prelude.{◌≡◌, ◌≤◌, ◌==◌, IfOk, List, codes, length};
ghost use Rattle.std.specs.List.{slice_split};
ghost use Rattle.targets.specs.Target.{begins_with};
ghost use Rattle.targets.specs.declared.host_name.TheConstants.{HOST_NAME_MAX};
ghost use Rattle.serve_words.specs.Options.{Gives, advert_of, fields_in, host_of, identity_of, id_of, limits_of, load_of, number_between, options_in, parts_in, protocol_of, root_in, root_of, said_if, said_or};
ghost use Rattle.serve_words.specs.Values.{text_at, texts_at};

use crate::matching::Values;
use crate::options::{Options, Unread};
use cdni_base::{
    Endpoint, EndpointFault, HostName, Limits, Protocol, ProviderFault, ProviderId, Target, Text,
};
use cdni_log::{FieldList, default_fields, read_fields};
use footprints::AdvertSettings;
use listing::{TextList, read_decimal};
use std::alloc::{AllocError, Global};

// who the node is
#[derive(Drop)]
pub(crate) struct Identity {
    root: Target,
    control: HostName,
    advert: AdvertSettings,
    own: ProviderId,
    origin: HostName,
    fields: FieldList,
}

// how much it serves
#[derive(Drop)]
pub(crate) struct Load {
    workers: u32,
    connections: Option<u64>,
    limits: Limits,
}

/// The options that these values say.
#[tactic(auto, unfolding(crate::specs::Options::options_in))]
pub(crate) fn read_values(alloc: Global, values: &Values<'_>) -> Result<Options, Unread>
    ensures { Gives result (options_in (texts_at values.now)) }
{
    let load = read_load(values)?;
    let identity = read_identity(alloc, values)?;
    let address = read_text(alloc, values.listen)?;
    let places = copy_text(alloc, values.places)?;
    Ok(Options {
        address,
        root: identity.root,
        control: identity.control,
        advert: identity.advert,
        workers: load.workers,
        connections: load.connections,
        places,
        own: identity.own,
        origin: identity.origin,
        fields: identity.fields,
        limits: load.limits,
    })
}

#[tactic(auto, unfolding(crate::specs::Options::identity_of))]
fn read_identity(alloc: Global, values: &Values<'_>) -> Result<Identity, Unread>
    ensures { Gives result (identity_of (texts_at values.now)) }
{
    let root = read_root(alloc, values.metadata)?;
    let control = read_host(alloc, values.control, "control.example")?;
    let advert = read_advert(alloc, values)?;
    let own = read_id(alloc, values.cdn_id)?;
    let origin = read_host(alloc, values.claimed_origin, "dcdn.example")?;
    let fields = read_log_fields(alloc, values.log_fields)?;
    Ok(Identity {
        root,
        control,
        advert,
        own,
        origin,
        fields,
    })
}

#[tactic(auto, unfolding(crate::specs::Options::load_of))]
fn read_load(values: &Values<'_>) -> Result<Load, Unread>
    ensures { Gives result (load_of (texts_at values.now)) }
{
    let workers = read_number(values.workers, 1, 64, 4)?;
    let connections = read_count(values.connections, 1, 1_000_000)?;
    let limits = read_limits(values)?;
    Ok(Load {
        workers: workers as u32,
        connections,
        limits,
    })
}

// the text of an option that must be there
fn read_text(alloc: Global, text: Option<&str>) -> Result<Text, Unread>
    ensures { Gives result (text_at text.entry) }
{
    match text {
        Some(text) => Ok(Text::of(alloc, text.as_bytes())?),
        None => Err(Unread::NotOne),
    }
}

// a copy of the text, where it is there
fn copy_text(alloc: Global, text: Option<&str>) -> Result<Option<Text>, AllocError>
    ensures { IfOk result (λ copy. copy ≡ text_at text.entry) }
{
    match text {
        Some(text) => Ok(Some(Text::of(alloc, text.as_bytes())?)),
        None => Ok(None),
    }
}

// the URL of the root document, which must be there
fn read_root(alloc: Global, url: Option<&str>) -> Result<Target, Unread>
    ensures { Gives result (root_in (text_at url.entry)) }
{
    match url {
        Some(url) => read_url(alloc, url.as_bytes()),
        None => Err(Unread::NotOne),
    }
}

// an absolute `http` URL
#[tactic(auto, unfolding(crate::specs::Options::root_of))]
fn read_url(alloc: Global, url: &[u8]) -> Result<Target, Unread>
    ensures { Gives result (root_of url.now) }
{
    if is_http(url) {
        Ok(Target::read(alloc, url, None, false)?)
    } else {
        Err(Unread::NotOne)
    }
}

// whether the text begins with `http://`, in any case
fn is_http(url: &[u8]) -> bool
    ensures { result ≡ begins_with (codes "http://") url.now }
{
    url.len() >= 7 && url[..7].eq_ignore_ascii_case(b"http://")
}

// a host, or the usual one
fn read_host(alloc: Global, text: Option<&str>, usual: &str) -> Result<HostName, Unread>
    requires { length usual.now ≤ HOST_NAME_MAX }
    ensures { Gives result (said_or host_of usual.now (text_at text.entry)) }
{
    match text {
        Some(text) => host_in(alloc, text.as_bytes()),
        None => Ok(HostName(Text::of(alloc, usual.as_bytes())?)),
    }
}

// a host that ends where its text does
#[tactic(auto, unfolding(crate::specs::Options::host_of))]
fn host_in(alloc: Global, text: &[u8]) -> Result<HostName, Unread>
    ensures { Gives result (host_of text.now) }
{
    match Endpoint::read(alloc, text) {
        Ok(Endpoint { host, port: _ }) => {
            if host.bytes().len() == text.len() {
                Ok(host)
            } else {
                Err(Unread::NotOne)
            }
        }
        Err(EndpointFault::Memory) => Err(Unread::Memory),
        Err(_) => Err(Unread::NotOne),
    }
}

// the protocol of the listener, the footprints, and the fields of log files
#[tactic(auto, unfolding(crate::specs::Options::advert_of, crate::specs::Options::advert_at))]
fn read_advert(alloc: Global, values: &Values<'_>) -> Result<AdvertSettings, Unread>
    ensures { Gives result (advert_of (texts_at values.now)) }
{
    let protocol = read_protocol(values.protocol)?;
    let fields = read_log_fields(alloc, values.log_fields)?;
    let footprints = split_text(alloc, values.footprints)?;
    match AdvertSettings::new(protocol, footprints, fields) {
        Some(advert) => Ok(advert),
        None => Err(Unread::NotOne),
    }
}

// the fields of log files, or the usual ones
fn read_log_fields(alloc: Global, text: Option<&str>) -> Result<FieldList, Unread>
    ensures { Gives result (fields_in (text_at text.entry)) }
{
    match text {
        Some(text) => Ok(read_fields(alloc, b',', text.as_bytes())?),
        None => Ok(default_fields(alloc)?),
    }
}

fn read_protocol(text: Option<&str>) -> Result<Protocol, Unread>
    ensures { Gives result (said_or protocol_of Protocol.Http (text_at text.entry)) }
{
    match text {
        Some(text) => protocol_in(text),
        None => Ok(Protocol::Http),
    }
}

#[tactic(auto, unfolding(crate::specs::Options::protocol_of))]
fn protocol_in(text: &str) -> Result<Protocol, Unread>
    ensures { Gives result (protocol_of text.now) }
{
    if text == "http/1.1" {
        Ok(Protocol::Http)
    } else if text == "https/1.1" {
        Ok(Protocol::Https)
    } else {
        Err(Unread::NotOne)
    }
}

// the texts that commas join; none where there is no text
fn split_text(alloc: Global, text: Option<&str>) -> Result<TextList, AllocError>
    ensures { IfOk result (λ parts. parts ≡ parts_in (text_at text.entry)) }
{
    match text {
        Some(text) => split_bytes(alloc, text.as_bytes()),
        None => Ok(TextList::new(alloc)),
    }
}

// the texts that commas join
fn split_bytes(alloc: Global, text: &[u8]) -> Result<TextList, AllocError>
    ensures { IfOk result (λ parts. parts ≡ slice_split (λ x. x == 44) text.now) }
{
    let mut parts = TextList::new(alloc);
    'parts: for part in text.split(|byte| *byte == b',') {
        parts.push(Text::of(alloc, part)?)?;
    }
    Ok(parts)
}

// a number of this range, or the usual one
fn read_number(text: Option<&str>, least: u64, most: u64, usual: u64) -> Result<u64, Unread>
    requires { (least ≤ usual) × (usual ≤ most) }
    ensures value { Gives result (said_or (number_between least most) usual (text_at text.entry)) }
    ensures within { IfOk result (λ n. (least ≤ n) × (n ≤ most)) }
{
    match text {
        Some(text) => number_in(text.as_bytes(), least, most),
        None => Ok(usual),
    }
}

// a number of this range, where it is there
fn read_count(text: Option<&str>, least: u64, most: u64) -> Result<Option<u64>, Unread>
    ensures { Gives result (said_if (number_between least most) (text_at text.entry)) }
{
    match text {
        Some(text) => Ok(Some(number_in(text.as_bytes(), least, most)?)),
        None => Ok(None),
    }
}

#[tactic(auto, unfolding(crate::specs::Options::number_between))]
fn number_in(text: &[u8], least: u64, most: u64) -> Result<u64, Unread>
    ensures value { Gives result (number_between least most text.now) }
    ensures within { IfOk result (λ n. (least ≤ n) × (n ≤ most)) }
{
    match read_decimal(text) {
        Some(number) if least <= number && number <= most => Ok(number),
        _ => Err(Unread::NotOne),
    }
}

// the id of this CDN, or the usual one
fn read_id(alloc: Global, text: Option<&str>) -> Result<ProviderId, Unread>
    ensures { Gives result (said_or id_of (record { 0 = codes "AS64496:0" }) (text_at text.entry)) }
{
    match text {
        Some(text) => id_in(alloc, text.as_bytes()),
        None => Ok(ProviderId(Text::of(alloc, b"AS64496:0")?)),
    }
}

#[tactic(auto, unfolding(crate::specs::Options::id_of))]
fn id_in(alloc: Global, text: &[u8]) -> Result<ProviderId, Unread>
    ensures { Gives result (id_of text.now) }
{
    match ProviderId::read(alloc, text) {
        Ok(id) => Ok(id),
        Err(ProviderFault::Memory) => Err(Unread::Memory),
        Err(ProviderFault::Bad { at: _ }) => Err(Unread::NotOne),
    }
}

// what the node keeps at most
#[tactic(auto, unfolding(crate::specs::Options::limits_of))]
fn read_limits(values: &Values<'_>) -> Result<Limits, Unread>
    ensures { Gives result (limits_of (texts_at values.now)) }
{
    let cache = read_number(values.cache, 0, 1_073_741_824, 268_435_456)?;
    let rows = read_number(values.rows, 1, 100_000, 20_000)?;
    let triggers = read_number(values.triggers, 1, 10_000, 1_000)?;
    let files = read_number(values.files, 1, 64, 16)?;
    let period = read_number(values.period, 0, 86_400_000, 60_000)?;
    Ok(Limits {
        cache,
        rows,
        triggers,
        files,
        period,
        opened: 1 << 62,
    })
}
