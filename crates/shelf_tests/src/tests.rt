//! Random scripts of calls on both.

ghost use Rattle.std.specs.Prelude.{◌≤◌, ◌+◌, ◌^◌};

use crate::PlainShelf;
use cdni_base::{Body, Endpoint, Ignored, Key, ProviderId, Target, Text, TypeName, url_key};
use history::Fetching;
use shelf::Shelf;
use std::alloc::Global;
use std::test::Fail;
use trigger_command::{Act, Command, Selection};
use upstream_gate::{Got, Outcome};

// what the shelves keep at most, in bytes
const LIMIT: usize = 12;

const URLS: [&str; 6] = [
    "http://v.example/a",
    "http://v.example/b",
    "http://v.example/p/c",
    "http://v.example/p/d",
    "http://w.example/a",
    "http://w.example/p/c?1",
];

// what triggers select; the last selects no content
const STARTS: [&str; 6] = [
    concat!(
        r#"{"cdn-path":["AS1:a"],"trigger":{"type":"purge","#,
        r#""content.urls":["http://v.example/a","http://w.example/a"]}}"#,
    ),
    concat!(
        r#"{"cdn-path":["AS1:a"],"trigger":{"type":"invalidate","#,
        r#""content.urls":["http://v.example/b"],"content.ccid":["c"]}}"#,
    ),
    concat!(
        r#"{"cdn-path":["AS1:a"],"trigger":{"type":"purge","#,
        r#""content.patterns":[{"pattern":"*/p/*"}]}}"#,
    ),
    concat!(
        r#"{"cdn-path":["AS1:a"],"trigger":{"type":"purge","#,
        r#""content.patterns":[{"pattern":"*w.example/*"}]}}"#,
    ),
    concat!(
        r#"{"cdn-path":["AS1:a"],"trigger":{"type":"purge","#,
        r#""content.ccid":["d"]}}"#,
    ),
    concat!(
        r#"{"cdn-path":["AS1:a"],"trigger":{"type":"invalidate","#,
        r#""metadata.urls":["http://v.example/a"]}}"#,
    ),
];

// the command of this text, which is to be read
fn read_command(alloc: Global, text: &[u8]) -> Result<Command, Fail> {
    let own = ProviderId::read(alloc, b"AS64496:0")?;
    let control = Endpoint::read(alloc, b"control.example")?.host;
    let command = Command::read(alloc, text, &own, &control).ok();
    Ok(command.ok_or("refused")?)
}

// what the trigger of this text selects
fn selection_of(alloc: Global, text: &str) -> Result<Selection, Fail> {
    let Command { path: _, act } = read_command(alloc, text.as_bytes())?;
    match act {
        Act::Trigger(spec) => Ok(spec.selection),
        Act::Cancel(_) => Err("no trigger".into()),
    }
}

fn key_of(alloc: Global, random: u64) -> Result<Key, Fail> {
    let url = URLS[(random % 6) as usize].as_bytes();
    let target = Target::read(alloc, url, None, false)?;
    Ok(url_key(alloc, &target, &Ignored::None)?)
}

// one of six contents, each in one of three collections or in none
fn fetching_of(alloc: Global, random: u64) -> Result<Fetching, Fail> {
    let ccid = match random / 6 % 4 {
        0 => Some(Text::of(alloc, b"c")?),
        1 => Some(Text::of(alloc, b"d")?),
        2 => Some(Text::of(alloc, b"e")?),
        _ => None,
    };
    Ok(Fetching {
        key: key_of(alloc, random)?,
        ccid,
    })
}

// content of up to fifteen bytes, mostly with status 200, or none
fn outcome_of(alloc: Global, random: u64) -> Result<Outcome, Fail> {
    let status = match random % 8 {
        0 => return Ok(Outcome::Failed),
        1 => 404,
        _ => 200,
    };
    let bytes = b"abcdefghijklmno";
    let body = Body::of(alloc, &bytes[..(random / 8 % 16) as usize])?;
    let kind = TypeName::of(alloc, b"text/plain")?.ok_or("no name")?;
    match Got::new(status, kind, body) {
        Some(got) => Ok(Outcome::Got(got)),
        None => Err("no content".into()),
    }
}

// opens a fetch in both, and whether it has the same number
fn open_both(
    alloc: Global,
    shelf: &mut Shelf,
    plain: &mut PlainShelf,
    random: u64,
) -> Result<bool, Fail>
    requires { shelf.old.fetched ≤ 2 ^ 62 }
    ensures few { shelf.new.fetched + shelf.new.starts ≤ shelf.old.fetched + shelf.old.starts + 1 }
{
    let own = fetching_of(alloc, random)?;
    let other = fetching_of(alloc, random)?;
    let fetch = open_by_key(alloc, shelf, own)?;
    Ok(plain.open(1, other)? == fetch)
}

// opens a fetch as a request does where nothing is kept under its key, and else as a trigger does
fn open_by_key(alloc: Global, shelf: &mut Shelf, fetching: Fetching) -> Result<u64, Fail>
    requires { shelf.old.fetched ≤ 2 ^ 62 }
    ensures few { shelf.new.fetched + shelf.new.starts ≤ shelf.old.fetched + shelf.old.starts + 1 }
{
    if shelf.find(&fetching.key).is_none() {
        Ok(shelf.open_missed(alloc, 1, fetching)?)
    } else {
        Ok(shelf.open(alloc, 1, fetching)?)
    }
}

// ends one of the last fetches in both, and whether it is kept in both or in none
fn end_both(
    alloc: Global,
    shelf: &mut Shelf,
    plain: &mut PlainShelf,
    random: u64,
) -> Result<bool, Fail>
    ensures few { shelf.new.fetched + shelf.new.starts ≤ shelf.old.fetched + shelf.old.starts + 1 }
{
    let own = outcome_of(alloc, random / 8)?;
    let other = outcome_of(alloc, random / 8)?;
    let fetch = plain.fetched().saturating_sub(random % 8);
    let kept = shelf.end(1, fetch, own);
    Ok(plain.end(1, fetch, other)? == kept)
}

// a trigger starts in both
fn start_both(
    alloc: Global,
    shelf: &mut Shelf,
    plain: &mut PlainShelf,
    selection: &Selection,
) -> Result<bool, Fail>
    requires { shelf.old.starts ≤ 2 ^ 62 }
    ensures few { shelf.new.fetched + shelf.new.starts ≤ shelf.old.fetched + shelf.old.starts + 1 }
{
    shelf.start(alloc, selection)?;
    plain.start(alloc, selection)?;
    Ok(true)
}

// what is kept under the key is used
fn use_if_kept(alloc: Global, shelf: &mut Shelf, key: &Key) -> Result<(), Fail>
    ensures few { shelf.new.fetched + shelf.new.starts ≤ shelf.old.fetched + shelf.old.starts + 1 }
{
    if shelf.find(key).is_some() {
        shelf.renew(alloc, key)?;
    }
    Ok(())
}

// uses what is kept under a key in both
fn use_both(
    alloc: Global,
    shelf: &mut Shelf,
    plain: &mut PlainShelf,
    random: u64,
) -> Result<bool, Fail>
    ensures few { shelf.new.fetched + shelf.new.starts ≤ shelf.old.fetched + shelf.old.starts + 1 }
{
    let key = key_of(alloc, random)?;
    plain.touch(&key)?;
    use_if_kept(alloc, shelf, &key)?;
    Ok(true)
}

// moves what is kept under a key to the end in both
fn touch_both(
    alloc: Global,
    shelf: &mut Shelf,
    plain: &mut PlainShelf,
    random: u64,
) -> Result<bool, Fail>
    ensures few { shelf.new.fetched + shelf.new.starts ≤ shelf.old.fetched + shelf.old.starts + 1 }
{
    let key = key_of(alloc, random)?;
    shelf.touch(&key);
    plain.touch(&key)?;
    Ok(true)
}

// whether the same is found in both
fn is_found_alike(
    alloc: Global,
    shelf: &Shelf,
    plain: &PlainShelf,
    random: u64,
) -> Result<bool, Fail> {
    let key = key_of(alloc, random)?;
    match (shelf.find(&key), plain.find(&key)) {
        (Some(object), Some(other)) => Ok(
            object.fetch == other.fetch
                && object.ccid == other.ccid
                && object.body.bytes() == other.body.bytes(),
        ),
        (None, None) => Ok(true),
        _ => Ok(false),
    }
}

// one random call on both, and whether they answer the same
fn agree(
    alloc: Global,
    shelf: &mut Shelf,
    plain: &mut PlainShelf,
    starts: &[Selection],
    random: u64,
) -> Result<bool, Fail>
    requires fetched { shelf.old.fetched ≤ 2 ^ 62 }
    requires starts { shelf.old.starts ≤ 2 ^ 62 }
    ensures few { shelf.new.fetched + shelf.new.starts ≤ shelf.old.fetched + shelf.old.starts + 1 }
{
    let number = random / 32;
    match random % 32 {
        0..8 => open_both(alloc, shelf, plain, number),
        8..17 => end_both(alloc, shelf, plain, number),
        17 => match starts.get((number % 6) as usize) {
            Some(selection) => start_both(alloc, shelf, plain, selection),
            None => Ok(false),
        },
        18 => {
            shelf.sweep();
            Ok(true)
        }
        19..22 => use_both(alloc, shelf, plain, number),
        22..24 => touch_both(alloc, shelf, plain, number),
        _ => is_found_alike(alloc, shelf, plain, number),
    }
}

#[test]
fn starts_by_epochs_take_back_what_a_scan_takes_back(rt: HostRuntime) -> Result<(), Fail> {
    let mut starts = Vec::new(rt.alloc());
    for text in &STARTS {
        starts.push(selection_of(rt.alloc(), text)?)?;
    }
    let mut shelf = Shelf::new(rt.alloc(), LIMIT as u64)?;
    let mut plain = PlainShelf::new(rt.alloc(), LIMIT);
    let mut random = 1u64;
    'calls: for call in 0..20_000u64 {
        random = random
            .wrapping_mul(6_364_136_223_846_793_005)
            .wrapping_add(1_442_695_040_888_963_407);
        let same = agree(rt.alloc(), &mut shelf, &mut plain, &starts, random >> 24)?;
        assert!(rt; same, "at {call}");
    }
    Ok(())
}
