//! Starts, and what they take back.

use cdni_base::{Endpoint, Ignored, Key, ProviderId, Target, Text, url_key};
use epochs::Epochs;
use std::alloc::Global;
use std::test::Fail;
use trigger_command::{Act, Command, Selection};

// the command of this text, which is to be read
fn read_command(alloc: Global, text: &[u8]) -> Result<Command, Fail> {
    let own = ProviderId::read(alloc, b"AS64496:0")?;
    let control = Endpoint::read(alloc, b"control.example")?.host;
    let command = Command::read(alloc, text, &own, &control).ok();
    Ok(command.ok_or("refused")?)
}

// what the trigger of this text selects
fn selection_of(alloc: Global, text: &str) -> Result<Selection, Fail> {
    let Command { path: _, act } = read_command(alloc, text.as_bytes())?;
    match act {
        Act::Trigger(spec) => Ok(spec.selection),
        Act::Cancel(_) => Err("no trigger".into()),
    }
}

const STARTS: [&str; 3] = [
    concat!(
        r#"{"cdn-path":["AS1:a"],"trigger":{"type":"purge","#,
        r#""content.urls":["http://v.example/a?1","http://v.example/a?2"]}}"#,
    ),
    concat!(
        r#"{"cdn-path":["AS1:a"],"trigger":{"type":"invalidate","#,
        r#""content.urls":["http://v.example/b"],"content.ccid":["c"]}}"#,
    ),
    concat!(
        r#"{"cdn-path":["AS1:a"],"trigger":{"type":"purge","#,
        r#""content.urls":["http://v.example/a?1"],"content.patterns":[{"pattern":"*/p/*"}]}}"#,
    ),
];

fn key_of(alloc: Global, url: &[u8]) -> Result<Key, Fail> {
    let target = Target::read(alloc, url, None, false)?;
    Ok(url_key(alloc, &target, &Ignored::None)?)
}

// a URL, a collection, and the last of three starts that hits, or 0
const LAST: [(&str, &str, u64); 8] = [
    ("http://v.example/a?1", "", 3),
    ("http://v.example/a?2", "", 1),
    ("https://V.example/a?2", "", 1),
    ("http://v.example/a?3", "", 0),
    ("http://v.example/b", "", 2),
    ("http://v.example/c", "c", 2),
    ("http://v.example/p/c", "cc", 3),
    ("http://v.example/p", "cc", 0),
];

// whether this is the last start that hits
fn is_last(alloc: Global, epochs: &Epochs, url: &str, ccid: &str, last: u64) -> Result<bool, Fail> {
    let key = key_of(alloc, url.as_bytes())?;
    let ccid = Text::of(alloc, ccid.as_bytes())?;
    let before = last == 0 || epochs.is_stale(last - 1, &key, Some(&ccid));
    Ok(before && !epochs.is_stale(last, &key, Some(&ccid)))
}

#[test]
fn what_began_before_a_start_is_stale(rt: HostRuntime) -> Result<(), Fail> {
    let mut epochs = Epochs::new(rt.alloc())?;
    for text in &STARTS {
        let newest = epochs.newest();
        assert!(rt; newest < 3);
        let selection = selection_of(rt.alloc(), text)?;
        assert!(rt; epochs.start(rt.alloc(), selection)? == newest + 1);
    }
    for (url, ccid, last) in &LAST {
        let is = is_last(rt.alloc(), &epochs, url, ccid, *last)?;
        assert!(rt; is, "{url} {ccid}");
    }
    Ok(())
}

#[test]
fn a_start_needs_no_memory_at_a_place_that_was_made(rt: HostRuntime) -> Result<(), Fail> {
    let mut epochs = Epochs::new(rt.alloc())?;
    for text in &STARTS {
        let newest = epochs.newest();
        assert!(rt; newest < 3);
        let selection = selection_of(rt.alloc(), text)?;
        epochs.reserve(rt.alloc())?;
        assert!(rt; epochs.start_reserved(selection) == newest + 1);
    }
    for (url, ccid, last) in &LAST {
        let is = is_last(rt.alloc(), &epochs, url, ccid, *last)?;
        assert!(rt; is, "{url} {ccid}");
    }
    Ok(())
}

#[test]
fn starts_are_forgotten(rt: HostRuntime) -> Result<(), Fail> {
    let mut epochs = Epochs::new(rt.alloc())?;
    for text in &STARTS {
        assert!(rt; epochs.newest() < 3);
        epochs.start(rt.alloc(), selection_of(rt.alloc(), text)?)?;
    }
    assert!(rt; epochs.newest() == 3);
    epochs.settle(1);
    for (url, ccid, last) in &LAST {
        let known = if *last == 1 { 0 } else { *last };
        let is = is_last(rt.alloc(), &epochs, url, ccid, known)?;
        assert!(rt; is, "{url} {ccid}");
    }
    Ok(())
}
