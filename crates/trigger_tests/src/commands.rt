//! Commands that are read and refused, and keys that are hit.

use cdni_base::{Endpoint, HostName, Ignored, Key, ProviderId, Target, Text, url_key};
use std::alloc::{AllocError, Global};
use std::test::Fail;
use trigger_command::{Act, Command, CommandFault, IdList, Selection, Spec, TriggerKind};

const REFUSED: [(&str, &str); 22] = [
    ("{", "not-json"),
    ("[]", "field  wrong-kind"),
    ("{}", "field /cdn-path missing"),
    (r#"{"cdn-path":[1]}"#, "field /cdn-path/0 wrong-kind"),
    (
        r#"{"cdn-path":["AS1:a","AS:b"],"cancel":[]}"#,
        "field /cdn-path/1 out-of-range",
    ),
    (r#"{"cdn-path":[]}"#, "field /trigger missing"),
    (
        r#"{"cdn-path":[],"trigger":{},"cancel":[]}"#,
        "field /cancel wrong-kind",
    ),
    (
        r#"{"cdn-path":[],"trigger":{}}"#,
        "field /trigger/type missing",
    ),
    (
        r#"{"cdn-path":[],"trigger":{"type":"Purge"}}"#,
        "field /trigger/type out-of-range",
    ),
    (
        r#"{"cdn-path":[],"trigger":{"type":"purge","content.urls":["x",null]}}"#,
        "field /trigger/content.urls/1 wrong-kind",
    ),
    (
        r#"{"cdn-path":[],"trigger":{"type":"purge","content.patterns":[{"pattern":"*"},{}]}}"#,
        "field /trigger/content.patterns/1/pattern missing",
    ),
    (
        r#"{"cdn-path":[],"trigger":{"type":"purge","metadata.patterns":[{"pattern":"*","case-sensitive":1}]}}"#,
        "field /trigger/metadata.patterns/0/case-sensitive wrong-kind",
    ),
    (
        r#"{"cdn-path":["AS1:a","AS64496:0"],"trigger":{"type":"purge"}}"#,
        "loop",
    ),
    (
        r#"{"cdn-path":[],"trigger":{"type":"purge","content.urls":[]}}"#,
        "no-selection",
    ),
    (
        r#"{"cdn-path":[],"trigger":{"type":"preposition","content.ccid":["c"],"content.patterns":[{"pattern":"*"}]}}"#,
        "pattern-in-preposition",
    ),
    (
        r#"{"cdn-path":[],"trigger":{"type":"preposition","content.ccid":["c"],"content.urls":["x"]}}"#,
        "ccid-in-preposition",
    ),
    (
        r#"{"cdn-path":[],"trigger":{"type":"purge","metadata.urls":["http://v/"],"content.urls":["http://v/","/a"]}}"#,
        "bad-url 2",
    ),
    (
        r#"{"cdn-path":[],"cancel":[null]}"#,
        "field /cancel/0 wrong-kind",
    ),
    (
        r#"{"cdn-path":[],"cancel":["http://control.example/triggers/01"]}"#,
        "bad-url 0",
    ),
    (
        r#"{"cdn-path":[],"cancel":["http://control.example/triggers/1","HTTP://control.example/triggers/2"]}"#,
        "bad-url 1",
    ),
    (
        r#"{"cdn-path":[],"cancel":["http://control.example:80/triggers/1"]}"#,
        "bad-url 0",
    ),
    (
        r#"{"cdn-path":[],"cancel":["http://control.example/triggers/18446744073709551616"]}"#,
        "bad-url 0",
    ),
];

fn own_id(alloc: Global) -> Result<ProviderId, Fail> {
    Ok(ProviderId::read(alloc, b"AS64496:0")?)
}

fn control_host(alloc: Global) -> Result<HostName, Fail> {
    Ok(Endpoint::read(alloc, b"control.example")?.host)
}

// the line of a fault; nothing where it is want of memory
fn line_of(alloc: Global, fault: &CommandFault) -> Result<Text, AllocError> {
    if matches!(fault, CommandFault::Memory) {
        return Text::of(alloc, b"");
    }
    fault.text(alloc)
}

// the line by which this text is refused; nothing where it is read
fn refusal(
    alloc: Global,
    text: &[u8],
    own: &ProviderId,
    control: &HostName,
) -> Result<Text, AllocError> {
    match Command::read(alloc, text, own, control) {
        Ok(_) => Text::of(alloc, b""),
        Err(fault) => line_of(alloc, &fault),
    }
}

// whether this line is `refused` and this fault
fn is_line(alloc: Global, line: &Text, fault: &str) -> Result<bool, AllocError> {
    let expected = format!(in alloc; "refused {fault}")?;
    Ok(line.is(expected.as_bytes()))
}

// whether this text is refused for this fault
fn is_refused(
    alloc: Global,
    text: &[u8],
    own: &ProviderId,
    control: &HostName,
    fault: &str,
) -> Result<bool, AllocError> {
    let line = refusal(alloc, text, own, control)?;
    is_line(alloc, &line, fault)
}

// a purge of so many URLs, and of a pattern of so many bytes
fn large(alloc: Global, urls: usize, pattern: usize) -> Result<Vec<u8>, AllocError> {
    let mut text = Vec::from_slice(
        alloc,
        br#"{"cdn-path":[],"trigger":{"type":"purge","content.urls":["http://v/""#,
    )?;
    for _ in 1..urls {
        text.extend_from_slice(br#","http://v/""#)?;
    }
    text.extend_from_slice(
        br#"],"metadata.patterns":[{"pattern":""}],"content.patterns":[{"pattern":""#,
    )?;
    for _ in 0..pattern {
        text.push(b'p')?;
    }
    text.extend_from_slice(br#""}]}}"#)?;
    Ok(text)
}

// whether that is refused for this fault
fn is_large_refused(alloc: Global, urls: usize, pattern: usize, fault: &str) -> Result<bool, Fail> {
    let own = own_id(alloc)?;
    let control = control_host(alloc)?;
    let text = large(alloc, urls, pattern)?;
    Ok(is_refused(alloc, &text, &own, &control, fault)?)
}

#[test]
fn commands_are_refused(rt: HostRuntime) -> Result<(), Fail> {
    let own = own_id(rt.alloc())?;
    let control = control_host(rt.alloc())?;
    for (text, fault) in &REFUSED {
        let refused = is_refused(rt.alloc(), text.as_bytes(), &own, &control, fault)?;
        assert!(rt; refused, "{text}");
    }
    Ok(())
}

#[test]
fn large_commands_are_refused(rt: HostRuntime) -> Result<(), Fail> {
    for (urls, pattern, fault) in [(999, 1024, "too-many 1001"), (998, 1025, "bad-pattern 1")] {
        let refused = is_large_refused(rt.alloc(), urls, pattern, fault)?;
        assert!(rt; refused, "{fault}");
    }
    Ok(())
}

// the command of this text, which is to be read
fn command_of(
    alloc: Global,
    text: &[u8],
    own: &ProviderId,
    control: &HostName,
) -> Result<Command, Fail> {
    let command = Command::read(alloc, text, own, control).ok();
    Ok(command.ok_or("refused")?)
}

fn read_command(alloc: Global, text: &[u8]) -> Result<Command, Fail> {
    let own = own_id(alloc)?;
    let control = control_host(alloc)?;
    command_of(alloc, text, &own, &control)
}

fn key_of(alloc: Global, url: &[u8]) -> Result<Key, Fail> {
    let target = Target::read(alloc, url, None, false)?;
    Ok(url_key(alloc, &target, &Ignored::None)?)
}

fn spec_of(command: &Command) -> Option<&Spec> {
    match &command.act {
        Act::Trigger(spec) => Some(spec),
        Act::Cancel(_) => None,
    }
}

fn ids_of(command: &Command) -> Option<&IdList> {
    match &command.act {
        Act::Trigger(_) => None,
        Act::Cancel(ids) => Some(ids),
    }
}

// a URL, and whether its content and its metadata are hit
const HITS: [(&str, bool, bool); 7] = [
    ("http://v.example/a?x", true, false),
    ("http://v.example/a", false, false),
    ("http://v.example/b/x?q", true, false),
    ("http://v.example/C?q", true, false),
    ("http://m.example/i", false, true),
    ("http://m.example/j", false, true),
    ("http://m.example/k", false, false),
];

// whether these are the hits of this URL
fn are_hits(
    alloc: Global,
    selection: &Selection,
    url: &str,
    content: bool,
    metadata: bool,
) -> Result<bool, Fail> {
    let key = key_of(alloc, url.as_bytes())?;
    Ok(selection.hits(&key, None) == content && selection.hits_metadata(&key) == metadata)
}

// whether this URL's content is hit as that of a collection
fn is_hit_in(alloc: Global, selection: &Selection, url: &str, ccid: &str) -> Result<bool, Fail> {
    let key = key_of(alloc, url.as_bytes())?;
    let ccid = Text::of(alloc, ccid.as_bytes())?;
    Ok(selection.hits(&key, Some(&ccid)))
}

const TRIGGER: &str = concat!(
    r#"{"trigger":{"metadata.urls":["http://m.example/i"],"content.urls":["https://V.example/a?x"],"#,
    r#""content.ccid":["c"],"metadata.patterns":[{"pattern":"http*/j"}],"#,
    r#""content.patterns":[{"pattern":"https://v.example/b/?*","case-sensitive":true,"#,
    r#""match-query-string":true},{"pattern":"*/c"}],"type":"invalidate"},"cdn-path":["AS1:a"]}"#,
);

#[test]
fn a_command_hits_its_keys(rt: HostRuntime) -> Result<(), Fail> {
    let command = read_command(rt.alloc(), TRIGGER.as_bytes())?;
    let spec = spec_of(&command).ok_or("no trigger")?;
    for (url, content, metadata) in &HITS {
        let are = are_hits(rt.alloc(), &spec.selection, url, *content, *metadata)?;
        assert!(rt; are, "{url}");
    }
    Ok(())
}

#[test]
fn a_command_hits_its_collections(rt: HostRuntime) -> Result<(), Fail> {
    let command = read_command(rt.alloc(), TRIGGER.as_bytes())?;
    let spec = spec_of(&command).ok_or("no trigger")?;
    for (ccid, hit) in [("c", true), ("cc", false)] {
        let is = is_hit_in(rt.alloc(), &spec.selection, "http://v.example/a", ccid)?;
        assert!(rt; is == hit, "{ccid}");
    }
    Ok(())
}

#[test]
fn a_trigger_is_read(rt: HostRuntime) -> Result<(), Fail> {
    let command = read_command(rt.alloc(), TRIGGER.as_bytes())?;
    let spec = spec_of(&command).ok_or("no trigger")?;
    let same = spec.kind == TriggerKind::Invalidate && spec.selection.item_count() == 6;
    assert!(rt; same && command.path.len() == 1);
    Ok(())
}

#[test]
fn a_cancel_is_read(rt: HostRuntime) -> Result<(), Fail> {
    let text = concat!(
        r#"{"cancel":["http://control.example/triggers/7","#,
        r#""https://control.example/triggers/18446744073709551615"],"cdn-path":[]}"#,
    );
    let command = read_command(rt.alloc(), text.as_bytes())?;
    let ids = ids_of(&command).ok_or("no cancel")?;
    let same = ids.as_slice() == [7, 18446744073709551615].as_slice();
    assert!(rt; same);
    Ok(())
}

// the examples of commands (RFC 8007, sections 6.1.1 and 6.1.2): what each does, and how many items it selects
const EXAMPLES: [(&str, TriggerKind, usize); 2] = [
    (
        concat!(
            r#"{ "trigger" : { "type": "preposition","#,
            r#" "metadata.urls" : [ "https://metadata.example.com/a/b/c" ],"#,
            r#" "content.urls" : [ "https://www.example.com/a/b/c/1","#,
            r#" "https://www.example.com/a/b/c/2", "https://www.example.com/a/b/c/3","#,
            r#" "https://www.example.com/a/b/c/4" ] }, "cdn-path" : [ "AS64496:1" ] }"#,
        ),
        TriggerKind::Preposition,
        5,
    ),
    (
        concat!(
            r#"{ "trigger" : { "type": "invalidate","#,
            r#" "metadata.patterns" : [ { "pattern" : "https://metadata.example.com/a/b/*" } ],"#,
            r#" "content.patterns" : [ { "pattern" : "https://www.example.com/a/b/c/*","#,
            r#" "case-sensitive" : true } ] }, "cdn-path" : [ "AS64496:1" ] }"#,
        ),
        TriggerKind::Invalidate,
        2,
    ),
];

// whether this text is a trigger of this kind and of so many items, which came through one CDN
fn is_trigger(alloc: Global, text: &str, kind: TriggerKind, items: usize) -> Result<bool, Fail> {
    let command = read_command(alloc, text.as_bytes())?;
    let spec = spec_of(&command).ok_or("no trigger")?;
    Ok(spec.kind == kind && spec.selection.item_count() == items && command.path.len() == 1)
}

#[test]
fn the_examples_of_the_standard_are_read(rt: HostRuntime) -> Result<(), Fail> {
    for (text, kind, items) in &EXAMPLES {
        let is = is_trigger(rt.alloc(), text, *kind, *items)?;
        assert!(rt; is, "{text}");
    }
    Ok(())
}

#[test]
fn the_examples_of_the_standard_end_at_the_cdn_that_sent_them(rt: HostRuntime) -> Result<(), Fail> {
    let own = ProviderId::read(rt.alloc(), b"AS64496:1")?;
    let control = control_host(rt.alloc())?;
    for (text, _, _) in &EXAMPLES {
        let refused = is_refused(rt.alloc(), text.as_bytes(), &own, &control, "loop")?;
        assert!(rt; refused, "{text}");
    }
    Ok(())
}

// whether this text cancels these triggers, whose status resources are at the host of the standard's examples
fn is_cancel(alloc: Global, text: &[u8], ids: &[u64]) -> Result<bool, Fail> {
    let own = own_id(alloc)?;
    let control = Endpoint::read(alloc, b"dcdn.example.com")?.host;
    let command = command_of(alloc, text, &own, &control)?;
    let found = ids_of(&command).ok_or("no cancel")?;
    Ok(found.as_slice() == ids)
}

#[test]
fn the_resources_of_the_standard_are_cancelled(rt: HostRuntime) -> Result<(), Fail> {
    let text = concat!(
        r#"{ "cancel" : [ "https://dcdn.example.com/triggers/0","#,
        r#" "https://dcdn.example.com/triggers/1" ], "cdn-path" : [ "AS64496:1" ] }"#,
    );
    let is = is_cancel(rt.alloc(), text.as_bytes(), &[0, 1])?;
    assert!(rt; is);
    Ok(())
}
