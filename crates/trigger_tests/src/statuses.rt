//! Texts of resources and collections.

use cdni_base::{Endpoint, HostName, ProviderId};
use listing::Listing;
use std::alloc::{AllocError, Global};
use std::test::Fail;
use trigger_command::{Act, Command, IdList, SELECTION_MAX, Spec};
use trigger_status::{Filter, IndexList, Job, JobStatus, collection_json, job_json};

fn own_id(alloc: Global) -> Result<ProviderId, Fail> {
    Ok(ProviderId::read(alloc, b"AS64496:0")?)
}

fn control_host(alloc: Global) -> Result<HostName, Fail> {
    Ok(Endpoint::read(alloc, b"control.example")?.host)
}

fn command_of(
    alloc: Global,
    text: &[u8],
    own: &ProviderId,
    control: &HostName,
) -> Result<Command, Fail> {
    let command = Command::read(alloc, text, own, control).ok();
    Ok(command.ok_or("refused")?)
}

fn spec_of(command: &Command) -> Option<&Spec> {
    match &command.act {
        Act::Trigger(spec) => Some(spec),
        Act::Cancel(_) => None,
    }
}

fn spec_in(command: &Command) -> Result<Spec, Fail> {
    Ok(spec_of(command).ok_or("no trigger")?.clone()?)
}

// the trigger of a command's text, read by this CDN
fn spec_by(alloc: Global, text: &[u8], own: &ProviderId, control: &HostName) -> Result<Spec, Fail> {
    let command = command_of(alloc, text, own, control)?;
    spec_in(&command)
}

// the trigger of a command's text
fn read_spec(alloc: Global, text: &[u8]) -> Result<Spec, Fail> {
    let own = own_id(alloc)?;
    let control = control_host(alloc)?;
    spec_by(alloc, text, &own, &control)
}

fn index_list(alloc: Global, places: &[u32]) -> Result<IndexList, AllocError> {
    let mut list = IndexList::new(alloc)?;
    for place in places {
        if list.len() < SELECTION_MAX {
            list.push_reserved(*place);
        }
    }
    Ok(list)
}

fn id_list(alloc: Global, numbers: &[u64]) -> Result<IdList, AllocError> {
    let mut list: IdList = Listing::new(alloc);
    for number in numbers {
        list.push(*number)?;
    }
    Ok(list)
}

// whether the resource of a trigger that failed, or was done, is this text
fn is_job(
    alloc: Global,
    spec: Spec,
    failed: bool,
    econtent: IndexList,
    expected: &[u8],
) -> Result<bool, AllocError> {
    let status = if failed {
        JobStatus::Failed
    } else {
        JobStatus::Complete
    };
    let job = Job {
        id: 1,
        spec,
        status,
        ctime: 2001,
        mtime: 12999,
        emeta: failed,
        econtent,
    };
    Ok(job_json(alloc, &job)?.is(expected))
}

// the same, of a command's trigger
fn is_resource(
    alloc: Global,
    text: &[u8],
    failed: bool,
    places: &[u32],
    expected: &[u8],
) -> Result<bool, Fail> {
    let spec = read_spec(alloc, text)?;
    let econtent = index_list(alloc, places)?;
    Ok(is_job(alloc, spec, failed, econtent, expected)?)
}

#[test]
fn a_done_trigger_is_written(rt: HostRuntime) -> Result<(), Fail> {
    let text =
        br#"{"cdn-path":["AS64500:0"],"trigger":{"content.urls":["http://v.example/a"],"type":"invalidate"}}"#;
    let expected = concat!(
        r#"{"ctime":2,"mtime":12,"status":"complete","trigger":{"content.urls":["http://v.example/a"],"#,
        r#""type":"invalidate"}}"#,
    );
    let same = is_resource(rt.alloc(), text, false, &[], expected.as_bytes())?;
    assert!(rt; same);
    Ok(())
}

#[test]
fn a_failed_trigger_is_written(rt: HostRuntime) -> Result<(), Fail> {
    let text = concat!(
        r#"{"cdn-path":[],"trigger":{"type":"purge","metadata.urls":["http://m/"],"#,
        r#""content.urls":["http://v/a","HTTP://v/b"],"content.ccid":["a\"\\\u0001\n","c"],"#,
        r#""metadata.patterns":[{"pattern":"*","case-sensitive":true}],"#,
        r#""content.patterns":[{"pattern":"x","match-query-string":true}]}}"#,
    );
    let expected = concat!(
        r#"{"ctime":2,"errors":[{"error":"emeta","metadata.urls":["http://m/"]},"#,
        r#"{"content.urls":["HTTP://v/b","http://v/a"],"error":"econtent"}],"mtime":12,"#,
        r#""status":"failed","trigger":{"content.ccid":["a\"\\\u0001\n","c"],"#,
        r#""content.patterns":[{"case-sensitive":false,"match-query-string":true,"pattern":"x"}],"#,
        r#""content.urls":["http://v/a","HTTP://v/b"],"metadata.patterns":[{"case-sensitive":true,"#,
        r#""match-query-string":false,"pattern":"*"}],"metadata.urls":["http://m/"],"type":"purge"}}"#,
    );
    let same = is_resource(
        rt.alloc(),
        text.as_bytes(),
        true,
        &[1, 0],
        expected.as_bytes(),
    )?;
    assert!(rt; same);
    Ok(())
}

// whether the collection of these triggers is this text
fn is_list(
    alloc: Global,
    ids: &IdList,
    filter: Filter,
    own: &ProviderId,
    control: &HostName,
    expected: &[u8],
) -> Result<bool, AllocError> {
    Ok(collection_json(alloc, ids, filter, own, control)?.is(expected))
}

// the same, of this CDN and its control host
fn is_collection(
    alloc: Global,
    ids: &IdList,
    filter: Filter,
    expected: &[u8],
) -> Result<bool, Fail> {
    let own = own_id(alloc)?;
    let control = control_host(alloc)?;
    Ok(is_list(alloc, ids, filter, &own, &control, expected)?)
}

#[test]
fn a_collection_is_written(rt: HostRuntime) -> Result<(), Fail> {
    let ids = id_list(rt.alloc(), &[2])?;
    let expected = br#"{"triggers":["http://control.example/triggers/2"]}"#;
    let same = is_collection(rt.alloc(), &ids, Filter::Active, expected)?;
    assert!(rt; same);
    Ok(())
}

#[test]
fn the_collection_of_all_is_written(rt: HostRuntime) -> Result<(), Fail> {
    let ids = id_list(rt.alloc(), &[2, 18446744073709551615])?;
    let expected = concat!(
        r#"{"cdn-id":"AS64496:0","coll-active":"http://control.example/triggers/active","#,
        r#""coll-all":"http://control.example/triggers","#,
        r#""coll-complete":"http://control.example/triggers/complete","#,
        r#""coll-failed":"http://control.example/triggers/failed","#,
        r#""coll-pending":"http://control.example/triggers/pending","#,
        r#""triggers":["http://control.example/triggers/2","#,
        r#""http://control.example/triggers/18446744073709551615"]}"#,
    );
    let same = is_collection(rt.alloc(), &ids, Filter::All, expected.as_bytes())?;
    assert!(rt; same);
    Ok(())
}

const PREPOSITION: &str = concat!(
    r#"{ "trigger" : { "type": "preposition","#,
    r#" "metadata.urls" : [ "https://metadata.example.com/a/b/c" ],"#,
    r#" "content.urls" : [ "https://www.example.com/a/b/c/1", "https://www.example.com/a/b/c/2","#,
    r#" "https://www.example.com/a/b/c/3", "https://www.example.com/a/b/c/4" ] },"#,
    r#" "cdn-path" : [ "AS64496:1" ] }"#,
);

const INVALIDATE: &str = concat!(
    r#"{ "trigger" : { "type": "invalidate","#,
    r#" "metadata.patterns" : [ { "pattern" : "https://metadata.example.com/a/b/*" } ],"#,
    r#" "content.patterns" : [ { "pattern" : "https://www.example.com/a/b/c/*","#,
    r#" "case-sensitive" : true } ] }, "cdn-path" : [ "AS64496:1" ] }"#,
);

const NEW_SITE: &str = concat!(
    r#"{ "trigger" : { "type": "preposition","#,
    r#" "content.urls" : [ "https://newsite.example.com/index.html" ] },"#,
    r#" "cdn-path" : [ "AS64496:1" ] }"#,
);

// the examples of status resources (RFC 8007, sections 6.1, 6.2.4 and 6.2.6): the command, the status, the moment of
// its last change, which content URLs could not be fetched, and the resource. This CDN writes no `etime`, both flags of
// a pattern, and `econtent` for a URL that could not be fetched.
const EXAMPLES: [(&str, JobStatus, u64, &[u32], &str); 4] = [
    (
        PREPOSITION,
        JobStatus::Pending,
        1462351690_000,
        &[],
        concat!(
            r#"{"ctime":1462351690,"mtime":1462351690,"status":"pending","trigger":{"content.urls":["#,
            r#""https://www.example.com/a/b/c/1","https://www.example.com/a/b/c/2","#,
            r#""https://www.example.com/a/b/c/3","https://www.example.com/a/b/c/4"],"#,
            r#""metadata.urls":["https://metadata.example.com/a/b/c"],"type":"preposition"}}"#,
        ),
    ),
    (
        INVALIDATE,
        JobStatus::Pending,
        1462351690_000,
        &[],
        concat!(
            r#"{"ctime":1462351690,"mtime":1462351690,"status":"pending","trigger":{"content.patterns":["#,
            r#"{"case-sensitive":true,"match-query-string":false,"pattern":"https://www.example.com/a/b/c/*"}],"#,
            r#""metadata.patterns":[{"case-sensitive":false,"match-query-string":false,"#,
            r#""pattern":"https://metadata.example.com/a/b/*"}],"type":"invalidate"}}"#,
        ),
    ),
    (
        PREPOSITION,
        JobStatus::Complete,
        1462351698_000,
        &[],
        concat!(
            r#"{"ctime":1462351690,"mtime":1462351698,"status":"complete","trigger":{"content.urls":["#,
            r#""https://www.example.com/a/b/c/1","https://www.example.com/a/b/c/2","#,
            r#""https://www.example.com/a/b/c/3","https://www.example.com/a/b/c/4"],"#,
            r#""metadata.urls":["https://metadata.example.com/a/b/c"],"type":"preposition"}}"#,
        ),
    ),
    (
        NEW_SITE,
        JobStatus::Active,
        1462351696_000,
        &[0],
        concat!(
            r#"{"ctime":1462351690,"errors":[{"content.urls":["https://newsite.example.com/index.html"],"#,
            r#""error":"econtent"}],"mtime":1462351696,"status":"active","trigger":{"content.urls":["#,
            r#""https://newsite.example.com/index.html"],"type":"preposition"}}"#,
        ),
    ),
];

// whether the resource of a trigger with this status is this text
fn is_example(
    alloc: Global,
    command: &str,
    status: JobStatus,
    changed: u64,
    places: &[u32],
    expected: &str,
) -> Result<bool, Fail> {
    let job = Job {
        id: 1,
        spec: read_spec(alloc, command.as_bytes())?,
        status,
        ctime: 1462351690_000,
        mtime: changed,
        emeta: false,
        econtent: index_list(alloc, places)?,
    };
    Ok(job_json(alloc, &job)?.is(expected.as_bytes()))
}

#[test]
fn the_examples_of_the_standard_are_written(rt: HostRuntime) -> Result<(), Fail> {
    for (command, status, changed, places, expected) in &EXAMPLES {
        let is = is_example(rt.alloc(), command, *status, *changed, places, expected)?;
        assert!(rt; is, "{expected}");
    }
    Ok(())
}

// whether the collection of the first two triggers at the host of the standard's examples is this text
fn is_example_list(alloc: Global, filter: Filter, expected: &str) -> Result<bool, Fail> {
    let own = own_id(alloc)?;
    let control = Endpoint::read(alloc, b"dcdn.example.com")?.host;
    let ids = id_list(alloc, &[0, 1])?;
    Ok(is_list(alloc, &ids, filter, &own, &control, expected.as_bytes())?)
}

// the examples of collections (RFC 8007, sections 6.2.1 and 6.2.2). This CDN writes no `staleresourcetime`, and all its
// URLs are absolute.
#[test]
fn the_collections_of_the_standard_are_written(rt: HostRuntime) -> Result<(), Fail> {
    let all = concat!(
        r#"{"cdn-id":"AS64496:0","coll-active":"http://dcdn.example.com/triggers/active","#,
        r#""coll-all":"http://dcdn.example.com/triggers","#,
        r#""coll-complete":"http://dcdn.example.com/triggers/complete","#,
        r#""coll-failed":"http://dcdn.example.com/triggers/failed","#,
        r#""coll-pending":"http://dcdn.example.com/triggers/pending","#,
        r#""triggers":["http://dcdn.example.com/triggers/0","http://dcdn.example.com/triggers/1"]}"#,
    );
    let pending = concat!(
        r#"{"triggers":["http://dcdn.example.com/triggers/0","#,
        r#""http://dcdn.example.com/triggers/1"]}"#,
    );
    let same = is_example_list(rt.alloc(), Filter::All, all)?
        && is_example_list(rt.alloc(), Filter::Pending, pending)?;
    assert!(rt; same);
    Ok(())
}
