//! What a trigger goes through, from its command to its end.

use listing::{Listing, Text};
use std::alloc::{AllocError, Global};
use std::test::Fail;
use targets::Target;
use trigger_command::{IdList, Selection, Spec, TriggerKind, UrlItem, UrlItemList};
use trigger_status::{Filter, JobStatus};
use trigger_table::{Step, Triggers};

// a list of this URL, so many times
fn urls(alloc: Global, count: usize) -> Result<UrlItemList, Fail> {
    let text = b"http://v.example/a";
    let mut list = Listing::new(alloc);
    for _ in 0..count {
        let target = Target::read(alloc, text, None, false).ok();
        list.push(UrlItem {
            text: Text::of(alloc, text)?,
            target: target.ok_or("no target")?,
        })?;
    }
    Ok(list)
}

// a trigger of this kind with so many metadata URLs and content URLs
fn spec_of(
    alloc: Global,
    kind: TriggerKind,
    metadata: usize,
    content: usize,
) -> Result<Spec, Fail> {
    let selection = Selection {
        metadata_urls: urls(alloc, metadata)?,
        content_urls: urls(alloc, content)?,
        ccids: Listing::new(alloc),
        metadata_patterns: Listing::new(alloc),
        content_patterns: Listing::new(alloc),
    };
    Ok(Spec::new(kind, selection).ok_or("too many")?)
}

// a table of at most one trigger, with a preposition of one metadata URL and two content URLs
fn preposition(alloc: Global) -> Result<Triggers, Fail> {
    let spec = spec_of(alloc, TriggerKind::Preposition, 1, 2)?;
    let mut triggers = Triggers::new(alloc, 1);
    triggers.command(alloc, spec, 1000)?;
    Ok(triggers)
}

fn id_list(alloc: Global, ids: &[u64]) -> Result<IdList, AllocError> {
    let mut list: IdList = Listing::new(alloc);
    for id in ids {
        list.push(*id)?;
    }
    Ok(list)
}

// its metadata and its first URL fail, and its second is fetched
fn run(triggers: &mut Triggers) {
    triggers.step_done(1, 7, 2000);
    triggers.step_done(1, 7, 3000);
    triggers.step_opened(1, 4);
    triggers.step_ended(1, false);
    triggers.step_done(1, 7, 4000);
    triggers.step_ended(1, false);
    triggers.step_done(1, 7, 5000);
    triggers.step_opened(1, 5);
}

#[test]
fn a_preposition_fails_where_a_fetch_did(rt: HostRuntime) -> Result<(), Fail> {
    let mut triggers = preposition(rt.alloc())?;
    assert!(rt; triggers.next_step(7, 1) == Step::Start);
    run(&mut triggers);
    assert!(rt; triggers.next_step(8, 1) == Step::Claimed(7));
    assert!(rt; triggers.next_step(7, 1) == Step::StepOpen(5));
    triggers.step_ended(1, true);
    assert!(rt; triggers.next_step(7, 1) == Step::End(JobStatus::Failed));
    triggers.step_done(1, 7, 6000);
    let job = triggers.job(1).ok_or("no trigger")?;
    assert!(rt; job.mtime == 6000 && job.emeta);
    assert!(rt; job.econtent.as_slice() == [0].as_slice());
    Ok(())
}

#[test]
fn triggers_are_cancelled_listed_and_deleted(rt: HostRuntime) -> Result<(), Fail> {
    let alloc = rt.alloc();
    let mut full = Triggers::new(alloc, 0);
    let purge = spec_of(alloc, TriggerKind::Purge, 0, 1)?;
    assert!(rt; full.command(alloc, purge, 1000)?.is_none());
    let mut triggers = preposition(alloc)?;
    let unknown = triggers.cancel(alloc, &id_list(alloc, &[1, 2])?, 2000)?;
    assert!(rt; unknown.err() == Some(2));
    let known = triggers.cancel(alloc, &id_list(alloc, &[1])?, 2000)?;
    assert!(rt; known.is_ok());
    let failed = triggers.job_ids(alloc, Filter::Failed)?;
    assert!(rt; failed.as_slice() == [1].as_slice());
    assert!(rt; triggers.delete(1) && triggers.job_count() == 0);
    Ok(())
}
