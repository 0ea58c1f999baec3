//! Reading a trigger command: the checks that follow the reading of its fields.

ghost use Rattle.std.specs.Prelude.{◌≡◌, ◌+◌, ◌<◌, ◌≤◌, length, min, nat_lt, IfOk, IsNone};
ghost use Rattle.std.specs.List.{list_any};
ghost use Rattle.serde_json.specs.View.{view};
ghost use Rattle.trigger_command.specs.Draft.{each_from};
ghost use Rattle.trigger_command.specs.Reading.{url_at, pattern_item_at, is_preposition, pattern_count, draft_count};
ghost use Rattle.trigger_command.specs.Reading.{wrong_lists, selection_of, spec_of, number_at, act_of, has_own};
ghost use Rattle.trigger_command.specs.Reading.{command_of_written, command_of_value, command_of, Gives};
ghost use Rattle.trigger_command.specs.Selection.{item_count};
ghost use Rattle.trigger_command.specs.declared.spec.TheConstants.{SELECTION_MAX};

use crate::command::{Act, Command, IdList};
use crate::draft::{Draft, Form, PatternDraft, Written, read_written};
use crate::fault::CommandFault;
use crate::selection::{PatternItem, PatternItemList, Selection, UrlItem, UrlItemList};
use crate::spec::{SELECTION_MAX, Spec, TriggerKind};
use crate::trigger_url::trigger_number;
use cdni_base::ProviderId;
use json_read::{ParseFault, Value, parse};
use listing::{Listing, Text};
use pattern_match::{Pattern, PatternFault};
use std::alloc::{AllocError, Global};
use targets::{HostName, Target, TargetFault};

// the most bytes of a pattern
const PATTERN_MAX: usize = 1024;

// reads the command of a JSON text
#[tactic(auto, unfolding(crate::specs::Reading::command_of))]
pub(crate) fn read_command(
    alloc: Global,
    bytes: &[u8],
    own: &ProviderId,
    control: &HostName,
) -> Result<Command, CommandFault>
    ensures { Gives (λ command. command) result (command_of own.now control.now bytes.now) }
{
    match parse(alloc, bytes) {
        Ok(value) => command_of_value(alloc, &value, own, control),
        Err(ParseFault::NotJson) => Err(CommandFault::NotJson),
        Err(ParseFault::Memory) => Err(CommandFault::Memory),
    }
}

#[tactic(auto, unfolding(crate::specs::Reading::command_of_value))]
fn command_of_value(
    alloc: Global,
    value: &Value,
    own: &ProviderId,
    control: &HostName,
) -> Result<Command, CommandFault>
    ensures { Gives (λ command. command) result (command_of_value own.now control.now (view value.now)) }
{
    let written = read_written(alloc, value)?;
    command_of_written(alloc, written, own, control)
}

#[tactic(auto, unfolding(crate::specs::Reading::command_of_written))]
fn command_of_written(
    alloc: Global,
    written: Written,
    own: &ProviderId,
    control: &HostName,
) -> Result<Command, CommandFault>
    ensures { Gives (λ command. command) result (command_of_written own.now control.now written) }
{
    if has_own(written.path.as_slice(), own) {
        return Err(CommandFault::Loop);
    }
    let act = act_of(alloc, written.form, control)?;
    Ok(Command {
        path: written.path,
        act,
    })
}

// whether the command came through this CDN
fn has_own(path: &[ProviderId], own: &ProviderId) -> bool
    ensures { result ≡ has_own own.now path.now }
{
    path.iter().any(|id| id.0.is(own.0.bytes()))
}

#[tactic(auto, unfolding(crate::specs::Reading::act_of))]
fn act_of(alloc: Global, form: Form, control: &HostName) -> Result<Act, CommandFault>
    ensures { Gives (λ act. act) result (act_of control.now form) }
{
    match form {
        Form::Trigger(draft) => Ok(Act::Trigger(spec_of(alloc, draft)?)),
        Form::Cancel(texts) => Ok(Act::Cancel(numbers_of(alloc, texts.as_slice(), control)?)),
    }
}

#[tactic(auto, unfolding(crate::specs::Reading::spec_of))]
fn spec_of(alloc: Global, draft: Draft) -> Result<Spec, CommandFault>
    ensures { Gives (λ spec. spec) result (spec_of draft) }
{
    if let Some(wrong) = wrong_lists(&draft) {
        return Err(wrong);
    }
    let kind = draft.kind;
    let selection = selection_of(alloc, draft)?;
    Ok(Spec { kind, selection })
}

// what is wrong with the lists of a trigger
#[tactic(auto, unfolding(crate::specs::Reading::wrong_lists))]
fn wrong_lists(draft: &Draft) -> Option<CommandFault>
    ensures value { result ≡ wrong_lists draft.now }
    ensures few { IsNone result → draft_count draft.now ≤ SELECTION_MAX }
{
    let count = draft_count(draft);
    if count == 0 {
        Some(CommandFault::NoSelection)
    } else if is_preposition(draft.kind) && has_patterns(draft) {
        Some(CommandFault::PatternInPreposition)
    } else if is_preposition(draft.kind) && draft.ccids.len() > 0 {
        Some(CommandFault::CcidInPreposition)
    } else if count > SELECTION_MAX {
        Some(CommandFault::TooMany { n: count })
    } else {
        None
    }
}

fn draft_count(draft: &Draft) -> usize
    ensures { result ≡ min (draft_count draft.now) usize.MAX }
{
    draft
        .metadata_urls
        .len()
        .saturating_add(draft.content_urls.len())
        .saturating_add(draft.ccids.len())
        .saturating_add(draft.metadata_patterns.len())
        .saturating_add(draft.content_patterns.len())
}

fn has_patterns(draft: &Draft) -> bool
    ensures { result ≡ nat_lt 0 (pattern_count draft.now) }
{
    draft.metadata_patterns.len() > 0 || draft.content_patterns.len() > 0
}

fn is_preposition(kind: TriggerKind) -> bool
    ensures { result ≡ is_preposition kind }
{
    matches!(kind, TriggerKind::Preposition)
}

// the URLs and the patterns of a trigger
#[tactic(auto, unfolding(crate::specs::Reading::selection_of))]
fn selection_of(alloc: Global, draft: Draft) -> Result<Selection, CommandFault>
    requires { draft_count draft ≤ SELECTION_MAX }
    ensures value { Gives (λ selection. selection) result (selection_of draft) }
    ensures few { IfOk result (λ selection. item_count selection ≤ SELECTION_MAX) }
{
    let metadata_urls = urls_of(alloc, draft.metadata_urls.as_slice(), 0)?;
    let content_urls = urls_of(
        alloc,
        draft.content_urls.as_slice(),
        draft.metadata_urls.len(),
    )?;
    let metadata_patterns = patterns_of(alloc, draft.metadata_patterns.as_slice(), 0)?;
    let content_patterns = patterns_of(
        alloc,
        draft.content_patterns.as_slice(),
        draft.metadata_patterns.len(),
    )?;
    Ok(Selection {
        metadata_urls,
        content_urls,
        ccids: draft.ccids,
        metadata_patterns,
        content_patterns,
    })
}

// the URLs of a list, of which the first has this number
fn urls_of(alloc: Global, texts: &[Text], from: usize) -> Result<UrlItemList, CommandFault>
    requires { from + length texts.now ≤ SELECTION_MAX }
    ensures value { Gives (λ items. items) result (each_from url_at from texts.now) }
    ensures count { IfOk result (λ items. length items ≡ length texts.now) }
{
    let mut list = Listing::new(alloc);
    'texts: for i in 0..texts.len() {
        let item = url_of(alloc, &texts[i], from + i)?;
        list.push(item)?;
    }
    Ok(list)
}

fn url_of(alloc: Global, text: &Text, index: usize) -> Result<UrlItem, CommandFault>
    ensures { Gives (λ item. item) result (url_at index text.now) }
{
    match Target::read(alloc, text.bytes(), None, false) {
        Ok(target) => Ok(UrlItem {
            text: text.clone()?,
            target,
        }),
        Err(TargetFault::Memory) => Err(CommandFault::Memory),
        Err(_) => Err(CommandFault::BadUrl { index }),
    }
}

// the patterns of a list, of which the first has this number
fn patterns_of(
    alloc: Global,
    drafts: &[PatternDraft],
    from: usize,
) -> Result<PatternItemList, CommandFault>
    requires { from + length drafts.now ≤ SELECTION_MAX }
    ensures value { Gives (λ items. items) result (each_from pattern_item_at from drafts.now) }
    ensures count { IfOk result (λ items. length items ≡ length drafts.now) }
{
    let mut list = Listing::new(alloc);
    'drafts: for i in 0..drafts.len() {
        let item = pattern_of(alloc, &drafts[i], from + i)?;
        list.push(item)?;
    }
    Ok(list)
}

fn pattern_of(
    alloc: Global,
    draft: &PatternDraft,
    index: usize,
) -> Result<PatternItem, CommandFault>
    ensures { Gives (λ item. item) result (pattern_item_at index draft.now) }
{
    if draft.text.bytes().len() > PATTERN_MAX {
        return Err(CommandFault::BadPattern { index });
    }
    let Ok(pattern) = Pattern::read(alloc, draft.text.bytes(), draft.case) else {
        return Err(CommandFault::Memory);
    };
    Ok(PatternItem {
        text: draft.text.clone()?,
        pattern,
        case: draft.case,
        query: draft.query,
    })
}

// the numbers of the triggers of these URLs
fn numbers_of(alloc: Global, texts: &[Text], control: &HostName) -> Result<IdList, CommandFault>
    ensures { Gives (λ ids. ids) result (each_from (number_at control.now) 0 texts.now) }
{
    let mut list = Listing::new(alloc);
    'texts: for i in 0..texts.len() {
        let number = number_of(&texts[i], control, i)?;
        list.push(number)?;
    }
    Ok(list)
}

fn number_of(text: &Text, control: &HostName, index: usize) -> Result<u64, CommandFault>
    ensures { Gives (λ number. number) result (number_at control.now index text.now) }
{
    match trigger_number(text.bytes(), control) {
        Some(number) => Ok(number),
        None => Err(CommandFault::BadUrl { index }),
    }
}
