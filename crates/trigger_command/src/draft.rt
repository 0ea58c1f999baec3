//! What the JSON of a trigger command writes, before its URLs and patterns are read (RFC 8007, section 5.1.1).

ghost use Rattle.std.specs.Prelude.{◌≡◌, [], map, option_map, None, Some};
ghost use Rattle.serde_json.specs.View.{view};
ghost use Rattle.json_read.specs.Field.{Gives, IsFaultAt, text_of};
ghost use Rattle.json_read.specs.Path.{IsName, child_of};
ghost use Rattle.trigger_command.specs.Draft.{each_of, list_of, list_or, provider_at, needed_text, flag_or_false};
ghost use Rattle.trigger_command.specs.Draft.{pattern_at, kind_named, kind_at, draft_at, form_found, form_at};
ghost use Rattle.trigger_command.specs.Draft.{path_at, written_of};

use crate::command::ProviderIdList;
use crate::spec::TriggerKind;
use cdni_base::{ProviderFault, ProviderId};
use json_read::{
    FieldCause, FieldFault, JsonFault, JsonPath, Value, flag_at, list_at, maybe, need, text_at,
};
use listing::{Listing, Text, TextList};
use std::alloc::Global;

// a command as it is written
#[derive(Drop)]
pub(crate) struct Written {
    pub(crate) path: ProviderIdList,
    pub(crate) form: Form,
}

// what is commanded, as it is written
#[derive(Drop)]
pub(crate) enum Form {
    Trigger(Draft),
    Cancel(TextList),
}

// a trigger specification, as it is written
#[derive(Drop)]
pub(crate) struct Draft {
    pub(crate) kind: TriggerKind,
    pub(crate) metadata_urls: TextList,
    pub(crate) content_urls: TextList,
    pub(crate) ccids: TextList,
    pub(crate) metadata_patterns: PatternDraftList,
    pub(crate) content_patterns: PatternDraftList,
}

// a pattern and its flags, as it is written
#[derive(Drop)]
pub(crate) struct PatternDraft {
    pub(crate) text: Text,
    pub(crate) case: bool,
    pub(crate) query: bool,
}

pub(crate) type PatternDraftList = Listing<PatternDraft>;

// the command that the value writes
#[tactic(auto, unfolding(crate::specs::Draft::written_of))]
pub(crate) fn read_written(alloc: Global, value: &Value) -> Result<Written, JsonFault>
    ensures { Gives (λ written. written) result (written_of (view value.now)) }
{
    let path = path_of(alloc, value)?;
    let form = form_of(alloc, value)?;
    Ok(Written { path, form })
}

// the CDNs that the command came through
#[tactic(auto, unfolding(crate::specs::Draft::path_at))]
fn path_of(alloc: Global, value: &Value) -> Result<ProviderIdList, JsonFault>
    ensures { Gives (λ ids. ids) result (path_at (view value.now)) }
{
    let root = JsonPath::root(alloc);
    let list = need(alloc, value, &root, "cdn-path")?;
    providers_at(alloc, list, &root.child(alloc, "cdn-path")?)
}

// exactly one of `trigger` and `cancel`
#[tactic(auto, unfolding(crate::specs::Draft::form_at))]
fn form_of(alloc: Global, value: &Value) -> Result<Form, JsonFault>
    ensures { Gives (λ form. form) result (form_at (view value.now)) }
{
    let root = JsonPath::root(alloc);
    let trigger = maybe(alloc, value, &root, "trigger")?;
    let cancel = maybe(alloc, value, &root, "cancel")?;
    form_found(alloc, trigger, cancel)
}

fn form_found(
    alloc: Global,
    trigger: Option<&Value>,
    cancel: Option<&Value>,
) -> Result<Form, JsonFault>
    ensures { Gives (λ form. form) result (form_found (option_map (λ v. view v.now) trigger.entry)
        (option_map (λ v. view v.now) cancel.entry)) }
{
    match (trigger, cancel) {
        (None, None) => Err(fault_at_root(alloc, "trigger", FieldCause::Missing)),
        (Some(_), Some(_)) => Err(fault_at_root(alloc, "cancel", FieldCause::WrongKind)),
        (Some(trigger), None) => trigger_form(alloc, trigger),
        (None, Some(cancel)) => cancel_form(alloc, cancel),
    }
}

fn trigger_form(alloc: Global, value: &Value) -> Result<Form, JsonFault>
    ensures { Gives (λ form. form) result (form_found (Some (view value.now)) None) }
{
    let path = JsonPath::root(alloc).child(alloc, "trigger")?;
    Ok(Form::Trigger(draft_of(alloc, value, &path)?))
}

fn cancel_form(alloc: Global, value: &Value) -> Result<Form, JsonFault>
    ensures { Gives (λ form. form) result (form_found None (Some (view value.now))) }
{
    let path = JsonPath::root(alloc).child(alloc, "cancel")?;
    Ok(Form::Cancel(texts_at(alloc, value, &path)?))
}

// the trigger specification at `path`
#[tactic(auto, unfolding(crate::specs::Draft::draft_at))]
fn draft_of(alloc: Global, value: &Value, path: &JsonPath) -> Result<Draft, JsonFault>
    ensures { Gives (λ draft. draft) result (draft_at path.now (view value.now)) }
{
    let kind = kind_of(alloc, value, path)?;
    let metadata_urls = texts_or(alloc, value, path, "metadata.urls")?;
    let content_urls = texts_or(alloc, value, path, "content.urls")?;
    let ccids = texts_or(alloc, value, path, "content.ccid")?;
    let metadata_patterns = patterns_or(alloc, value, path, "metadata.patterns")?;
    let content_patterns = patterns_or(alloc, value, path, "content.patterns")?;
    Ok(Draft {
        kind,
        metadata_urls,
        content_urls,
        ccids,
        metadata_patterns,
        content_patterns,
    })
}

#[tactic(auto, unfolding(crate::specs::Draft::kind_at))]
fn kind_of(alloc: Global, value: &Value, path: &JsonPath) -> Result<TriggerKind, JsonFault>
    ensures { Gives (λ kind. kind) result (kind_at path.now (view value.now)) }
{
    let word = text_of(alloc, value, path, "type")?;
    match kind_named(&word) {
        Some(kind) => Ok(kind),
        None => Err(fault_at(alloc, &path.child(alloc, "type")?, FieldCause::OutOfRange)),
    }
}

fn kind_named(word: &Text) -> Option<TriggerKind>
    ensures { result ≡ kind_named word.now }
{
    if word.is(b"preposition") {
        Some(TriggerKind::Preposition)
    } else if word.is(b"invalidate") {
        Some(TriggerKind::Invalidate)
    } else if word.is(b"purge") {
        Some(TriggerKind::Purge)
    } else {
        None
    }
}

// the texts of a list that may be absent
#[tactic(auto, unfolding(crate::specs::Draft::list_or))]
fn texts_or(
    alloc: Global,
    value: &Value,
    path: &JsonPath,
    name: &str,
) -> Result<TextList, JsonFault>
    requires { IsName name.now }
    ensures { Gives (λ texts. texts) result (list_or text_of path.now name.now (view value.now)) }
{
    match maybe(alloc, value, path, name)? {
        Some(list) => texts_at(alloc, list, &path.child(alloc, name)?),
        None => Ok(Listing::new(alloc)),
    }
}

// the patterns of a list that may be absent
#[tactic(auto, unfolding(crate::specs::Draft::list_or))]
fn patterns_or(
    alloc: Global,
    value: &Value,
    path: &JsonPath,
    name: &str,
) -> Result<PatternDraftList, JsonFault>
    requires { IsName name.now }
    ensures { Gives (λ patterns. patterns) result (list_or pattern_at path.now name.now (view value.now)) }
{
    match maybe(alloc, value, path, name)? {
        Some(list) => patterns_at(alloc, list, &path.child(alloc, name)?),
        None => Ok(Listing::new(alloc)),
    }
}

// the list of texts at `path`
#[tactic(auto, using(crate::proofs::Loops::values_of_items), unfolding(crate::specs::Draft::list_of))]
fn texts_at(alloc: Global, value: &Value, path: &JsonPath) -> Result<TextList, JsonFault>
    ensures { Gives (λ texts. texts) result (list_of text_of path.now (view value.now)) }
{
    let items = list_at(alloc, value, path)?;
    texts_of(alloc, items, path)
}

fn texts_of(alloc: Global, items: &[Value], path: &JsonPath) -> Result<TextList, JsonFault>
    ensures { Gives (λ texts. texts) result (each_of text_of path.now (map view items.now)) }
{
    let mut list = Listing::new(alloc);
    'items: for i in 0..items.len() {
        let place = path.item(alloc, i)?;
        let text = text_value(alloc, &items[i], &place)?;
        list.push(text)?;
    }
    Ok(list)
}

// the list of provider ids at `path`
#[tactic(auto, using(crate::proofs::Loops::values_of_items), unfolding(crate::specs::Draft::list_of))]
fn providers_at(alloc: Global, value: &Value, path: &JsonPath) -> Result<ProviderIdList, JsonFault>
    ensures { Gives (λ ids. ids) result (list_of provider_at path.now (view value.now)) }
{
    let items = list_at(alloc, value, path)?;
    providers_of(alloc, items, path)
}

fn providers_of(
    alloc: Global,
    items: &[Value],
    path: &JsonPath,
) -> Result<ProviderIdList, JsonFault>
    ensures { Gives (λ ids. ids) result (each_of provider_at path.now (map view items.now)) }
{
    let mut list = Listing::new(alloc);
    'items: for i in 0..items.len() {
        let place = path.item(alloc, i)?;
        let id = provider_of(alloc, &items[i], &place)?;
        list.push(id)?;
    }
    Ok(list)
}

// the list of patterns at `path`
#[tactic(auto, using(crate::proofs::Loops::values_of_items), unfolding(crate::specs::Draft::list_of))]
fn patterns_at(alloc: Global, value: &Value, path: &JsonPath) -> Result<PatternDraftList, JsonFault>
    ensures { Gives (λ patterns. patterns) result (list_of pattern_at path.now (view value.now)) }
{
    let items = list_at(alloc, value, path)?;
    patterns_of(alloc, items, path)
}

fn patterns_of(
    alloc: Global,
    items: &[Value],
    path: &JsonPath,
) -> Result<PatternDraftList, JsonFault>
    ensures { Gives (λ patterns. patterns) result (each_of pattern_at path.now (map view items.now)) }
{
    let mut list = Listing::new(alloc);
    'items: for i in 0..items.len() {
        let place = path.item(alloc, i)?;
        let pattern = pattern_of(alloc, &items[i], &place)?;
        list.push(pattern)?;
    }
    Ok(list)
}

// the provider id at `path`
#[tactic(auto, unfolding(crate::specs::Draft::provider_at))]
fn provider_of(alloc: Global, value: &Value, path: &JsonPath) -> Result<ProviderId, JsonFault>
    ensures { Gives (λ id. id) result (provider_at path.now (view value.now)) }
{
    let text = text_value(alloc, value, path)?;
    match ProviderId::read(alloc, text.bytes()) {
        Ok(id) => Ok(id),
        Err(ProviderFault::Memory) => Err(JsonFault::Memory),
        Err(_) => Err(fault_at(alloc, path, FieldCause::OutOfRange)),
    }
}

// the PatternMatch at `path`
#[tactic(auto, unfolding(crate::specs::Draft::pattern_at))]
fn pattern_of(alloc: Global, value: &Value, path: &JsonPath) -> Result<PatternDraft, JsonFault>
    ensures { Gives (λ pattern. pattern) result (pattern_at path.now (view value.now)) }
{
    let text = text_of(alloc, value, path, "pattern")?;
    let case = flag_of(alloc, value, path, "case-sensitive")?;
    let query = flag_of(alloc, value, path, "match-query-string")?;
    Ok(PatternDraft { text, case, query })
}

// the text that must stand at the property `name`
#[tactic(auto, unfolding(crate::specs::Draft::needed_text))]
fn text_of(alloc: Global, value: &Value, path: &JsonPath, name: &str) -> Result<Text, JsonFault>
    requires { IsName name.now }
    ensures { Gives (λ text. text) result (needed_text path.now name.now (view value.now)) }
{
    let member = need(alloc, value, path, name)?;
    text_value(alloc, member, &path.child(alloc, name)?)
}

// the flag at the property `name`, which is false where it is absent
#[tactic(auto, unfolding(crate::specs::Draft::flag_or_false))]
fn flag_of(alloc: Global, value: &Value, path: &JsonPath, name: &str) -> Result<bool, JsonFault>
    requires { IsName name.now }
    ensures { Gives (λ flag. flag) result (flag_or_false path.now name.now (view value.now)) }
{
    match maybe(alloc, value, path, name)? {
        Some(member) => flag_at(alloc, member, &path.child(alloc, name)?),
        None => Ok(false),
    }
}

// the text at `path`
fn text_value(alloc: Global, value: &Value, path: &JsonPath) -> Result<Text, JsonFault>
    ensures { Gives (λ text. text) result (text_of path.now (view value.now)) }
{
    let text = text_at(alloc, value, path)?;
    Ok(Text::from_vec(text.into_bytes()))
}

fn fault_at_root(alloc: Global, name: &str, cause: FieldCause) -> JsonFault
    requires { IsName name.now }
    ensures { IsFaultAt (child_of [] name.now) cause result }
{
    match JsonPath::root(alloc).child(alloc, name) {
        Ok(path) => JsonFault::Field(FieldFault { path, cause }),
        Err(_) => JsonFault::Memory,
    }
}

fn fault_at(alloc: Global, path: &JsonPath, cause: FieldCause) -> JsonFault
    ensures { IsFaultAt path.now cause result }
{
    match path.copy(alloc) {
        Ok(path) => JsonFault::Field(FieldFault { path, cause }),
        Err(_) => JsonFault::Memory,
    }
}
