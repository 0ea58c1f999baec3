//! What a trigger selects (RFC 8007, section 5.2.1).

ghost use Rattle.std.specs.Prelude.{◌≡◌, ◌↔◌, IfOk, IsTrue, min};
ghost use Rattle.std.specs.List.{list_any};
ghost use Rattle.std.specs.Option.{option_map};
ghost use Rattle.trigger_command.specs.Selection.{hits, hits_metadata, is_ccid, pattern_hits, url_hits};

use cdni_base::Key;
use listing::{Listing, Text, TextList};
use pattern_match::Pattern;
use std::alloc::AllocError;
use targets::Target;

/// A URL as it was sent, and what it names.
#[derive(Clone, Drop)]
pub struct UrlItem {
    pub text: Text,
    pub target: Target,
}

/// A list of URLs.
pub type UrlItemList = Listing<UrlItem>;

/// A PatternMatch (RFC 8007, section 5.2.4): a pattern as it was sent and compiled, whether the case of letters counts,
/// and whether the query is a part of what it is compared with.
#[derive(Clone, Drop)]
pub struct PatternItem {
    pub text: Text,
    pub pattern: Pattern,
    pub case: bool,
    pub query: bool,
}

/// A list of patterns.
pub type PatternItemList = Listing<PatternItem>;

/// The metadata and the content that a trigger selects (RFC 8007, section 5.2.1).
#[derive(Drop)]
pub struct Selection {
    pub metadata_urls: UrlItemList,
    pub content_urls: UrlItemList,
    pub ccids: TextList,
    pub metadata_patterns: PatternItemList,
    pub content_patterns: PatternItemList,
}

impl Clone for Selection {
    ghost is_clone = { λ selection copy. copy ≡ selection };

    fn clone(&self) -> Result<Selection, AllocError> {
        Ok(Selection {
            metadata_urls: url_copies(&self.metadata_urls)?,
            content_urls: url_copies(&self.content_urls)?,
            ccids: text_copies(&self.ccids)?,
            metadata_patterns: pattern_copies(&self.metadata_patterns)?,
            content_patterns: pattern_copies(&self.content_patterns)?,
        })
    }
}

impl UrlItem {
    ghost use Rattle.trigger_command.specs.Selection.{url_hits};

    // whether its target has this key
    fn hits(&self, key: &Key) -> bool
        ensures { result ≡ url_hits key.now self.now }
    {
        key.is_of(&self.target)
    }
}

impl PatternItem {
    ghost use Rattle.trigger_command.specs.Selection.{pattern_hits};

    // whether the pattern matches the key's URL under either scheme
    fn hits(&self, key: &Key) -> bool
        ensures { result ≡ pattern_hits key.now self.now }
    {
        self.pattern.matches(key.text(false, self.query))
            || self.pattern.matches(key.text(true, self.query))
    }
}

impl Selection {
    ghost use Rattle.trigger_command.specs.Selection.{item_count, hits, Hits, hits_metadata, HitsMetadata};

    /// How many items the five lists have together, up to 2^64 - 1.
    pub fn item_count(&self) -> usize
        ensures { result ≡ min (item_count self.now) usize.MAX }
    {
        self.metadata_urls
            .len()
            .saturating_add(self.content_urls.len())
            .saturating_add(self.ccids.len())
            .saturating_add(self.metadata_patterns.len())
            .saturating_add(self.content_patterns.len())
    }

    /// Whether the selection hits the content of this key, and of this collection where it is of one: by a content URL,
    /// a content pattern or a ccid (RFC 8007, section 5.2.1).
    pub fn hits(&self, key: &Key, ccid: Option<&Text>) -> bool
        ensures value { result ≡ hits self.now key.now (option_map (λ text. text.now) ccid.entry) }
        ensures relation { IsTrue result ↔ Hits self.now key.now (option_map (λ text. text.now) ccid.entry) }
    {
        has_hit(self, key, ccid)
    }

    /// Whether the selection hits the metadata of this key: by a metadata URL or a metadata pattern (RFC 8007, section
    /// 5.2.1).
    pub fn hits_metadata(&self, resource: &Key) -> bool
        ensures value { result ≡ hits_metadata self.now resource.now }
        ensures relation { IsTrue result ↔ HitsMetadata self.now resource.now }
    {
        has_metadata_hit(self, resource)
    }
}

fn url_copies(list: &UrlItemList) -> Result<UrlItemList, AllocError>
    ensures { IfOk result (λ copy. copy ≡ list.now) }
{
    Ok(list.clone()?)
}

fn text_copies(list: &TextList) -> Result<TextList, AllocError>
    ensures { IfOk result (λ copy. copy ≡ list.now) }
{
    Ok(list.clone()?)
}

fn pattern_copies(list: &PatternItemList) -> Result<PatternItemList, AllocError>
    ensures { IfOk result (λ copy. copy ≡ list.now) }
{
    Ok(list.clone()?)
}

#[tactic(auto, unfolding(crate::specs::Selection::hits))]
fn has_hit(selection: &Selection, key: &Key, ccid: Option<&Text>) -> bool
    ensures { result ≡ hits selection.now key.now (option_map (λ text. text.now) ccid.entry) }
{
    has_url(selection.content_urls.as_slice(), key)
        || has_pattern(selection.content_patterns.as_slice(), key)
        || has_ccid(selection.ccids.as_slice(), ccid)
}

#[tactic(auto, unfolding(crate::specs::Selection::hits_metadata))]
fn has_metadata_hit(selection: &Selection, resource: &Key) -> bool
    ensures { result ≡ hits_metadata selection.now resource.now }
{
    has_url(selection.metadata_urls.as_slice(), resource)
        || has_pattern(selection.metadata_patterns.as_slice(), resource)
}

// whether one of the URLs has this key
fn has_url(items: &[UrlItem], key: &Key) -> bool
    ensures { result ≡ list_any (url_hits key.now) items.now }
{
    items.iter().any(|item| item.hits(key))
}

// whether one of the patterns matches the key's URL
fn has_pattern(items: &[PatternItem], key: &Key) -> bool
    ensures { result ≡ list_any (pattern_hits key.now) items.now }
{
    items.iter().any(|item| item.hits(key))
}

// whether the content is of one of these collections
fn has_ccid(ccids: &[Text], ccid: Option<&Text>) -> bool
    ensures { result ≡ list_any (is_ccid (option_map (λ text. text.now) ccid.entry)) ccids.now }
{
    match ccid {
        Some(ccid) => ccids.iter().any(|own| ccid.is(own.bytes())),
        None => false,
    }
}
