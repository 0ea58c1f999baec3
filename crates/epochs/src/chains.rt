//! Starts, and chains of their content URLs, by which those of one host, port and path are found.

ghost use Rattle.std.specs.Prelude.{◌≡◌, ◌+◌, ◌-◌, ◌<◌, ◌≤◌, ◌^◌, ◌∷◌, ◌++◌};
ghost use Rattle.std.specs.Prelude.{◌||◌, [], length, slice_get, ℕ, IfOk, OnOk, Some};
ghost use Rattle.std.specs.Option.{option_map};
ghost use Rattle.std.specs.List.{list_any};
ghost use Rattle.std.specs.Vec.{vec_capacity};
ghost use Rattle.std.specs.VecDeque.{deque_capacity, deque_len};
ghost use Rattle.epochs.specs.declared.epochs_list.Start.{Start};
ghost use Rattle.epochs.specs.Chains.{PlaceList, IsWhole, HasRoom, bucket_of};
ghost use Rattle.epochs.specs.Chains.{chained, mixed, url_bucket, url_stale, other_stale};
ghost use Rattle.epochs.specs.EpochsList.{behind_front, is_front_up_to, is_stale, next_start};
ghost use Rattle.trigger_command.specs.Selection.{is_ccid, pattern_hits, url_hits};
ghost use Rattle.trigger_command.specs.declared.selection.UrlItem.{UrlItem};

use crate::epochs_list::Start;
use cdni_base::Key;
use listing::Text;
use std::alloc::{AllocError, Global};
use std::collections::VecDeque;
use trigger_command::{PatternItem, Selection, UrlItem};

// how many buckets of URLs there are
const BUCKETS: usize = 4096;

/// The place of a content URL: the epoch of its start, and its number among the start's content URLs.
#[derive(Clone, Copy, Debug, PartialEq, Eq)]
pub(crate) struct Place {
    epoch: u64,
    item: usize,
}

/// For each content URL of a start the place of the one before it in its bucket, where there is one.
pub(crate) type PlaceList = Vec<Option<Place>>;

/// The starts that are known, the oldest first, with the places before their content URLs, and for each bucket of
/// URLs the place of the last one.
#[derive(Drop)]
pub(crate) struct Chains {
    pub(crate) starts: VecDeque<Start>,
    links: VecDeque<PlaceList>,
    last: PlaceList,
}

impl Chains {
    /// No starts.
    pub(crate) fn new(alloc: Global) -> Result<Chains, AllocError>
        ensures whole { IfOk result (λ chains. IsWhole chains 0 0) }
        ensures none { IfOk result (λ chains. chains.starts.items ≡ []) }
    {
        Ok(Chains {
            starts: VecDeque::with_capacity(alloc, 0)?,
            links: VecDeque::with_capacity(alloc, 0)?,
            last: vec![in alloc; None; BUCKETS]?,
        })
    }

    /// Makes places for so many starts.
    pub(crate) fn reserve(&mut self, n: usize) -> Result<(), AllocError>
        ensures room { OnOk result (HasRoom self.new n) }
        ensures starts { self.new.starts.items ≡ self.old.starts.items }
        ensures links { self.new.links.items ≡ self.old.links.items }
        ensures last { self.new.last ≡ self.old.last }
        ensures kept { (m : ℕ) → HasRoom self.old m → HasRoom self.new m }
    {
        self.starts.reserve(n)?;
        self.links.reserve(n)
    }

    /// Adds a start at a place that is there. Its URLs are put into the chains where the list has room for them; it
    /// tells the last epoch whose start is in no chain.
    pub(crate) fn add(
        &mut self,
        newest: u64,
        selection: Selection,
        list: PlaceList,
        unchained: u64,
    ) -> u64
        requires room { HasRoom self.old 1 }
        requires few { newest < 2 ^ 63 }
        requires whole { IsWhole self.old newest unchained }
        requires before { unchained ≤ newest }
        ensures starts { self.new.starts.items ≡ self.old.starts.items ++ next_start newest selection ∷ [] }
        ensures whole { IsWhole self.new (newest + 1) result }
        ensures within { result ≤ newest + 1 }
        ensures room { (n : ℕ) → HasRoom self.old (n + 1) → HasRoom self.new n }
    {
        let mut list = list;
        list.clear();
        if selection.content_urls.len() > list.capacity() {
            self.add_unchained(newest, selection, list);
            return newest + 1;
        }
        self.add_chained(newest, selection, list);
        unchained
    }

    // adds a start whose URLs are put into the chains
    fn add_chained(&mut self, newest: u64, selection: Selection, list: PlaceList)
        requires room { HasRoom self.old 1 }
        requires few { newest < 2 ^ 63 }
        requires buckets { length self.old.last.items ≡ BUCKETS }
        requires fits { length selection.content_urls < 2 ^ 64 }
        requires list { length selection.content_urls ≤ vec_capacity list }
        requires none { list.items ≡ [] }
        ensures starts { self.new.starts.items ≡ self.old.starts.items ++ next_start newest selection ∷ [] }
        ensures whole { (unchained : ℕ) → unchained ≤ newest → IsWhole self.old newest unchained
            → IsWhole self.new (newest + 1) unchained }
        ensures room { (n : ℕ) → HasRoom self.old (n + 1) → HasRoom self.new n }
    {
        let mut list = list;
        let epoch = newest + 1;
        chain(
            &mut self.last,
            &mut list,
            epoch,
            selection.content_urls.as_slice(),
        );
        self.starts.push_back_reserved(Start { epoch, selection });
        self.links.push_back_reserved(list);
    }

    // adds a start whose URLs stand in no chain
    fn add_unchained(&mut self, newest: u64, selection: Selection, list: PlaceList)
        requires room { HasRoom self.old 1 }
        requires few { newest < 2 ^ 63 }
        requires fits { length selection.content_urls < 2 ^ 64 }
        ensures starts { self.new.starts.items ≡ self.old.starts.items ++ next_start newest selection ∷ [] }
        ensures whole { (unchained : ℕ) → IsWhole self.old newest unchained
            → IsWhole self.new (newest + 1) (newest + 1) }
        ensures room { (n : ℕ) → HasRoom self.old (n + 1) → HasRoom self.new n }
    {
        let epoch = newest + 1;
        self.starts.push_back_reserved(Start { epoch, selection });
        self.links.push_back_reserved(list);
    }

    /// Whether a start after this epoch hits. The chains hold all URLs of starts after `unchained`.
    pub(crate) fn is_hit_since(
        &self,
        newest: u64,
        unchained: u64,
        begun: u64,
        key: &Key,
        ccid: Option<&Text>,
    ) -> bool
        requires { IsWhole self.now newest unchained }
        ensures { result ≡ is_stale self.now.starts.items begun key.now (option_map (λ text. text.now) ccid.entry) }
    {
        if begun < unchained {
            return is_one_hit_since(&self.starts, begun, key, ccid);
        }
        self.has_url_since(newest, begun, key) || is_other_hit_since(&self.starts, begun, key, ccid)
    }

    // whether a start after this epoch has a content URL of this key
    fn has_url_since(&self, newest: u64, begun: u64, key: &Key) -> bool
        requires { IsWhole self.now newest begun }
        ensures { result ≡ url_stale self.now.starts.items begun key.now }
    {
        let forgotten = newest - self.starts.len() as u64;
        let oldest = begun.max(forgotten);
        let mut next = self.last_of(key);
        'places: while let Some(place) = next {
            if place.epoch <= oldest {
                return false;
            }
            let k = (place.epoch - forgotten - 1) as usize;
            if self.is_of(k, place.item, key) {
                return true;
            }
            next = self.before(k, place.item);
        }
        false
    }

    // the last place of the key's bucket
    fn last_of(&self, key: &Key) -> Option<Place>
        requires { length self.now.last.items ≡ BUCKETS }
        ensures { slice_get self.now.last.items (bucket_of key.now.host key.now.port key.now.path) ≡ Some result }
    {
        self.last[bucket_of(key.host.bytes(), key.port, key.path.bytes())]
    }

    // whether the URL of this number of the start at `k` has the key
    fn is_of(&self, k: usize, item: usize, key: &Key) -> bool
        requires start { k < length self.now.starts.items }
        requires url { (start : Start) → slice_get self.now.starts.items k ≡ Some start
            → item < length start.selection.content_urls }
        ensures { (start : Start) (url : UrlItem) → slice_get self.now.starts.items k ≡ Some start
            → slice_get start.selection.content_urls item ≡ Some url → result ≡ url_hits key.now url }
    {
        key.is_of(&self.starts[k].selection.content_urls.at(item).target)
    }

    // the place before that of this URL
    fn before(&self, k: usize, item: usize) -> Option<Place>
        requires start { k < length self.now.links.items }
        requires url { (list : PlaceList) → slice_get self.now.links.items k ≡ Some list → item < length list.items }
        ensures { (list : PlaceList) → slice_get self.now.links.items k ≡ Some list
            → slice_get list.items item ≡ Some result }
    {
        self.links[k][item]
    }

    /// Forgets the starts up to this epoch.
    pub(crate) fn forget(&mut self, oldest: u64)
        ensures starts { self.new.starts.items ≡ behind_front oldest self.old.starts.items }
        ensures whole { (newest unchained : ℕ) → IsWhole self.old newest unchained
            → IsWhole self.new newest unchained }
        ensures room { (n : ℕ) → HasRoom self.old n → HasRoom self.new n }
    {
        'starts: while is_front_forgotten(&self.starts, oldest) {
            self.starts.pop_front();
            self.links.pop_front();
        }
    }
}

// whether the first start has at most this epoch
fn is_front_forgotten(starts: &VecDeque<Start>, oldest: u64) -> bool
    ensures { result ≡ is_front_up_to oldest starts.now.items }
{
    match starts.front() {
        Some(start) => start.epoch <= oldest,
        None => false,
    }
}

// whether a start after this epoch hits
fn is_one_hit_since(starts: &VecDeque<Start>, begun: u64, key: &Key, ccid: Option<&Text>) -> bool
    ensures { result ≡ is_stale starts.now.items begun key.now (option_map (λ text. text.now) ccid.entry) }
{
    starts.iter().any(|start| begun < start.epoch && start.selection.hits(key, ccid))
}

// whether a start after this epoch hits by a pattern or a ccid
fn is_other_hit_since(starts: &VecDeque<Start>, begun: u64, key: &Key, ccid: Option<&Text>) -> bool
    ensures { result ≡ other_stale starts.now.items begun key.now (option_map (λ text. text.now) ccid.entry) }
{
    starts.iter().any(|start| begun < start.epoch && is_other_hit(&start.selection, key, ccid))
}

fn is_other_hit(selection: &Selection, key: &Key, ccid: Option<&Text>) -> bool
    ensures { result ≡ (list_any (pattern_hits key.now) selection.now.content_patterns
        || list_any (is_ccid (option_map (λ text. text.now) ccid.entry)) selection.now.ccids) }
{
    has_pattern(selection.content_patterns.as_slice(), key)
        || has_ccid(selection.ccids.as_slice(), ccid)
}

// whether one of the patterns matches the key's URL
fn has_pattern(items: &[PatternItem], key: &Key) -> bool
    ensures { result ≡ list_any (pattern_hits key.now) items.now }
{
    items.iter().any(|item| {
        item.pattern.matches(key.text(false, item.query))
            || item.pattern.matches(key.text(true, item.query))
    })
}

// whether the content is of one of these collections
fn has_ccid(ccids: &[Text], ccid: Option<&Text>) -> bool
    ensures { result ≡ list_any (is_ccid (option_map (λ text. text.now) ccid.entry)) ccids.now }
{
    match ccid {
        Some(ccid) => ccids.iter().any(|own| ccid.is(own.bytes())),
        None => false,
    }
}

// the bucket of the URLs of this host, port and path
fn bucket_of(host: &[u8], port: u16, path: &[u8]) -> usize
    ensures value { result ≡ bucket_of host.now port path.now }
    ensures within { result < BUCKETS }
{
    let number = mixed(mixed(u64::from(port), host), path);
    (number % BUCKETS as u64) as usize
}

// a number that these bytes give, behind another
fn mixed(number: u64, bytes: &[u8]) -> u64
    ensures { result ≡ mixed number bytes.now }
{
    let mut so_far = number;
    'bytes: for byte in bytes {
        so_far = so_far.wrapping_mul(31).wrapping_add(u64::from(*byte));
    }
    so_far
}

fn url_bucket(url: &UrlItem) -> usize
    ensures value { result ≡ url_bucket url.now }
    ensures within { result < BUCKETS }
{
    bucket_of(
        url.target.host.bytes(),
        url.target.port,
        url.target.path.bytes(),
    )
}

// puts each URL of a start at the end of its bucket's chain, and lists the places of the URLs before them
fn chain(last: &mut [Option<Place>], list: &mut Vec<Option<Place>>, epoch: u64, urls: &[UrlItem])
    requires buckets { length last.old ≡ BUCKETS }
    requires room { length urls.now ≤ vec_capacity list.old }
    requires none { list.old.items ≡ [] }
    ensures chained { (last.new, list.new.items) ≡ chained epoch 0 urls.now last.old [] }
{
    'urls: for item in 0..urls.len() {
        let bucket = url_bucket(&urls[item]);
        list.push(last[bucket]).unwrap();
        last[bucket] = Some(Place { epoch, item });
    }
}
