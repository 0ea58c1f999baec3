//! Cache keys: what of a target tells one kept object from another.

ghost use Rattle.std.specs.Prelude.{◌≡◌, ◌==◌, ◌↔◌, ◌≤◌, ◌+◌, ◌<◌, ◌∷◌, ◌++◌, OnOk, if◌then◌else◌, length, take, drop, filter, IfOk, IfSome, IsTrue, true, false, bytes_eq, Some, None};
ghost use Rattle.std.specs.List.{position_or_len, list_any};
ghost use Rattle.std.specs.Str.{str_to_ascii_lowercase};
ghost use Rattle.std.specs.Option.{option_map};
ghost use Rattle.targets.specs.Target.{query_text, url_of};
ghost use Rattle.std.specs.Cmp.{decided, partial_equiv_from_equiv};
ghost use Rattle.std.specs.Hash.{same_Alike};
ghost use Rattle.targets.specs.declared.byte.TheConstants.{AMPERSAND, EQUALS};
ghost use Rattle.cdni_base.specs.Key.{pieces_of, is_kept, joined, kept_query, key_of, key_text, same_ignored, same_key, fed_ignored, fed_key};
ghost use Rattle.cdni_base.specs.KeyEqualityLemmas.{ignored_decides, key_decides};

use listing::{Text, TextList, cut_at};
use std::alloc::{AllocError, Global};
use std::hash::{Hash, Hasher};
use std::marker::Model;
use targets::byte::{AMPERSAND, EQUALS};
use targets::{HostName, Target, add_url, url_room};

/// Which part of a query plays no part in a key (RFC 8006, section 4.2.6, `ignore-query-string`).
#[derive(Clone, Drop)]
pub enum Ignored {
    /// The query is kept as it is.
    None,
    /// The whole query is left out.
    All,
    /// The pieces with these names, in lower case, are left out.
    Names(TextList),
}

/// What a kept object is kept under: a target without what is ignored of its query. It is seen as its public parts. Host,
/// path and query are shared with the target, but for a query that is kept in part; both URLs stand in one piece.
#[derive(Clone, Drop)]
pub struct Key {
    pub host: HostName,
    pub port: u16,
    pub path: Text,
    pub query: Option<Text>,
    pub ignored: Ignored,
    urls: Vec<u8>,
    secure_from: usize,
}

impl Model for Key {
    ghost use Rattle.std.specs.Prelude.{◌≡◌, ◌≤◌, true, false, length, take, drop};
    ghost use Rattle.cdni_base.specs.Key.{KeyParts};
    ghost use Rattle.targets.specs.Target.{url_of};

    ghost Value = { KeyParts };

    ghost view = { λ k. record { host = k.host; port = k.port; path = k.path; query = k.query; ignored = k.ignored } };

    ghost invariant = { λ k. (k.secure_from ≤ length k.urls.items)
        × (take k.secure_from k.urls.items ≡ url_of false k.host k.port k.path k.query)
        × (drop k.secure_from k.urls.items ≡ url_of true k.host k.port k.path k.query) };
}

/// The key of a target: its host, port and path, and of its query what `ignored` leaves. Names leave out each piece
/// between the query's `&` whose part before the first `=` is, in ASCII lower case, one of them; where all pieces are
/// left out the query is absent.
///
/// # Errors
/// Want of memory.
pub fn url_key(alloc: Global, target: &Target, ignored: &Ignored) -> Result<Key, AllocError>
    ensures { IfOk result (λ key. key ≡ key_of target.now ignored.now) }
{
    let query = kept_query(alloc, ignored, &target.query)?;
    let (urls, secure_from) = both_urls(alloc, target, &query)?;
    Ok(Key {
        host: target.host.clone()?,
        port: target.port,
        path: target.path.clone()?,
        query,
        ignored: ignored.clone()?,
        urls,
        secure_from,
    })
}

// the URL of the target with this query with `http`, and behind it the same with `https`, which begins at the place that
// is answered
fn both_urls(
    alloc: Global,
    target: &Target,
    query: &Option<Text>,
) -> Result<(Vec<u8>, usize), AllocError>
    ensures within { IfOk result (λ urls. urls.1 ≤ length urls.0.items) }
    ensures http { IfOk result (λ urls. take urls.1 urls.0.items
        ≡ url_of false target.now.host target.now.port target.now.path query.now) }
    ensures https { IfOk result (λ urls. drop urls.1 urls.0.items
        ≡ url_of true target.now.host target.now.port target.now.path query.now) }
{
    let room = url_room(&target.host, &target.path, query).saturating_mul(2);
    let mut urls = Vec::with_capacity(alloc, room)?;
    add_url(
        &mut urls,
        false,
        &target.host,
        target.port,
        &target.path,
        query,
    )?;
    let secure_from = urls.len();
    urls.extend_from_slice(b"https")?;
    urls.extend_from_within(b"http".len()..secure_from)?;
    Ok((urls, secure_from))
}

impl Key {
    /// The URL of the key, with `https` where `secure` is true, and without `?` and the query where `query` is false.
    pub fn text(&self, secure: bool, query: bool) -> &[u8]
        ensures { result.now ≡ key_text secure query self.now }
    {
        let text = self.whole_text(secure);
        if query {
            text
        } else {
            &text[..text.len() - query_length(&self.query)]
        }
    }

    // the URL with its query
    fn whole_text(&self, secure: bool) -> &[u8]
        ensures { result.now ≡ key_text secure true self.now }
    {
        if secure {
            &self.urls[self.secure_from..]
        } else {
            &self.urls[..self.secure_from]
        }
    }

    /// Whether this is the key of the target, where the same is ignored.
    pub fn is_of(&self, target: &Target) -> bool
        ensures { IsTrue result ↔ (key_of target.now self.now.ignored ≡ self.now) }
    {
        self.port == target.port
            && self.host.0.is(target.host.bytes())
            && self.path.is(target.path.bytes())
            && is_kept_query(&self.ignored, &target.query, &self.query)
    }
}

/// Whether the keys are the same in all their parts.
pub fn is_same_key(key: &Key, other: &Key) -> bool
    ensures { IsTrue result ↔ (key.now ≡ other.now) }
{
    *key == *other
}

impl PartialEq for Ignored {
    ghost eq = { same_ignored };

    ghost laws = { partial_equiv_from_equiv (decided same_ignored ignored_decides) };

    /// Whether the same is ignored, the names in the same order.
    fn eq(&self, other: &Ignored) -> bool {
        match (self, other) {
            (Ignored::None, Ignored::None) | (Ignored::All, Ignored::All) => true,
            (Ignored::Names(names), Ignored::Names(others)) => names == others,
            _ => false,
        }
    }
}

impl Eq for Ignored {
    ghost laws = { decided same_ignored ignored_decides };
}

impl Hash for Ignored {
    ghost hash_input = { fed_ignored };

    ghost respects_eq = { (same_Alike fed_ignored ignored_decides).fed };

    fn hash<H: Hasher>(&self, state: &mut H) {
        match self {
            Ignored::None => 0u8.hash(state),
            Ignored::All => 1u8.hash(state),
            Ignored::Names(names) => {
                2u8.hash(state);
                names.hash(state);
            }
        }
    }
}

impl PartialEq for Key {
    ghost eq = { same_key };

    ghost laws = { partial_equiv_from_equiv (decided same_key key_decides) };

    /// Whether the keys are the same in all their parts.
    fn eq(&self, other: &Key) -> bool {
        self.port == other.port
            && self.path == other.path
            && self.host == other.host
            && self.query == other.query
            && self.ignored == other.ignored
    }
}

impl Eq for Key {
    ghost laws = { decided same_key key_decides };
}

impl Hash for Key {
    ghost hash_input = { fed_key };

    ghost respects_eq = { (same_Alike fed_key key_decides).fed };

    /// Feeds the key's URL in one piece, which costs a hasher far less than byte by byte.
    fn hash<H: Hasher>(&self, state: &mut H) {
        state.write(self.whole_text(false));
    }
}

// how many bytes of a URL are `?` and the query
fn query_length(query: &Option<Text>) -> usize
    ensures { result ≡ length (query_text query.now) }
{
    match query {
        Some(query) => query.bytes().len() + 1,
        None => 0,
    }
}

// what is kept of a query
fn kept_query(
    alloc: Global,
    ignored: &Ignored,
    query: &Option<Text>,
) -> Result<Option<Text>, AllocError>
    ensures { IfOk result (λ kept. kept ≡ kept_query ignored.now query.now) }
{
    match ignored {
        Ignored::None => query.clone(),
        Ignored::All => Ok(None),
        Ignored::Names(names) => match query {
            Some(query) => kept_pieces(alloc, names.as_slice(), query.bytes()),
            None => Ok(None),
        },
    }
}

// whether this is what is kept of the query
fn is_kept_query(ignored: &Ignored, query: &Option<Text>, kept: &Option<Text>) -> bool
    ensures { IsTrue result ↔ (kept_query ignored.now query.now ≡ kept.now) }
{
    match ignored {
        Ignored::None => is_same(query, kept),
        Ignored::All => kept.is_none(),
        Ignored::Names(names) => are_kept_pieces(names.as_slice(), bytes_of(query), bytes_of(kept)),
    }
}

fn is_same(text: &Option<Text>, other: &Option<Text>) -> bool
    ensures { IsTrue result ↔ (text.now ≡ other.now) }
{
    match (text, other) {
        (Some(text), Some(other)) => text.is(other.bytes()),
        (None, None) => true,
        _ => false,
    }
}

fn bytes_of(text: &Option<Text>) -> Option<&[u8]>
    ensures { option_map (λ bytes. bytes.now) result ≡ text.now }
{
    match text {
        Some(text) => Some(text.bytes()),
        None => None,
    }
}

// the pieces of the query that are kept, joined by `&`; none where all are left out
fn kept_pieces(alloc: Global, names: &[Text], query: &[u8]) -> Result<Option<Text>, AllocError>
    ensures { IfOk result (λ kept. kept ≡ joined (filter (is_kept names.now) (pieces_of (Some query.now)))) }
{
    let mut kept = Vec::with_capacity(alloc, query.len())?;
    let mut any = false;
    let mut rest = Some(query);
    'pieces: while let Some(text) = rest {
        let (piece, others) = next_piece(text);
        if is_kept(names, piece) {
            add_piece(&mut kept, any, piece)?;
            any = true;
        }
        rest = others;
    }
    Ok(text_if(any, kept))
}

fn text_if(any: bool, bytes: Vec<u8>) -> Option<Text>
    ensures { result ≡ (if any then Some bytes.items else None) }
{
    if any {
        Some(Text::from_vec(bytes))
    } else {
        None
    }
}

// adds a piece, behind `&` where there is any before it
fn add_piece(kept: &mut Vec<u8>, any: bool, piece: &[u8]) -> Result<(), AllocError>
    ensures { OnOk result (kept.new.items ≡ (if any then kept.old.items ++ AMPERSAND ∷ piece.now
        else kept.old.items ++ piece.now)) }
{
    if any {
        kept.extend_from_slice(b"&")?;
    }
    kept.extend_from_slice(piece)
}

// whether these are the pieces of the query that are kept, in order
fn are_kept_pieces(names: &[Text], query: Option<&[u8]>, kept: Option<&[u8]>) -> bool
    ensures { IsTrue result
        ↔ (filter (is_kept names.now) (pieces_of (option_map (λ bytes. bytes.now) query.entry)) ≡ pieces_of
        (option_map (λ bytes. bytes.now) kept.entry)) }
{
    let mut rest = query;
    let mut left = kept;
    'pieces: while let Some(text) = rest {
        let (piece, others) = next_piece(text);
        rest = others;
        if is_kept(names, piece) {
            let Some(expected) = left else {
                return false;
            };
            let (first, more) = next_piece(expected);
            if first != piece {
                return false;
            }
            left = more;
        }
    }
    left.is_none()
}

// the first piece of a query, and those behind its `&`
fn next_piece(text: &[u8]) -> (&[u8], Option<&[u8]>)
    ensures pieces { pieces_of (Some text.now) ≡ result.0.now ∷ pieces_of (option_map (λ bytes. bytes.now) result.1) }
    ensures shorter { IfSome result.1 (λ others. length others.now < length text.now) }
{
    match cut_at(AMPERSAND, text) {
        Some((piece, others)) => (piece, Some(others)),
        None => (text, None),
    }
}

// whether the piece is kept, since its name is none of these
fn is_kept(names: &[Text], piece: &[u8]) -> bool
    ensures { result ≡ is_kept names.now piece.now }
{
    !is_one_of(names, &piece[..length_before_equals(piece)])
}

// how many bytes stand before the first `=`
fn length_before_equals(piece: &[u8]) -> usize
    ensures length { result ≡ position_or_len (λ byte. byte == EQUALS) piece.now }
    ensures within { result ≤ length piece.now }
{
    piece.iter().take_while(|byte| **byte != EQUALS).count()
}

// whether one of these names is `own` in lower case
fn is_one_of(names: &[Text], own: &[u8]) -> bool
    ensures { result ≡ list_any (λ name. bytes_eq name (str_to_ascii_lowercase own.now)) names.now }
{
    names.iter().any(|name| is_lowered(name.bytes(), own))
}

// whether `lowered` is these bytes in lower case
fn is_lowered(lowered: &[u8], bytes: &[u8]) -> bool
    ensures { result ≡ bytes_eq lowered.now (str_to_ascii_lowercase bytes.now) }
{
    if lowered.len() != bytes.len() {
        return false;
    }
    'bytes: for i in 0..lowered.len() {
        if lowered[i] != bytes[i].to_ascii_lowercase() {
            return false;
        }
    }
    true
}
