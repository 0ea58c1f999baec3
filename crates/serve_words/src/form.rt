//! The form of the words of `serve`. Testing it takes no memory.

ghost use Rattle.std.specs.Prelude.{◌≡◌, ◌<◌, ◌≤◌, ◌==◌, ◌&&◌, if◌then◌else◌, [], IfNone, IfSome, List, Some, None, length, map, option_map, true, false, bytes_eq, is_some, string_bytes};
ghost use Rattle.std.specs.Option.{option_map_or};
ghost use Rattle.serve_words.specs.Form.{Pair, are_well, command_pairs, has_name, hyphened, is_name, is_value, is_well, pairs_behind, pairs_of, texts_of, well_pairs, with_pair};

use listing::cut_at;

/// The names of the options, without the two hyphens before them.
pub(crate) const NAMES: [&[u8]; 16] = [
    b"listen",
    b"metadata",
    b"control",
    b"protocol",
    b"workers",
    b"connections",
    b"places",
    b"footprints",
    b"cdn-id",
    b"claimed-origin",
    b"log-fields",
    b"cache",
    b"rows",
    b"triggers",
    b"files",
    b"period",
];

/// Whether the words are `serve` and options of their form.
pub(crate) fn is_in_form(words: &[String]) -> bool
    ensures { result ≡ is_some (command_pairs (texts_of words.now)) }
{
    match words {
        [] => false,
        [first, options @ ..] => first.as_str() == "serve" && are_options(options),
    }
}

// whether the words are options, each known, with a value, and there once
fn are_options(words: &[String]) -> bool
    ensures { result ≡ is_some (well_pairs (pairs_of (texts_of words.now))) }
{
    match first_option(words) {
        Some(first) => is_well(&first) && are_options(first.rest),
        None => words.is_empty(),
    }
}

// whether the option is known, has a value, and is not there again
fn is_well(first: &First<'_>) -> bool
    ensures { (pairs : List Pair) → pairs_of (texts_of first.now.rest.now) ≡ Some pairs
        → result ≡ is_well (first.now.name.now, first.now.value.now) pairs }
{
    is_name(first.name) && is_value(first.value) && !is_named(first.rest, first.name)
}

// the option at the front of words, and the words behind it
#[derive(Clone, Copy)]
struct First<'w> {
    name: &'w [u8],
    value: &'w [u8],
    rest: &'w [String],
}

// the option at the front
fn first_option(words: &[String]) -> Option<First<'_>>
    ensures some { IfSome result (λ first. pairs_of (texts_of words.now)
        ≡ with_pair first.name.now first.value.now (pairs_of (texts_of first.rest.now))) }
    ensures fewer { IfSome result (λ first. length first.rest.now < length words.now) }
    ensures none { IfNone result (pairs_of (texts_of words.now) ≡ (if length words.now == 0 then Some [] else None)) }
{
    match words {
        [] => None,
        [word, rest @ ..] => option_at(word.as_str().as_bytes(), rest),
    }
}

// the option of this word, or of it and the next
fn option_at<'w>(word: &'w [u8], rest: &'w [String]) -> Option<First<'w>>
    ensures some { IfSome result (λ first. pairs_behind word.entry.now (texts_of rest.entry.now)
        ≡ with_pair first.name.now first.value.now (pairs_of (texts_of first.rest.now))) }
    ensures fewer { IfSome result (λ first. length first.rest.now ≤ length rest.entry.now) }
    ensures none { IfNone result (pairs_behind word.entry.now (texts_of rest.entry.now) ≡ None) }
{
    let option = after_hyphens(word)?;
    match cut_at(b'=', option) {
        Some((name, value)) => Some(First { name, value, rest }),
        None => match rest {
            [] => None,
            [value, rest @ ..] => Some(First {
                name: option,
                value: value.as_str().as_bytes(),
                rest,
            }),
        },
    }
}

// what follows two hyphens at the front
fn after_hyphens(word: &[u8]) -> Option<&[u8]>
    ensures { option_map (λ rest. rest.now) result ≡ hyphened word.now }
{
    match word {
        [first, second, rest @ ..] => {
            if *first == b'-' && *second == b'-' {
                Some(rest)
            } else {
                None
            }
        }
        _ => None,
    }
}

// whether one of the options that the words are has this name
fn is_named(words: &[String], name: &[u8]) -> bool
    ensures { (pairs : List Pair) → pairs_of (texts_of words.now) ≡ Some pairs → result ≡ has_name name.now pairs }
{
    let mut rest = words;
    'options: while let Some(first) = first_option(rest) {
        if first.name == name {
            return true;
        }
        rest = first.rest;
    }
    false
}

fn is_name(name: &[u8]) -> bool
    ensures { result ≡ is_name name.now }
{
    NAMES.contains(&name)
}

fn is_value(text: &[u8]) -> bool
    ensures { result ≡ is_value text.now }
{
    match text {
        [] => false,
        [first, ..] => *first != b'-',
    }
}
