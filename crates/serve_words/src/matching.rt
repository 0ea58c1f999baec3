//! The words of `serve` as `clap` matches them.

ghost use Rattle.std.specs.Prelude.{◌≡◌, ℕ, IfErr, IfOk, List, Some, codes, is_some, true};
ghost use Rattle.clap.specs.Words.{app_of, first_value, found_of, kind_of, with_rule};
ghost use Rattle.serve_words.specs.Form.{Pair, command_pairs, texts_of, value_of};
ghost use Rattle.serve_words.specs.Matching.{option_rule, serve_app};
ghost use Rattle.serve_words.specs.Values.{texts_at, values_by, values_of};

use clap::error::ErrorKind;
use clap::{Arg, ArgMatches, Command, Error};
use std::alloc::{AllocError, Global};

/// The values of the options, where they are there.
#[derive(Clone, Copy)]
pub(crate) struct Values<'w> {
    pub listen: Option<&'w str>,
    pub metadata: Option<&'w str>,
    pub control: Option<&'w str>,
    pub protocol: Option<&'w str>,
    pub workers: Option<&'w str>,
    pub connections: Option<&'w str>,
    pub places: Option<&'w str>,
    pub footprints: Option<&'w str>,
    pub cdn_id: Option<&'w str>,
    pub claimed_origin: Option<&'w str>,
    pub log_fields: Option<&'w str>,
    pub cache: Option<&'w str>,
    pub rows: Option<&'w str>,
    pub triggers: Option<&'w str>,
    pub files: Option<&'w str>,
    pub period: Option<&'w str>,
}

/// The values of the words' options.
///
/// # Errors
/// Want of memory.
pub(crate) fn match_words(alloc: Global, words: &[String]) -> Result<Values<'_>, AllocError>
    requires { is_some (command_pairs (texts_of words.now)) ≡ true }
    ensures { IfOk result (λ values. (pairs : List Pair) → command_pairs (texts_of words.now) ≡ Some pairs
        → texts_at values ≡ values_of pairs) }
{
    match parse(alloc, words) {
        Ok(matches) => Ok(values_in(&matches)),
        Err(error) if error.kind() == ErrorKind::OutOfMemory => Err(AllocError),
        Err(_) => unreachable!(),
    }
}

// the matches of the words
fn parse(alloc: Global, words: &[String]) -> Result<ArgMatches<'_>, Error>
    ensures values { IfOk result (λ matches. (pairs : List Pair) → command_pairs (texts_of words.now) ≡ Some pairs
        → (name : List ℕ) → first_value (found_of matches) name ≡ value_of name pairs) }
    ensures refused { IfErr result (λ error. is_some (command_pairs (texts_of words.now)) ≡ true
        → kind_of error ≡ ErrorKind.OutOfMemory) }
{
    let command = command(alloc)?;
    command.try_get_matches_from(words)
}

// the command and its options
fn command<'a>(alloc: Global) -> Result<Command<'a>, AllocError>
    ensures { IfOk result (λ command. app_of command ≡ serve_app) }
{
    let command = Command::new(alloc, "serve").disable_help_flag(true);
    let command = with_option(alloc, command, "listen")?;
    let command = with_option(alloc, command, "metadata")?;
    let command = with_option(alloc, command, "control")?;
    let command = with_option(alloc, command, "protocol")?;
    let command = with_option(alloc, command, "workers")?;
    let command = with_option(alloc, command, "connections")?;
    let command = with_option(alloc, command, "places")?;
    let command = with_option(alloc, command, "footprints")?;
    let command = with_option(alloc, command, "cdn-id")?;
    let command = with_option(alloc, command, "claimed-origin")?;
    let command = with_option(alloc, command, "log-fields")?;
    let command = with_option(alloc, command, "cache")?;
    let command = with_option(alloc, command, "rows")?;
    let command = with_option(alloc, command, "triggers")?;
    let command = with_option(alloc, command, "files")?;
    with_option(alloc, command, "period")
}

// the command with one option more, which has one value
fn with_option<'a>(
    alloc: Global,
    command: Command<'a>,
    name: &'a str,
) -> Result<Command<'a>, AllocError>
    ensures { IfOk result (λ more. app_of more ≡ with_rule (app_of command.entry) (option_rule name.entry.now)) }
{
    command.arg(Arg::new(alloc, name).long(name))
}

// the values in the matches
#[tactic(auto, unfolding(crate::specs::Values::values_by))]
fn values_in<'w>(matches: &ArgMatches<'w>) -> Values<'w>
    ensures { texts_at result ≡ values_by (first_value (found_of matches.now)) }
{
    Values {
        listen: matches.get_str("listen"),
        metadata: matches.get_str("metadata"),
        control: matches.get_str("control"),
        protocol: matches.get_str("protocol"),
        workers: matches.get_str("workers"),
        connections: matches.get_str("connections"),
        places: matches.get_str("places"),
        footprints: matches.get_str("footprints"),
        cdn_id: matches.get_str("cdn-id"),
        claimed_origin: matches.get_str("claimed-origin"),
        log_fields: matches.get_str("log-fields"),
        cache: matches.get_str("cache"),
        rows: matches.get_str("rows"),
        triggers: matches.get_str("triggers"),
        files: matches.get_str("files"),
        period: matches.get_str("period"),
    }
}
