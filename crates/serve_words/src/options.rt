//! What the words of `serve` say.

ghost use Rattle.std.specs.Prelude.{◌≡◌};
ghost use Rattle.serve_words.specs.Options.{Gives, ReadsOptions, options_of};

use crate::form::is_in_form;
use crate::matching::match_words;
use crate::reading::read_values;
use cdni_base::{HostName, Limits, ProviderId, Target, Text};
use cdni_log::{FieldList, FieldNameFault};
use footprints::AdvertSettings;
use std::alloc::{AllocError, Global};
use targets::TargetFault;

/// What the options of `serve` say.
#[derive(Drop)]
pub struct Options {
    /// Where to listen.
    pub address: Text,
    /// The URL of the metadata's root document.
    pub root: Target,
    /// The host of the upstream CDN's requests.
    pub control: HostName,
    /// The protocol of the listener, the footprints of this CDN, and the fields of its log files.
    pub advert: AdvertSettings,
    /// How many workers serve.
    pub workers: u32,
    /// How many connections each worker serves, where it is not without end.
    pub connections: Option<u64>,
    /// The path of the file of places.
    pub places: Option<Text>,
    /// The id of this CDN.
    pub own: ProviderId,
    /// The host that log files claim.
    pub origin: HostName,
    /// The fields of log files, in their order.
    pub fields: FieldList,
    /// What the node keeps at most.
    pub limits: Limits,
}

/// What words are read as.
#[derive(Drop)]
pub enum OptionsRead {
    /// A command.
    Options(Options),
    /// None.
    NotOne,
    /// Want of memory.
    Memory,
}

// why a value, or all words, are not read
#[derive(Clone, Copy, PartialEq, Eq)]
pub(crate) enum Unread {
    NotOne,
    Memory,
}

impl From<AllocError> for Unread {
    ghost use Rattle.std.specs.Prelude.{◌≡◌};
    ghost use Rattle.serve_words.specs.declared.options.Unread.TheVariants as unread;

    ghost from_gives = { λ _ given. given ≡ unread.Memory };

    fn from(_error: AllocError) -> Unread {
        Unread::Memory
    }
}

impl From<FieldNameFault> for Unread {
    ghost use Rattle.std.specs.Prelude.{◌≡◌};
    ghost use Rattle.serve_words.specs.Options.{unread_field};

    ghost from_gives = { λ fault given. given ≡ unread_field fault };

    fn from(fault: FieldNameFault) -> Unread {
        match fault {
            FieldNameFault::Unknown => Unread::NotOne,
            FieldNameFault::Memory => Unread::Memory,
        }
    }
}

impl From<TargetFault> for Unread {
    ghost use Rattle.std.specs.Prelude.{◌≡◌};
    ghost use Rattle.serve_words.specs.Options.{unread_target};

    ghost from_gives = { λ fault given. given ≡ unread_target fault };

    fn from(fault: TargetFault) -> Unread {
        match fault {
            TargetFault::Memory => Unread::Memory,
            _ => Unread::NotOne,
        }
    }
}

/// Reads the words after the program's name: `serve` and its options, each `--name=value`, cut at its first `=`, or the two
/// words `--name` and `value`.
///
/// They are a command exactly where each name is one of an option and stands once, each value reads, is not empty and does
/// not begin with `-`, and `--listen` and `--metadata` are there.
pub fn read_options(alloc: Global, words: &[String]) -> OptionsRead
    ensures { ReadsOptions words.now result }
{
    match read_words(alloc, words) {
        Ok(options) => OptionsRead::Options(options),
        Err(Unread::NotOne) => OptionsRead::NotOne,
        Err(Unread::Memory) => OptionsRead::Memory,
    }
}

// the options that the words say
fn read_words(alloc: Global, words: &[String]) -> Result<Options, Unread>
    ensures { Gives result (options_of words.now) }
{
    if !is_in_form(words) {
        return Err(Unread::NotOne);
    }
    let values = match_words(alloc, words)?;
    read_values(alloc, &values)
}
