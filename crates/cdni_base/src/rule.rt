//! The rules that forbid a delivery.

ghost use Rattle.std.specs.Prelude.{◌≡◌, ◌≤◌, length};
ghost use Rattle.cdni_base.specs.Scratch.{Puts};
ghost use Rattle.cdni_base.specs.Rule.{number_or_dash};
ghost use Rattle.cdni_base.specs.declared.rule.TheConstants.{NUMBER_MAX, RULE_TEXT_MAX};

use crate::scratch::Scratch;
use crate::type_name::TypeName;
use itoa::Buffer;

/// The most bytes of a rule's text.
pub const RULE_TEXT_MAX: usize = 141;

// the most digits of a number below 2^64
const NUMBER_MAX: usize = 20;

/// Why a delivery is denied, in the order in which the rules are asked.
#[derive(Clone, Drop)]
pub enum Rule {
    /// The method is neither GET nor HEAD.
    Method,
    /// No metadata is installed.
    NoMetadata,
    /// This trigger made the installed metadata invalid.
    MetadataInvalid { trigger: u64 },
    /// No host of the metadata matches.
    NoHost,
    /// An effective object of this type is mandatory and not understood.
    Unenforceable { kind: TypeName },
    /// The location list forbids, by this rule of it.
    Location { rule: Option<u32> },
    /// The time list forbids, by this rule of it.
    Time { rule: Option<u32> },
    /// The protocol list forbids, by this rule of it.
    Protocol { rule: Option<u32> },
    /// No source can be asked.
    NoSource,
}

impl Rule {
    ghost use Rattle.cdni_base.specs.Rule.{rule_status, rule_word, rule_detail, rule_text};

    /// The status code with which the delivery is denied (RFC 9110, section 15).
    pub fn status(&self) -> u16
        ensures { result ≡ rule_status self.now }
    {
        match self {
            Rule::Method => 405,
            Rule::NoHost => 404,
            Rule::NoMetadata | Rule::MetadataInvalid { trigger: _ } | Rule::NoSource => 503,
            Rule::Unenforceable { kind: _ }
            | Rule::Location { rule: _ }
            | Rule::Time { rule: _ }
            | Rule::Protocol { rule: _ } => 403,
        }
    }

    /// The text of the denial in two parts: the rule's word with the space behind it, and the type or number that
    /// follows, for which there is room in `digits`. Each is empty where the rule has none.
    pub fn text<'a>(&'a self, digits: &'a mut Buffer) -> (&'static [u8], &'a [u8])
        ensures word { result.0.now ≡ rule_word self.now }
        ensures detail { result.1.now ≡ rule_detail self.now }
        ensures short { length (rule_text self.now) ≤ RULE_TEXT_MAX }
    {
        match self {
            Rule::Method => (b"method", b""),
            Rule::NoMetadata => (b"no-metadata", b""),
            Rule::MetadataInvalid { trigger } => {
                (b"metadata-invalid ", number_or_dash(Some(*trigger), digits))
            }
            Rule::NoHost => (b"no-host", b""),
            Rule::Unenforceable { kind } => (b"unenforceable ", kind.bytes()),
            Rule::Location { rule } => (b"location ", rule_or_dash(*rule, digits)),
            Rule::Time { rule } => (b"time ", rule_or_dash(*rule, digits)),
            Rule::Protocol { rule } => (b"protocol ", rule_or_dash(*rule, digits)),
            Rule::NoSource => (b"no-source", b""),
        }
    }

    /// Puts the text of the denial, of at most 141 bytes, into `out`. False exactly where it does not fit; then nothing
    /// changes.
    pub fn put(&self, out: &mut Scratch) -> bool
        ensures put { Puts out.old out.new (rule_text self.now) result }
        ensures short { length (rule_text self.now) ≤ RULE_TEXT_MAX }
    {
        let mut digits = Buffer::new();
        let (word, detail) = self.text(&mut digits);
        out.append_two(word, detail)
    }
}

// the number of a rule of a list, or `-` for none
fn rule_or_dash(rule: Option<u32>, digits: &mut Buffer) -> &[u8]
    ensures number { result.now ≡ number_or_dash rule }
    ensures short { length (number_or_dash rule) ≤ NUMBER_MAX }
{
    match rule {
        Some(rule) => number_or_dash(Some(rule as u64), digits),
        None => number_or_dash(None, digits),
    }
}

fn number_or_dash(number: Option<u64>, digits: &mut Buffer) -> &[u8]
    ensures number { result.now ≡ number_or_dash number }
    ensures short { length (number_or_dash number) ≤ NUMBER_MAX }
{
    match number {
        Some(number) => digits.format(number).as_bytes(),
        None => b"-",
    }
}
