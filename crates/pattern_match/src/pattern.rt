// A pattern: reading it, and matching a text.
ghost use Rattle.std.specs.Prelude.{◌≡◌, ◌<◌, ◌↔◌, IsTrue, length, IfOk, IfErr};
ghost use Rattle.pattern_match.specs.Matching.{compiled, Matches, is_match};
ghost use Rattle.pattern_match.specs.Faults.{Refuses};

use crate::tokens::{Token, tokens_of};
use crate::walk::walk;
use std::alloc::{AllocError, Global};
use std::marker::Model;

/// The longest pattern, in bytes.
pub const MAX_PATTERN_LEN: usize = 1024;

/// A compiled pattern.
#[derive(Clone, Drop)]
pub struct Pattern {
    tokens: Vec<Token>,
    case_sensitive: bool,
}

impl Model for Pattern {
    ghost use Rattle.pattern_match.specs.Matching.{Compiled};

    ghost Value = { Compiled };

    ghost view = { λ p. record { tokens = p.tokens.items; case_sensitive = p.case_sensitive } };
}

/// Why a text gives no pattern: it has `len` bytes, which are too many, or memory ended.
#[derive(Clone, Copy, Debug, PartialEq, Eq)]
pub enum PatternFault {
    TooLong { len: usize },
    Memory,
}

impl From<AllocError> for PatternFault {
    ghost use Rattle.std.specs.Prelude.{◌≡◌};
    ghost use Rattle.pattern_match.specs.declared.pattern.PatternFault.TheVariants.{Memory};

    ghost from_gives = { λ _ fault. fault ≡ Memory };

    fn from(_fault: AllocError) -> PatternFault {
        PatternFault::Memory
    }
}

impl Pattern {
    /// Compiles a pattern (RFC 8006, section 4.1.5). `TooLong` comes exactly above 1,024 bytes, with the length;
    /// every other text is a pattern. `case_sensitive` says whether the case of ASCII letters counts.
    pub fn read(alloc: Global, text: &[u8], case_sensitive: bool) -> Result<Pattern, PatternFault>
        ensures ok { IfOk result (λ pattern. pattern ≡ compiled text.now case_sensitive) }
        ensures too_long { (1024 < length text.now) ↔ (result ≡ Err (PatternFault.TooLong (length text.now))) }
        ensures refused { IfErr result (Refuses text.now) }
    {
        if text.len() > MAX_PATTERN_LEN {
            return Err(PatternFault::TooLong { len: text.len() });
        }
        let tokens = tokens_of(alloc, text)?;
        Ok(Pattern {
            tokens,
            case_sensitive,
        })
    }

    /// Whether the pattern matches the whole text (RFC 8006, section 4.1.5). It takes no memory. No clause bounds its
    /// steps; a test shows that many `*` do not multiply them.
    pub fn matches(&self, text: &[u8]) -> bool
        ensures relation { IsTrue result ↔ Matches self.now text.now }
        ensures value { result ≡ is_match self.now text.now }
    {
        walk(&self.tokens, self.case_sensitive, text)
    }

    /// The tokens, in their order.
    pub fn tokens(&self) -> &[Token]
        ensures { result.now ≡ self.now.tokens }
    {
        &self.tokens
    }

    /// Whether the case of ASCII letters counts.
    pub fn is_case_sensitive(&self) -> bool
        ensures { result ≡ self.now.case_sensitive }
    {
        self.case_sensitive
    }
}
