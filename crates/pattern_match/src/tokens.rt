// The tokens of a pattern.
ghost use Rattle.std.specs.Prelude.{◌≡◌, ◌+◌, ◌<◌, ◌≤◌, ◌∷◌, [], length, drop, IfOk};
ghost use Rattle.pattern_match.specs.Units.{units};
ghost use Rattle.pattern_match.specs.Tokens.{is_special, is_escape, token_of, tokens_from, tokens_of};
ghost use Rattle.pattern_match.specs.Matching.{takes, tokens_match};

use crate::units::{TextUnit, unit_at};
use std::alloc::{AllocError, Global};

/// A token of a pattern: any units, one unit other than `/`, or one unit that stands for itself.
#[derive(Clone, Copy, Debug)]
pub enum Token {
    Any,
    One,
    Literal(TextUnit),
}

impl Token {
    /// Whether the token takes this one unit. `Any`, which takes any number of units, is asked for none.
    pub fn takes(self, unit: TextUnit, case_sensitive: bool) -> bool
        ensures { result ≡ takes case_sensitive self unit }
    {
        match self {
            Token::Any => false,
            Token::One => !unit.is(TextUnit::Byte(b'/')),
            Token::Literal(literal) => unit
                .compared(case_sensitive)
                .is(literal.compared(case_sensitive)),
        }
    }
}

// Whether `$` makes the byte plain.
fn is_special(byte: u8) -> bool
    ensures { result ≡ is_special byte }
{
    byte == b'$' || byte == b'*' || byte == b'?'
}

// Whether the unit is a `$` that makes the next unit plain.
fn is_escape(unit: TextUnit, next: TextUnit) -> bool
    ensures { result ≡ is_escape unit next }
{
    match (unit, next) {
        (TextUnit::Byte(byte), TextUnit::Byte(after)) => byte == b'$' && is_special(after),
        _ => false,
    }
}

// The token of a unit that no `$` makes plain.
fn token_of(unit: TextUnit) -> Token
    ensures { result ≡ token_of unit }
{
    match unit {
        TextUnit::Byte(b'*') => Token::Any,
        TextUnit::Byte(b'?') => Token::One,
        _ => Token::Literal(unit),
    }
}

// The first token of the pattern from `at` on, and where the next one begins.
fn token_at(text: &[u8], at: usize) -> (Token, usize)
    requires { at < length text.now }
    ensures first { tokens_from (units (drop at text.now)) ≡
        result.0 ∷ tokens_from (units (drop result.1 text.now)) }
    ensures further { at < result.1 }
    ensures within { result.1 ≤ length text.now }
{
    let unit = unit_at(text, at);
    let after = at + unit.len();
    if after < text.len() {
        let next = unit_at(text, after);
        if is_escape(unit, next) {
            return (Token::Literal(next), after + next.len());
        }
    }
    (token_of(unit), after)
}

/// The tokens of a pattern's text.
pub fn tokens_of(alloc: Global, text: &[u8]) -> Result<Vec<Token>, AllocError>
    ensures { IfOk result (λ tokens. tokens.items ≡ tokens_of text.now) }
{
    let mut tokens = Vec::new(alloc);
    let mut at = 0;
    'tokens: while at < text.len() {
        let (token, next) = token_at(text, at);
        tokens.push(token)?;
        at = next;
    }
    Ok(tokens)
}
