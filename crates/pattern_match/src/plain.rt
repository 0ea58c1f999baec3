//! The plain program: the cut of a text as a list of units, and the relation as a recursion over it. It is slow, and
//! stands here so that tests can compare `Pattern::matches` with it.
ghost use Rattle.std.specs.Prelude.{◌≡◌, ◌↔◌, IsTrue, IfOk};
ghost use Rattle.pattern_match.specs.Units.{units};
ghost use Rattle.pattern_match.specs.Matching.{TokensMatch};

use crate::tokens::Token;
use crate::units::{TextUnit, unit_at};
use std::alloc::{AllocError, Global};

/// The units of a text, as a list.
pub fn units_of(alloc: Global, text: &[u8]) -> Result<Vec<TextUnit>, AllocError>
    ensures { IfOk result (λ found. found.items ≡ units text.now) }
{
    let mut found = Vec::new(alloc);
    let mut at = 0;
    'units: while at < text.len() {
        let unit = unit_at(text, at);
        found.push(unit)?;
        at += unit.len();
    }
    Ok(found)
}

/// Whether the tokens match the units, by the cases of the relation.
pub fn tokens_match(tokens: &[Token], units: &[TextUnit], case_sensitive: bool) -> bool
    ensures { IsTrue result ↔ TokensMatch case_sensitive tokens.now units.now }
{
    let Some(token) = tokens.first() else {
        return units.is_empty();
    };
    let rest = &tokens[1..];
    if matches!(token, Token::Any) {
        tokens_match(rest, units, case_sensitive)
            || !units.is_empty() && tokens_match(tokens, &units[1..], case_sensitive)
    } else {
        !units.is_empty()
            && token.takes(units[0], case_sensitive)
            && tokens_match(rest, &units[1..], case_sensitive)
    }
}
