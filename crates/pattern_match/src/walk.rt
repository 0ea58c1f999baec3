// The walk over a text with the last `*` of the pattern.
ghost use Rattle.std.specs.Prelude.{◌≡◌, slice_get, length};
ghost use Rattle.std.specs.List.{list_all};
ghost use Rattle.pattern_match.specs.Units.{units};
ghost use Rattle.pattern_match.specs.Tokens.{is_any};
ghost use Rattle.pattern_match.specs.Matching.{tokens_match};
ghost use Rattle.pattern_match.specs.Steps.{step_of, HasToken};

use crate::tokens::Token;
use crate::units::{TextUnit, unit_at};

// Where the walk goes on after a failure: the token after the last `*`, and the text that this `*` has not taken.
#[derive(Clone, Copy, Debug)]
struct Retry {
    next: usize,
    at: usize,
}

// What the walk does next: it remembers a `*`, lets the token take the unit, or fails.
#[derive(Clone, Copy, Debug)]
enum Step {
    Remember,
    Take,
    Fail,
}

fn step_at(tokens: &[Token], next: usize, unit: TextUnit, case_sensitive: bool) -> Step
    ensures step { result ≡ step_of case_sensitive (slice_get tokens.now next) unit }
    ensures token { HasToken result next (length tokens.now) }
{
    match tokens.get(next) {
        None => Step::Fail,
        Some(Token::Any) => Step::Remember,
        Some(token) => {
            if token.takes(unit, case_sensitive) {
                Step::Take
            } else {
                Step::Fail
            }
        }
    }
}

// Whether each token is `*`: these alone match the end of a text.
fn all_any(tokens: &[Token]) -> bool
    ensures { result ≡ list_all is_any tokens.now }
{
    tokens.iter().all(|token| matches!(token, Token::Any))
}

/// Whether the tokens match the text. Where a unit does not fit, the last `*` takes one more unit, and the tokens after
/// it are tried again from there. An earlier `*` is not tried again, since what it could still take the last one can
/// take too.
pub fn walk(tokens: &[Token], case_sensitive: bool, text: &[u8]) -> bool
    ensures { result ≡ tokens_match case_sensitive tokens.now (units text.now) }
{
    let mut retry: Option<Retry> = None;
    let mut next = 0;
    let mut at = 0;
    'walk: while at < text.len() {
        let unit = unit_at(text, at);
        match step_at(tokens, next, unit, case_sensitive) {
            Step::Remember => {
                next += 1;
                if next == tokens.len() {
                    return true;
                }
                retry = Some(Retry { next, at });
            }
            Step::Take => {
                next += 1;
                at += unit.len();
            }
            Step::Fail => {
                let Some(last) = retry else {
                    return false;
                };
                next = last.next;
                at = last.at + unit_at(text, last.at).len();
                retry = Some(Retry { at, ..last });
            }
        }
    }
    all_any(&tokens[next..])
}
