//! What the definitions mean, as laws above them. Each function does nothing: its contract is the law.
ghost use Rattle.std.specs.Prelude.{◌≡◌, ℕ, Bool, true, false, List, [], ◌∷◌, ◌++◌, ◌↔◌, IsTrue, codes};
ghost use Rattle.std.specs.Str.{str_to_ascii_lowercase};
ghost use Rattle.pattern_match.specs.declared.units.TextUnit.{TextUnit};
ghost use Rattle.pattern_match.specs.declared.tokens.Token.{Token};
ghost use Rattle.pattern_match.specs.Units.{units, joined};
ghost use Rattle.pattern_match.specs.Tokens.{IsPlain};
ghost use Rattle.pattern_match.specs.Matching.{Compiled, compiled, TokensMatch, Matches, is_match, IsConcatenation};

/// The units of a text, joined, are the text again.
pub fn units_are_the_text()
    ensures { (text : List ℕ) → joined (units text) ≡ text }
{}

/// The relation by cases says that the units are a concatenation of parts that the tokens match, in their order: Any
/// matches any part, One a part of one unit other than `/`, and a literal a part of one equal unit.
pub fn matching_is_concatenation()
    ensures { (case_sensitive : Bool) (tokens : List Token) (us : List TextUnit) →
        TokensMatch case_sensitive tokens us ↔ IsConcatenation case_sensitive tokens us }
{}

/// The test that computes is the relation.
pub fn test_is_relation()
    ensures { (pattern : Compiled) (text : List ℕ) →
        IsTrue (is_match pattern text) ↔ Matches pattern text }
{}

/// A pattern without `$`, `*` and `?` matches its own text and, where the case of letters counts, no other.
pub fn plain_pattern_is_its_text()
    ensures own { (text : List ℕ) (case_sensitive : Bool) → IsPlain text →
        Matches (compiled text case_sensitive) text }
    ensures no_other { (text other : List ℕ) → IsPlain text →
        Matches (compiled text true) other → other ≡ text }
{}

/// `*` alone matches every text.
pub fn star_matches_every_text()
    ensures { (text : List ℕ) (case_sensitive : Bool) →
        Matches (compiled (codes "*") case_sensitive) text }
{}

/// Tokens with Any after them match the units that the tokens match, with any units after these.
pub fn any_takes_the_rest()
    ensures { (case_sensitive : Bool) (tokens : List Token) (us more : List TextUnit) →
        TokensMatch case_sensitive tokens us →
        TokensMatch case_sensitive (tokens ++ Token.Any ∷ []) (us ++ more) }
{}

/// Where the case of letters does not count, a match does not depend on it, neither in the pattern nor in the text.
pub fn case_does_not_count()
    ensures { (pattern other text written : List ℕ) →
        str_to_ascii_lowercase pattern ≡ str_to_ascii_lowercase other →
        str_to_ascii_lowercase text ≡ str_to_ascii_lowercase written →
        Matches (compiled pattern false) text → Matches (compiled other false) written }
{}
