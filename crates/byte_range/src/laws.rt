//! What the definitions mean, as laws above them. Each function does nothing: its contract is the law.
ghost use Rattle.std.specs.Prelude.{◌≡◌, ◌+◌, ◌≤◌, ◌<◌, ℕ, List, Some, length, slice_get};
ghost use Rattle.byte_range.specs.Span.{part_of};
ghost use Rattle.byte_range.specs.declared.span.Span.TheVariants.{Part};
ghost use Rattle.byte_range.specs.declared.want.Want.{Want};
ghost use Rattle.byte_range.specs.Want.{Reads, want_of};

/// Each text reads as one range at most, or as all: the grammar gives one answer.
pub fn grammar_has_one_reading()
    ensures { (text : List ℕ) (want other : Want) →
        Reads text want → Reads text other → want ≡ other }
{}

/// A part has the bytes of the body from the first position to the last: so many, and each of them in its place.
pub fn part_is_the_bytes_first_to_last()
    ensures len { (body part : List ℕ) (first last : ℕ) → first ≤ last → last < length body →
        part_of body (Part first last) ≡ Some part → length part + first ≡ last + 1 }
    ensures bytes { (body part : List ℕ) (first last i : ℕ) → first ≤ last → last < length body →
        part_of body (Part first last) ≡ Some part → i < length part → slice_get part i ≡ slice_get body (first + i) }
{}
