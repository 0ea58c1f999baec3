//! What the definitions mean, as laws above them. Each function does nothing: its contract is the law.
ghost use Rattle.std.specs.Prelude.{◌≡◌, ℕ, ◌^◌, ◌<◌, Bool, true, List, Result, ◌↔◌, Some};
ghost use Rattle.location_acl.specs.declared.ip.Ip.{Ip};
ghost use Rattle.location_acl.specs.declared.ip.Ip.TheVariants.{V4, V6};
ghost use Rattle.location_acl.specs.declared.block.Block.{Block};
ghost use Rattle.location_acl.specs.declared.block.BlockFault.{BlockFault};
ghost use Rattle.location_acl.specs.declared.footprint.Place.{Place};
ghost use Rattle.location_acl.specs.declared.line.PlaceLine.{PlaceLine};
ghost use Rattle.location_acl.specs.Block.{ReadsBlock, has_same_front, is_in_same_block};
ghost use Rattle.location_acl.specs.Line.{AreLines, StopsAt};
ghost use Rattle.location_acl.specs.Table.{GivesPlace};
ghost use Rattle.location_acl.specs.Ip.{IsAddress, ip_of};

/// Each text is one address at most: the grammar gives one value.
pub fn text_has_one_address()
    ensures { (text : List ℕ) (ip other : Ip) → IsAddress text ip → IsAddress text other → ip ≡ other }
{}

/// The reading that computes is the grammar.
pub fn reading_is_grammar()
    ensures { (text : List ℕ) (ip : Ip) → (ip_of text ≡ Some ip) ↔ IsAddress text ip }
{}

/// Each text is one block, would be one but for one length, or is none, with one place of its fault.
pub fn text_has_one_block()
    ensures { (six : Bool) (text : List ℕ) (read other : Result Block BlockFault) →
        ReadsBlock six text read → ReadsBlock six text other → read ≡ other }
{}

/// A block of the length 0 holds every address of its kind.
pub fn shortest_block_holds_all()
    ensures four { (base number : ℕ) → base < 2 ^ 32 → number < 2 ^ 32
        → is_in_same_block 0 (V4 base) (V4 number) ≡ true }
    ensures six { (base number : ℕ) → base < 2 ^ 128 → number < 2 ^ 128
        → is_in_same_block 0 (V6 base) (V6 number) ≡ true }
{}

/// A block of the length 32, or 128 of an IPv6 address, holds its own address alone.
pub fn longest_block_holds_one()
    ensures four { (base number : ℕ) → (is_in_same_block 32 (V4 base) (V4 number) ≡ true) ↔ (base ≡ number) }
    ensures six { (base number : ℕ) → (is_in_same_block 128 (V6 base) (V6 number) ≡ true) ↔ (base ≡ number) }
{}

/// Bits past the length do not count: two addresses with the same first bits make the same block.
pub fn bits_past_the_length_do_not_count()
    ensures { (width length base other number : ℕ) → has_same_front width length base other ≡ true →
        has_same_front width length base number ≡ has_same_front width length other number }
{}

/// Lines of a place file give each address one place.
pub fn address_has_one_place()
    ensures { (lines : List PlaceLine) (ip : Ip) (place other : Place) →
        GivesPlace lines ip place → GivesPlace lines ip other → place ≡ other }
{}

/// Each text is one list of lines of a place file, or has one first line that does not read, and never both.
pub fn text_has_one_place_file()
    ensures lines { (bytes : List ℕ) (lines other : List PlaceLine) →
        AreLines bytes lines → AreLines bytes other → lines ≡ other }
    ensures stop { (bytes : List ℕ) (number other : ℕ) →
        StopsAt bytes number → StopsAt bytes other → number ≡ other }
    ensures never_both { (bytes : List ℕ) (lines : List PlaceLine) (number : ℕ) →
        AreLines bytes lines → StopsAt bytes number → ⊥ }
{}
