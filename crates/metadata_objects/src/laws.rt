//! What the definitions mean, as laws above them. Each function does nothing: its contract is the law.

ghost use Rattle.std.specs.Prelude.{◌≡◌, ℕ, List, Ok};
ghost use Rattle.serde_json.specs.Data.{Data};
ghost use Rattle.metadata_objects.specs.Host.{host_index_of, host_match_of, IsWithinLimits, host_index_names, host_match_names};
ghost use Rattle.metadata_objects.specs.Generic.{generic_of, generic_names};
ghost use Rattle.metadata_objects.specs.Level.{PathReading, level_with, level_names, path_match_with, path_match_names, pattern_of, pattern_names};
ghost use Rattle.metadata_objects.specs.LevelData.{Index};
ghost use Rattle.metadata_objects.specs.Reading.{AgreeOn};

/// What a HostIndex is read as has at most 10,000 objects, of which PathMatch objects nest at most 16 deep; each type
/// has 1 to 127 bytes in lower case, and the sources of one object have at most 16 endpoints together.
pub fn a_read_index_is_within_the_limits()
    ensures { (value : Data) (index : Index) → host_index_of value ≡ Ok index → IsWithinLimits index }
{}

/// A property of a HostIndex other than `hosts` changes nothing.
pub fn unknown_properties_of_a_host_index_change_nothing()
    ensures { (value other : Data) → AgreeOn host_index_names value other → host_index_of value ≡ host_index_of other }
{}

/// A property of a HostMatch other than `host` and `host-metadata` changes nothing, unless it makes it a Link.
pub fn unknown_properties_of_a_host_match_change_nothing()
    ensures { (path : List ℕ) (n : ℕ) (value other : Data) → AgreeOn host_match_names value other →
        host_match_of path n value ≡ host_match_of path n other }
{}

/// A property of a HostMetadata or PathMetadata other than `metadata` and `paths` changes nothing, unless it makes it a
/// Link.
pub fn unknown_properties_of_a_level_change_nothing()
    ensures { (read : PathReading) (path : List ℕ) (n : ℕ) (value other : Data) → AgreeOn level_names value other →
        level_with read path n value ≡ level_with read path n other }
{}

/// A property of a PathMatch other than `path-pattern` and `path-metadata` changes nothing, unless it makes it a Link.
pub fn unknown_properties_of_a_path_match_change_nothing()
    ensures { (read : PathReading) (path : List ℕ) (n : ℕ) (value other : Data) → AgreeOn path_match_names value other →
        path_match_with read path n value ≡ path_match_with read path n other }
{}

/// A property of a PatternMatch other than `pattern` and `case-sensitive` changes nothing.
pub fn unknown_properties_of_a_pattern_change_nothing()
    ensures { (path : List ℕ) (value other : Data) → AgreeOn pattern_names value other
        → pattern_of path value ≡ pattern_of path other }
{}

/// A property of a GenericMetadata other than its five changes nothing, unless it makes it a Link.
pub fn unknown_properties_of_an_object_change_nothing()
    ensures { (path : List ℕ) (n : ℕ) (value other : Data) → AgreeOn generic_names value other →
        generic_of path n value ≡ generic_of path n other }
{}
