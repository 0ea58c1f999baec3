//! What the advertisement says of a footprint.

ghost use Rattle.std.specs.Prelude.{◌≡◌, ℕ, ◌∷◌, ◌++◌, List};
ghost use Rattle.footprints.specs.Advertisement.{footprint_data, footprint_object};
ghost use Rattle.footprints.specs.Settings.{COLON};
ghost use Rattle.location_acl.specs.Footprint.{IsFootprint};
ghost use Rattle.location_acl.specs.declared.footprint.Footprint.{Footprint};

/// A footprint is shown as an object of its type with its value alone, though a value may have a `:` itself (RFC 8006,
/// section 4.2.2.2).
pub fn a_footprint_is_cut_behind_its_type()
    ensures { (kind value : List ℕ) (footprint : Footprint) → IsFootprint kind value footprint
        → footprint_data (kind ++ COLON ∷ value) ≡ footprint_object kind value }
{}
