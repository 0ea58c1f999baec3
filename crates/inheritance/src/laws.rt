//! What the definitions mean, as laws above them. Each function does nothing: its contract is the law.
ghost use Rattle.std.specs.Prelude.{◌≡◌, ◌↔◌, ℕ, List, ◌∷◌, ◌++◌, Some, None};
ghost use Rattle.std.specs.List.{find, list_any};
ghost use Rattle.listing.specs.FirstMatch.{NoneHolds};
ghost use Rattle.targets.specs.declared.target.Target.{Target};
ghost use Rattle.metadata_objects.specs.LevelData.{LevelData, Index};
ghost use Rattle.metadata_objects.specs.declared.generic.Generic.{Generic};
ghost use Rattle.inheritance.specs.Chain.{matches_target, arrays_at, chain, AreLevels, IsChain};
ghost use Rattle.metadata_objects.specs.GenericList.{is_of_kind};
ghost use Rattle.inheritance.specs.Effective.{innermost, all_objects, effective, AreOfTheirOwnTypes, AreInOrderFromOutside};

/// The effective object of a type is the first of the type in the innermost array that has one; there is none where no
/// array has one.
#[tactic(auto, using(crate::proofs::Innermost::effective_object))]
pub fn effective_object_is_innermost()
    ensures { (arrays : List (List Generic)) (kind : List ℕ)
        → find (is_of_kind kind) (effective arrays) ≡ innermost kind arrays }
{}

/// The effective object of a type is that of the deepest level that names the type, its first there, whatever the
/// levels outside it say.
#[tactic(auto, using(crate::proofs::Innermost::deepest))]
pub fn deepest_level_decides()
    ensures { (outer inner : List (List Generic)) (objects : List Generic) (kind : List ℕ) (object : Generic)
        → find (is_of_kind kind) objects ≡ Some object → find (is_of_kind kind) (all_objects inner) ≡ None
        → find (is_of_kind kind) (effective (outer ++ objects ∷ inner)) ≡ Some object }
{}

/// There is one effective object for each type that an array has, and none for another.
pub fn one_object_for_each_type()
    ensures one { (arrays : List (List Generic)) → AreOfTheirOwnTypes (effective arrays) }
    ensures each { (arrays : List (List Generic)) (kind : List ℕ)
        → list_any (is_of_kind kind) (effective arrays) ≡ list_any (is_of_kind kind) (all_objects arrays) }
{}

/// The types stand in the order of their first appearance from outside.
pub fn types_stand_in_order_from_outside()
    ensures { (arrays : List (List Generic)) → AreInOrderFromOutside arrays (effective arrays) }
{}

/// Below a level one array applies for each level: that of the first PathMatch that matches, and of the first below it,
/// until none matches.
pub fn each_level_has_one_array()
    ensures { (path : List ℕ) (here : LevelData) (arrays : List (List Generic))
        → (arrays_at path here ≡ arrays) ↔ AreLevels path here arrays }
{}

/// The arrays that apply to a target are those of the first HostMatch that matches it; there are none exactly where no
/// HostMatch does.
pub fn first_host_has_the_arrays()
    ensures arrays { (index : Index) (target : Target) (arrays : List (List Generic))
        → (chain index target ≡ Some arrays) ↔ IsChain index target arrays }
    ensures none { (index : Index) (target : Target)
        → (chain index target ≡ None) ↔ NoneHolds (matches_target target) index }
{}
