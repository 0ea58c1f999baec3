//! What the definitions mean, as laws above them. Each function does nothing: its contract is the law.

ghost use Rattle.std.specs.Prelude.{◌≡◌, ◌↔◌, ◌++◌, List, ℕ};
ghost use Rattle.std.specs.declared.option.Option.{Option};
ghost use Rattle.targets.specs.declared.target.Target.{Target};
ghost use Rattle.cdni_base.specs.declared.provider.ProviderId.{ProviderId};
ghost use Rattle.cdni_base.specs.declared.key.Ignored.TheVariants.{Names};
ghost use Rattle.cdni_base.specs.Key.{pieces_of, key_of, AreIgnored, IsSameBut};
ghost use Rattle.cdni_base.specs.Provider.{IsProviderId};

/// A text is one provider id at most.
pub fn a_text_has_one_provider_id()
    ensures { (text : List ℕ) (id other : ProviderId) → IsProviderId text id → IsProviderId text other → id ≡ other }
{}

/// The URL of a target, where it is within the limit of length, is read again as that target, whatever the host and the
/// Two targets whose queries differ in ignored pieces alone have one key.
pub fn ignored_pieces_play_no_part_in_a_key()
    ensures { (target : Target) (query : Option (List ℕ)) (names front some others back : List (List ℕ)) →
        pieces_of target.query ≡ front ++ some ++ back → pieces_of query ≡ front ++ others ++ back →
        AreIgnored names some → AreIgnored names others →
        key_of (record target { query = query }) (Names names) ≡ key_of target (Names names) }
{}

/// Two targets have one key exactly where their hosts, ports and paths are the same, and of their queries the same
/// pieces are kept in the same order.
pub fn kept_pieces_tell_keys_apart()
    ensures { (target other : Target) (names : List (List ℕ)) →
        (key_of target (Names names) ≡ key_of other (Names names)) ↔ IsSameBut names target other }
{}
