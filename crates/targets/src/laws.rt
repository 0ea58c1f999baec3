//! What the definitions mean, as laws above them. Each function does nothing: its contract is the law.

ghost use Rattle.std.specs.Prelude.{◌≡◌, ◌≢◌, ◌≤◌, Bool, true, List, ℕ, length};
ghost use Rattle.std.specs.declared.option.Option.{Option};
ghost use Rattle.targets.specs.declared.endpoint.Endpoint.{Endpoint};
ghost use Rattle.targets.specs.declared.target.Target.{Target};
ghost use Rattle.targets.specs.declared.target.TheConstants.{HTTPS_PORT, TARGET_MAX};
ghost use Rattle.targets.specs.Grammar.{IsEndpoint, IsTarget};
ghost use Rattle.targets.specs.Target.{url_text};

/// A text is one endpoint at most.
pub fn a_text_has_one_endpoint()
    ensures { (text : List ℕ) (endpoint other : Endpoint) → IsEndpoint text endpoint → IsEndpoint text other
        → endpoint ≡ other }
{}

/// A text is one target at most, where the host and the kind of the connection are given.
pub fn a_text_has_one_target()
    ensures { (text : List ℕ) (host : Option (List ℕ)) (secure : Bool) (target other : Target) →
        IsTarget text host secure target → IsTarget text host secure other → target ≡ other }
{}

/// connection; but beside `https` a port of 443 reads as absent.
pub fn a_url_is_read_again_as_its_target()
    ensures { (text : List ℕ) (host other : Option (List ℕ)) (secure with_secure https : Bool) (target : Target) →
        IsTarget text host secure target → (https ≡ true → target.port ≢ HTTPS_PORT)
        → length (url_text https target) ≤ TARGET_MAX →
        IsTarget (url_text https target) other with_secure target }
{}
