//! The numbers of the base crates: targets, keys, patterns, outcomes, sources and clocks.

ghost use Rattle.cdni_base.specs.declared.date.TheConstants as cdni_base_date;
ghost use Rattle.cdni_base.specs.declared.provider.TheConstants as cdni_base_provider;
ghost use Rattle.cdni_base.specs.declared.type_name.TheConstants as cdni_base_type_name;
ghost use Rattle.edge_base.specs.declared.causes.TheConstants as edge_base_causes;
ghost use Rattle.edge_base.specs.declared.list_clock.TheConstants as edge_base_list_clock;
ghost use Rattle.pattern_match.specs.declared.pattern.TheConstants as pattern_match_pattern;
ghost use Rattle.std.specs.Prelude.{◌≡◌, ◌-◌, ◌^◌};
ghost use Rattle.targets.specs.declared.byte.TheConstants as targets_byte;
ghost use Rattle.targets.specs.declared.endpoint.TheConstants as targets_endpoint;
ghost use Rattle.targets.specs.declared.host_name.TheConstants as targets_host_name;
ghost use Rattle.targets.specs.declared.target.TheConstants as targets_target;
ghost use Rattle.upstream_gate.specs.declared.got.TheConstants as upstream_gate_got;

/// The count of faults ends at 2^64 - 1, and so do the calls that a list of moments counts.
pub fn numbers_of_sources_sinks_and_clocks()
    ensures most_faults { edge_base_causes.MOST_FAULTS ≡ 2 ^ 64 - 1 }
    ensures most_calls { edge_base_list_clock.MOST_CALLS ≡ 2 ^ 64 - 1 }
{}

/// The longest target and host, the ports that need not be written, and the bytes of the grammar (RFC 3986, section 2).
pub fn numbers_of_targets()
    ensures ampersand { targets_byte.AMPERSAND ≡ 38 }
    ensures at { targets_byte.AT ≡ 64 }
    ensures closing { targets_byte.CLOSING ≡ 93 }
    ensures colon { targets_byte.COLON ≡ 58 }
    ensures dash { targets_byte.DASH ≡ 45 }
    ensures dot { targets_byte.DOT ≡ 46 }
    ensures equals { targets_byte.EQUALS ≡ 61 }
    ensures opening { targets_byte.OPENING ≡ 91 }
    ensures percent { targets_byte.PERCENT ≡ 37 }
    ensures question { targets_byte.QUESTION ≡ 63 }
    ensures slash { targets_byte.SLASH ≡ 47 }
    ensures tilde { targets_byte.TILDE ≡ 126 }
    ensures underscore { targets_byte.UNDERSCORE ≡ 95 }
    ensures port_digits { targets_endpoint.PORT_DIGITS ≡ 5 }
    ensures port_max { targets_endpoint.PORT_MAX ≡ 65535 }
    ensures host_name_max { targets_host_name.HOST_NAME_MAX ≡ 255 }
    ensures https_port { targets_target.HTTPS_PORT ≡ 443 }
    ensures http_port { targets_target.HTTP_PORT ≡ 80 }
    ensures target_max { targets_target.TARGET_MAX ≡ 4096 }
{}

/// The longest name of a type, the digits and the qualifier of a provider id, and where dates end.
pub fn numbers_of_names_ids_and_dates()
    ensures date_end { cdni_base_date.DATE_END ≡ 253402300800000 }
    ensures as_digits { cdni_base_provider.AS_DIGITS ≡ 10 }
    ensures qualifier_max { cdni_base_provider.QUALIFIER_MAX ≡ 64 }
    ensures type_name_max { cdni_base_type_name.TYPE_NAME_MAX ≡ 127 }
{}

/// The longest pattern.
pub fn numbers_of_patterns()
    ensures max_pattern_len { pattern_match_pattern.MAX_PATTERN_LEN ≡ 1024 }
{}

/// The longest body of an object: 16 MiB.
pub fn numbers_of_outcomes()
    ensures body_max { upstream_gate_got.BODY_MAX ≡ 16777216 }
{}
