//! What the numbers are that definitions take from the code: a constant that stands in both could be wrong in both.
//! The function does nothing: its contract gives the numbers.

ghost use Rattle.std.specs.Prelude.{◌≡◌};
ghost use Rattle.doors.specs.declared.address.TheConstants.{CLOSING, COLON, OPENING};

/// The brackets of an IPv6 address and the colon before a port (RFC 3986, section 3.2.2).
pub fn numbers_of_addresses()
    ensures closing { CLOSING ≡ 93 }
    ensures colon { COLON ≡ 58 }
    ensures opening { OPENING ≡ 91 }
{}
