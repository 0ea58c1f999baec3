//! Classes of the bytes of a URL (RFC 3986, sections 2 and 3).

ghost use Rattle.std.specs.Prelude.{◌≡◌};
ghost use Rattle.targets.specs.Endpoint.{is_name_byte};
ghost use Rattle.targets.specs.Grammar.{is_query_byte};

/// `/` and `?`. The classes below this one have no byte of a query.
const DELIMITER: u8 = b'2';

/// A letter, a digit, `.`, `-` or `_`.
const NAME: u8 = b'4';

// For each byte its class: 0 for one that no URL has, 1 for `%`, 2 for `/` and `?`, 3 for a pchar that is no byte of a
// name, and 4 for a byte of a name.
#[rattlefmt::skip]
static CLASSES: [u8; 256] = *b"\
    00000000000000000000000000000000\
    03003133333334424444444444330302\
    34444444444444444444444444400004\
    04444444444444444444444444400030\
    00000000000000000000000000000000\
    00000000000000000000000000000000\
    00000000000000000000000000000000\
    00000000000000000000000000000000";

// a letter, a digit, `.`, `-` or `_`
#[inline]
pub(crate) fn is_name_byte(byte: u8) -> bool
    ensures { result ≡ is_name_byte byte }
{
    CLASSES[byte as usize] == NAME
}

// a pchar of one byte, `/` or `?` (RFC 3986, section 3.4)
#[inline]
pub(crate) fn is_query_byte(byte: u8) -> bool
    ensures { result ≡ is_query_byte byte }
{
    CLASSES[byte as usize] >= DELIMITER
}
