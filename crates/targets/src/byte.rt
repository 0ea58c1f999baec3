//! Bytes with a meaning of their own in a URL (RFC 3986, section 2.2).

/// `%`, before two hexadecimal digits.
pub const PERCENT: u8 = b'%';

/// `&`, between the pieces of a query.
pub const AMPERSAND: u8 = b'&';

/// `=`, behind the name of a piece.
pub const EQUALS: u8 = b'=';

/// `/`, before the segments of a path.
pub const SLASH: u8 = b'/';

/// `?`, before a query.
pub const QUESTION: u8 = b'?';

/// `:`, before a port and within an IPv6 address.
pub const COLON: u8 = b':';

/// `@`.
pub const AT: u8 = b'@';

/// `[`, before an address.
pub const OPENING: u8 = b'[';

/// `]`, behind an address.
pub const CLOSING: u8 = b']';

/// `.`
pub const DOT: u8 = b'.';

/// `-`
pub const DASH: u8 = b'-';

/// `_`
pub const UNDERSCORE: u8 = b'_';

/// `~`
pub const TILDE: u8 = b'~';
