//! The limits of a head.

ghost use Rattle.std.specs.Prelude.{◌≡◌, ◌<◌, ◌↔◌, IsTrue};
ghost use Rattle.http_wire.specs.Limits.{feeds};
ghost use Rattle.http_wire.specs.declared.limits.TheConstants.{FEEDS_MAX};

use listing::cut_at;

/// The most bytes of a head.
pub const HEAD_MAX: usize = 16384;

/// The most line feeds of a head, which are those of 64 header fields.
pub const FEEDS_MAX: usize = 66;

/// The most header fields of a head.
pub const FIELDS_MAX: usize = 64;

/// `\n`
pub(crate) const LINE_FEED: u8 = 10;

// whether more line feeds stand in the bytes than in any head
pub(crate) fn exceeds_feeds(bytes: &[u8]) -> bool
    ensures { IsTrue result ↔ (FEEDS_MAX < feeds bytes.now) }
{
    bytes.len() > FEEDS_MAX && feeds_in(bytes) > FEEDS_MAX
}

// how many line feeds stand in the bytes
pub(crate) fn feeds_in(bytes: &[u8]) -> usize
    ensures { result ≡ feeds bytes.now }
{
    let most = bytes.len();
    let mut count = 0;
    let mut rest = bytes;
    'lines: loop {
        match cut_at(LINE_FEED, rest) {
            Some((_, others)) => {
                count += 1;
                rest = others;
            }
            None => return count,
        }
    }
}
