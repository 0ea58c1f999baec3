//! Lines of a place file.

ghost use Rattle.std.specs.Prelude.{◌≡◌};
ghost use Rattle.location_acl.specs.Line.{either_block, line_of};

use crate::block::Block;
use crate::footprint::{read_country, read_network};
use listing::cut_at;

/// A line of a place file: a block of addresses, and where they are known the number of their autonomous system and
/// their country.
#[derive(Clone, Copy, Debug, PartialEq, Eq)]
pub struct PlaceLine {
    pub block: Block,
    pub asn: Option<u32>,
    pub country: Option<(u8, u8)>,
}

// the block of either kind that the text is
fn either_block(text: &[u8]) -> Option<Block>
    ensures { result ≡ either_block text.now }
{
    match Block::read(text, false) {
        Ok(block) => Some(block),
        Err(_) => Block::read(text, true).ok(),
    }
}

/// The line that the text, without its line feed, is: a block of either kind, a space, `as` and the number of an
/// autonomous system or `-`, a space, and a country or `-`.
pub fn line_of(text: &[u8]) -> Option<PlaceLine>
    ensures { result ≡ line_of text.now }
{
    let (block, rest) = cut_at(b' ', text)?;
    let (asn, country) = cut_at(b' ', rest)?;
    Some(PlaceLine {
        block: either_block(block)?,
        asn: read_network(asn)?,
        country: read_country(country)?,
    })
}
