//! The plain program: the place of an address by a scan of all lines. It is slow, and stands here so that tests can
//! compare `PlaceTable::place_of` with it.

ghost use Rattle.std.specs.Prelude.{◌≡◌};
ghost use Rattle.location_acl.specs.Table.{GivesPlace, longer_of};

use crate::footprint::Place;
use crate::ip::Ip;
use crate::line::PlaceLine;

// the line, where its block holds the address and is longer than the best so far, or else that
fn longer_of(ip: Ip, best: Option<PlaceLine>, line: PlaceLine) -> Option<PlaceLine>
    ensures { result ≡ longer_of ip best line }
{
    if !line.block.holds(ip) {
        return best;
    }
    match best {
        Some(other) if other.block.length >= line.block.length => best,
        _ => Some(line),
    }
}

/// The place that these lines give the address: that of the longest block that holds it, and of equal ones of the
/// first.
pub fn place_of(lines: &[PlaceLine], ip: Ip) -> Place
    ensures { GivesPlace lines.now ip result }
{
    let mut best = None;
    'lines: for line in lines {
        best = longer_of(ip, best, *line);
    }
    match best {
        Some(line) => Place {
            ip,
            asn: line.asn,
            country: line.country,
        },
        None => Place {
            ip,
            asn: None,
            country: None,
        },
    }
}
