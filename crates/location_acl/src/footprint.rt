//! Footprints, and the places that they hold.

ghost use Rattle.std.specs.Prelude.{◌≡◌, ◌↔◌, ℕ};
ghost use Rattle.std.specs.declared.option.Option.{Option};
ghost use Rattle.location_acl.specs.Footprint.{asn_of, country_of, is_lower_letter, type_of_name, footprint_of_type, optional, IsNetwork, IsCountry};

use crate::block::Block;
use crate::ip::Ip;
use listing::read_decimal;

/// Where a client is: its address, and where they are known the number of its autonomous system and its country, two
/// lower-case letters.
#[derive(Clone, Copy, Debug, PartialEq, Eq)]
pub struct Place {
    pub ip: Ip,
    pub asn: Option<u32>,
    pub country: Option<(u8, u8)>,
}

/// A type of footprints (RFC 8006, section 4.2.2.2, registered in section 7.2).
#[derive(Clone, Copy, Debug, PartialEq, Eq)]
pub enum FootprintType {
    Ipv4Cidr,
    Ipv6Cidr,
    Asn,
    CountryCode,
}

impl FootprintType {
    ghost use Rattle.location_acl.specs.Footprint.{type_name, type_of_name};

    /// The type of this name: `ipv4cidr`, `ipv6cidr`, `asn` or `countrycode`. `None` where it is another.
    pub fn read(name: &[u8]) -> Option<FootprintType>
        ensures value { result ≡ type_of_name name.now }
        ensures named { (kind : FootprintType) → (result ≡ Some kind) ↔ (name.now ≡ type_name kind) }
    {
        read_type(name)
    }

    /// The name of the type.
    pub fn name(self) -> &'static [u8]
        ensures { result.now ≡ type_name self }
    {
        match self {
            FootprintType::Ipv4Cidr => b"ipv4cidr",
            FootprintType::Ipv6Cidr => b"ipv6cidr",
            FootprintType::Asn => b"asn",
            FootprintType::CountryCode => b"countrycode",
        }
    }
}

/// A set of places (RFC 8006, section 4.2.2.2): those in a block of addresses, in an autonomous system, or in a
/// country.
#[derive(Clone, Copy, Debug, PartialEq, Eq)]
pub enum Footprint {
    V4(Block),
    V6(Block),
    Asn(u32),
    Country(u8, u8),
}

impl Footprint {
    ghost use Rattle.location_acl.specs.Footprint.{holds_place, type_of, footprint_of, IsFootprint, IsWritten};

    /// Reads a value of a footprint of the type that has this name. `None` where no type has it, or the value is not of
    /// the type, as `read_as` says.
    pub fn read(kind: &[u8], value: &[u8]) -> Option<Footprint>
        ensures grammar { (footprint : Footprint) → (result ≡ Some footprint)
            ↔ IsFootprint kind.now value.now footprint }
        ensures value { result ≡ footprint_of kind.now value.now }
    {
        Footprint::read_as(FootprintType::read(kind)?, value)
    }

    /// Reads a value of a footprint of this type: a block of IPv4 or IPv6 addresses, `as` and a decimal number of at
    /// most 4294967295 without leading zeros, or two lower-case letters (RFC 8006, sections 4.3.5 to 4.3.8). `None`
    /// where the value is not of the type.
    pub fn read_as(kind: FootprintType, value: &[u8]) -> Option<Footprint>
        ensures grammar { (footprint : Footprint) →
            (result ≡ Some footprint) ↔ ((kind ≡ type_of footprint) × IsWritten value.now footprint) }
        ensures value { result ≡ footprint_of_type kind value.now }
    {
        read_value(kind, value)
    }

    /// Whether the place is in the footprint.
    pub fn holds(&self, place: &Place) -> bool
        ensures { result ≡ holds_place place.now self.now }
    {
        match self {
            Footprint::V4(block) | Footprint::V6(block) => block.holds(place.ip),
            Footprint::Asn(number) => match place.asn {
                Some(asn) => asn == *number,
                None => false,
            },
            Footprint::Country(first, second) => match place.country {
                Some((one, two)) => one == *first && two == *second,
                None => false,
            },
        }
    }
}

// the type that has this name
fn read_type(name: &[u8]) -> Option<FootprintType>
    ensures { result ≡ type_of_name name.now }
{
    if name == b"ipv4cidr".as_slice() {
        Some(FootprintType::Ipv4Cidr)
    } else if name == b"ipv6cidr".as_slice() {
        Some(FootprintType::Ipv6Cidr)
    } else if name == b"asn".as_slice() {
        Some(FootprintType::Asn)
    } else if name == b"countrycode".as_slice() {
        Some(FootprintType::CountryCode)
    } else {
        None
    }
}

// the footprint of this type that the value is
fn read_value(kind: FootprintType, value: &[u8]) -> Option<Footprint>
    ensures { result ≡ footprint_of_type kind value.now }
{
    match kind {
        FootprintType::Ipv4Cidr => Some(Footprint::V4(Block::read(value, false).ok()?)),
        FootprintType::Ipv6Cidr => Some(Footprint::V6(Block::read(value, true).ok()?)),
        FootprintType::Asn => Some(Footprint::Asn(asn_of(value)?)),
        FootprintType::CountryCode => {
            let (first, second) = country_of(value)?;
            Some(Footprint::Country(first, second))
        }
    }
}

/// The number of an autonomous system: `as` and a decimal number of at most 4294967295 without leading zeros.
pub fn asn_of(text: &[u8]) -> Option<u32>
    ensures { result ≡ asn_of text.now }
{
    if text.len() < 2 || &text[..2] != b"as".as_slice() {
        return None;
    }
    match read_decimal(&text[2..]) {
        Some(number) if number <= 4294967295 => Some(number as u32),
        _ => None,
    }
}

fn is_lower_letter(byte: u8) -> bool
    ensures { result ≡ is_lower_letter byte }
{
    byte.is_ascii_lowercase()
}

/// A country: two lower-case letters.
pub fn country_of(text: &[u8]) -> Option<(u8, u8)>
    ensures { result ≡ country_of text.now }
{
    match text {
        [first, second] if is_lower_letter(*first) && is_lower_letter(*second) => Some((
            *first, *second,
        )),
        _ => None,
    }
}

/// The number of an autonomous system, `as` and a decimal number, or that it is not known, `-`. `None` where the text
/// is neither.
pub fn read_network(text: &[u8]) -> Option<Option<u32>>
    ensures grammar { (network : Option ℕ) → (result ≡ Some network) ↔ IsNetwork text.now network }
    ensures value { result ≡ optional asn_of text.now }
{
    known_asn(text)
}

/// A country, two lower-case letters, or that it is not known, `-`. `None` where the text is neither.
pub fn read_country(text: &[u8]) -> Option<Option<(u8, u8)>>
    ensures grammar { (country : Option (ℕ × ℕ)) → (result ≡ Some country) ↔ IsCountry text.now country }
    ensures value { result ≡ optional country_of text.now }
{
    known_country(text)
}

fn known_asn(text: &[u8]) -> Option<Option<u32>>
    ensures { result ≡ optional asn_of text.now }
{
    if text == b"-".as_slice() {
        return Some(None);
    }
    match asn_of(text) {
        Some(number) => Some(Some(number)),
        None => None,
    }
}

fn known_country(text: &[u8]) -> Option<Option<(u8, u8)>>
    ensures { result ≡ optional country_of text.now }
{
    if text == b"-".as_slice() {
        return Some(None);
    }
    match country_of(text) {
        Some(letters) => Some(Some(letters)),
        None => None,
    }
}
