//! Addresses.

ghost use Rattle.std.specs.Prelude.{◌≡◌, ℕ, ◌↔◌};
ghost use Rattle.std.specs.Result.{result_ok};

use crate::{dotted, six};

/// An IPv4 or IPv6 address, as the number of its bits, the first bit the highest.
#[derive(Clone, Copy, Debug, PartialEq, Eq)]
pub enum Ip {
    V4(u32),
    V6(u128),
}

/// Why a text is no address: no address begins with more than its first `at` bytes.
#[derive(Clone, Copy, Debug, PartialEq, Eq)]
pub enum AddressFault {
    BadAddress { at: usize },
}

impl Ip {
    ghost use Rattle.location_acl.specs.Ip.{IsAddress, IsSomeAddress, ip_of};
    ghost use Rattle.listing.specs.Fronts.{IsLongestFront};

    /// Reads an address: four numbers 0 to 255 without leading zeros joined by `.`, or an IPv6 address (RFC 4291,
    /// section 2.2).
    ///
    /// # Errors
    /// `BadAddress` where the text is neither, with the length of its longest front that begins an address.
    pub fn read(text: &[u8]) -> Result<Ip, AddressFault>
        ensures ok { (ip : Ip) → (result ≡ Ok ip) ↔ IsAddress text.now ip }
        ensures value { result_ok result ≡ ip_of text.now }
        ensures place { (at : ℕ) →
            result ≡ Err (AddressFault.BadAddress at) → IsLongestFront IsSomeAddress text.now at }
    {
        let at_four = match dotted::read(text) {
            Ok(number) => return Ok(Ip::V4(number)),
            Err(at) => at,
        };
        match six::read(text) {
            Ok(number) => Ok(Ip::V6(number)),
            Err(at) => Err(AddressFault::BadAddress {
                at: at.max(at_four),
            }),
        }
    }
}
