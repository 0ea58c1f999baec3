//! Blocks of addresses.

ghost use Rattle.std.specs.Prelude.{◌≡◌, ◌-◌, ◌/◌, ◌^◌, ◌≤◌, IfErr, IsSome};
ghost use Rattle.std.specs.Result.{result_ok};
ghost use Rattle.listing.specs.Fronts.{IsLongestFront};
ghost use Rattle.location_acl.specs.Block.{has_same_front, base_of, length_of, length_with, most_of, IsFitting};

use crate::ip::Ip;
use crate::{dotted, six};
use listing::{cut_at, read_digits};

/// A block of addresses (RFC 4632, section 3.1, and RFC 4291, section 2.3): those of the kind of `base` whose first
/// `length` bits are those of `base`. The bits of `base` past these do not count.
#[derive(Clone, Copy, Debug, PartialEq, Eq)]
pub struct Block {
    pub base: Ip,
    pub length: u8,
}

/// Why a text is no block: no block begins with more than its first `at` bytes, or its length `n` is above 32 or 128.
#[derive(Clone, Copy, Debug, PartialEq, Eq)]
pub enum BlockFault {
    BadAddress { at: usize },
    BadLength { n: u64 },
}

impl Block {
    ghost use Rattle.location_acl.specs.Block.{holds, block_of, ReadsBlock};

    /// Reads a block: an address, an IPv6 one where `six` is true and else an IPv4 one, a `/`, and 1 to 3 decimal
    /// digits.
    ///
    /// # Errors
    /// `BadLength` where the text is that, but the number of the digits is above 128, or above 32 of an IPv4 address.
    /// `BadAddress` where it is not, with the length of its longest front that begins a block.
    pub fn read(text: &[u8], six: bool) -> Result<Block, BlockFault>
        ensures grammar { ReadsBlock six text.now result }
        ensures value { result_ok result ≡ block_of six text.now }
    {
        let Some((front, digits)) = cut_at(b'/', text) else {
            return Err(BlockFault::BadAddress {
                at: begun_base(text, six),
            });
        };
        match (read_base(front, six), length_of(digits)) {
            (Err(at), _) => Err(BlockFault::BadAddress { at }),
            (Ok(base), Some(length)) if length <= most_of(six) => Ok(Block {
                base,
                length: length as u8,
            }),
            (Ok(_), Some(length)) => Err(BlockFault::BadLength { n: length }),
            (Ok(_), None) => Err(BlockFault::BadAddress {
                at: text.len() - digits.len() + begun_length(digits, six),
            }),
        }
    }

    /// Whether the address is of the block's kind and has its first bits.
    pub fn holds(&self, ip: Ip) -> bool
        ensures { result ≡ holds self.now ip }
    {
        match (self.base, ip) {
            (Ip::V4(base), Ip::V4(number)) => {
                has_same_front(u128::from(base), u128::from(number), 32, self.length)
            }
            (Ip::V6(base), Ip::V6(number)) => has_same_front(base, number, 128, self.length),
            _ => false,
        }
    }
}

// whether two numbers of so many bits have the same first bits
fn has_same_front(base: u128, number: u128, width: u8, length: u8) -> bool
    requires { width ≤ 128 }
    ensures { result ≡ has_same_front width length base number }
{
    front_bits(base, width, length) == front_bits(number, width, length)
}

/// The first bits of a number of `width` bits, at most 128.
pub fn front_bits(number: u128, width: u8, length: u8) -> u128
    requires { width ≤ 128 }
    ensures { result ≡ number / 2 ^ (width - length) }
{
    let past = u32::from(width.saturating_sub(length));
    match number.checked_shr(past) {
        Some(front) => front,
        None => 0,
    }
}

// the address of this kind that the text is; otherwise how many of its first bytes begin one, at most
fn read_base(text: &[u8], six: bool) -> Result<Ip, usize>
    ensures value { result_ok result ≡ base_of six text.now }
    ensures place { IfErr result (IsLongestFront (λ other. IsSome (base_of six other)) text.now) }
{
    if six {
        match six::read(text) {
            Ok(number) => Ok(Ip::V6(number)),
            Err(at) => Err(at),
        }
    } else {
        match dotted::read(text) {
            Ok(number) => Ok(Ip::V4(number)),
            Err(at) => Err(at),
        }
    }
}

// how many of the first bytes begin an address of this kind, at most
fn begun_base(text: &[u8], six: bool) -> usize
    ensures { IsLongestFront (λ other. IsSome (base_of six other)) text.now result }
{
    match read_base(text, six) {
        Ok(_) => text.len(),
        Err(at) => at,
    }
}

// the largest length
fn most_of(six: bool) -> u64
    ensures { result ≡ most_of six }
{
    if six { 128 } else { 32 }
}

// the number of 1 to 3 decimal digits
fn length_of(text: &[u8]) -> Option<u64>
    ensures { result ≡ length_of text.now }
{
    if text.is_empty() || text.len() > 3 {
        None
    } else {
        read_digits(text)
    }
}

// the number of so many digits with one more behind them; none where no length that fits begins so
fn length_with(six: bool, number: u64, count: usize, byte: u8) -> Option<u64>
    requires { number ≤ 128 }
    ensures { result ≡ length_with six number count byte }
{
    if count >= 3 || !byte.is_ascii_digit() {
        return None;
    }
    let next = number * 10 + u64::from(byte - b'0');
    if next <= most_of(six) {
        Some(next)
    } else {
        None
    }
}

// how many of the first bytes begin a length that fits, at most
fn begun_length(text: &[u8], six: bool) -> usize
    ensures { IsLongestFront (IsFitting six) text.now result }
{
    let mut number = 0;
    'digits: for (at, byte) in text.iter().enumerate() {
        let Some(next) = length_with(six, number, at, *byte) else {
            return at;
        };
        number = next;
    }
    text.len()
}
