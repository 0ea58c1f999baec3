//! Reading IPv6 addresses, a byte at a time.

ghost use Rattle.std.specs.Prelude.{◌≡◌, ◌<◌, ◌≤◌, IfSome, IfErr, IsSome};
ghost use Rattle.listing.specs.Fronts.{IsLongestFront};
ghost use Rattle.std.specs.Result.{result_ok};
ghost use Rattle.location_acl.specs.Groups.{AreBounded};
ghost use Rattle.location_acl.specs.Six.{hex_digit, first_digit, with_digit, begun, after_digits, six_step, six_value, six_of, IsSound, AreHex};

use crate::dotted::{Dotted, number_with};
use crate::groups::Groups;

/// The digits of a group, of which there are 1 to 4: their number, and the decimal number 0 to 255 that they also are.
#[derive(Clone, Copy)]
pub struct Digits {
    pub count: u8,
    pub group: u16,
    pub number: Option<u8>,
}

/// The front of an IPv6 address.
#[derive(Clone, Copy)]
pub enum Six {
    /// Nothing was read.
    Start,
    /// A `:` that is the first byte.
    Colon,
    /// Groups and a `:`.
    Joined(Groups),
    /// Groups, of which there may be none, and `::`.
    Gap(Groups),
    /// Groups, and digits of the next.
    Group(Groups, Digits),
    /// Groups, and the front of an IPv4 address.
    Tail(Groups, Dotted),
}

// the value of a hexadecimal digit
fn hex_digit(byte: u8) -> Option<u8>
    ensures value { result ≡ hex_digit byte }
    ensures small { IfSome result (λ digit. digit < 16) }
{
    match byte {
        b'0'..=b'9' => Some(byte - b'0'),
        b'A'..=b'F' => Some(byte - b'A' + 10),
        b'a'..=b'f' => Some(byte - b'a' + 10),
        _ => None,
    }
}

// the first digit of a group
fn first_digit(byte: u8) -> Option<Digits>
    ensures value { result ≡ first_digit byte }
    ensures bounded { IfSome result AreHex }
{
    let digit = hex_digit(byte)?;
    Some(Digits {
        count: 1,
        group: u16::from(digit),
        number: number_with(None, byte),
    })
}

// the digits with one more behind them
fn with_digit(digits: Digits, byte: u8) -> Option<Digits>
    requires { AreHex digits }
    ensures value { result ≡ with_digit digits byte }
    ensures bounded { IfSome result AreHex }
{
    if digits.count >= 4 {
        return None;
    }
    let digit = hex_digit(byte)?;
    Some(Digits {
        count: digits.count + 1,
        group: digits.group * 16 + u16::from(digit),
        number: match digits.number {
            Some(front) => number_with(Some(front), byte),
            None => None,
        },
    })
}

// the front where the next byte is to begin a group
fn begun(groups: Groups, byte: u8) -> Option<Six>
    requires { AreBounded groups }
    ensures value { result ≡ begun groups byte }
    ensures sound { IfSome result IsSound }
{
    if !groups.has_room(1) {
        return None;
    }
    match first_digit(byte) {
        Some(digits) => Some(Six::Group(groups, digits)),
        None => None,
    }
}

// the front with a byte behind the digits of a group
fn after_digits(groups: Groups, digits: Digits, byte: u8) -> Option<Six>
    requires { IsSound (Six.Group groups digits) }
    ensures value { result ≡ after_digits groups digits byte }
    ensures sound { IfSome result IsSound }
{
    if byte == b':' {
        if groups.has_room(2) {
            Some(Six::Joined(groups.with_group(digits.group)))
        } else {
            None
        }
    } else if byte == b'.' {
        match digits.number {
            Some(first) if groups.has_room_for_dotted() => Some(Six::Tail(
                groups,
                Dotted::Second(first, None),
            )),
            _ => None,
        }
    } else {
        match with_digit(digits, byte) {
            Some(more) => Some(Six::Group(groups, more)),
            None => None,
        }
    }
}

impl Six {
    /// The front with one more byte. `None` where no IPv6 address begins so.
    pub fn step(self, byte: u8) -> Option<Six>
        requires { IsSound self }
        ensures value { result ≡ six_step self byte }
        ensures sound { IfSome result IsSound }
    {
        match self {
            Six::Start if byte == b':' => Some(Six::Colon),
            Six::Start => begun(Groups::none(), byte),
            Six::Colon if byte == b':' => Some(Six::Gap(Groups::none().with_gap())),
            Six::Colon => None,
            Six::Joined(groups) if byte == b':' && !groups.has_gap => Some(Six::Gap(
                groups.with_gap(),
            )),
            Six::Joined(groups) | Six::Gap(groups) => begun(groups, byte),
            Six::Group(groups, digits) => after_digits(groups, digits, byte),
            Six::Tail(groups, dotted) => match dotted.step(byte) {
                Some(next) => Some(Six::Tail(groups, next)),
                None => None,
            },
        }
    }

    /// The address, where the front is one.
    pub fn value(self) -> Option<u128>
        requires { IsSound self }
        ensures { result ≡ six_value self }
    {
        match self {
            Six::Start | Six::Colon | Six::Joined(_) => None,
            Six::Gap(groups) => Some(groups.value()),
            Six::Group(groups, digits) => {
                let all = groups.with_group(digits.group);
                if all.is_whole() {
                    Some(all.value())
                } else {
                    None
                }
            }
            Six::Tail(groups, dotted) => match dotted.value() {
                Some(number) => {
                    let all = groups
                        .with_group((number / 65536) as u16)
                        .with_group((number % 65536) as u16);
                    Some(all.value())
                }
                None => None,
            },
        }
    }
}

/// The IPv6 address that the text is. Otherwise how many of its first bytes begin one, at most.
pub fn read(text: &[u8]) -> Result<u128, usize>
    ensures value { result_ok result ≡ six_of text.now }
    ensures place { IfErr result (IsLongestFront (λ other. IsSome (six_of other)) text.now) }
{
    let mut front = Six::Start;
    'bytes: for (at, byte) in text.iter().enumerate() {
        let Some(next) = front.step(*byte) else {
            return Err(at);
        };
        front = next;
    }
    match front.value() {
        Some(number) => Ok(number),
        None => Err(text.len()),
    }
}
