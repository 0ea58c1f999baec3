//! Reading IPv4 addresses, a byte at a time.

ghost use Rattle.std.specs.Prelude.{◌≡◌, IfErr, IsSome};
ghost use Rattle.listing.specs.Fronts.{IsLongestFront};
ghost use Rattle.std.specs.Result.{result_ok};
ghost use Rattle.location_acl.specs.Dotted.{number_with, dotted_step, dotted_value, dotted_of};

/// The front of an IPv4 address: the numbers that are complete, and the one that is being read, if it has begun.
#[derive(Clone, Copy)]
pub enum Dotted {
    First(Option<u8>),
    Second(u8, Option<u8>),
    Third(u8, u8, Option<u8>),
    Fourth(u8, u8, u8, Option<u8>),
}

/// The number with one more digit behind it. `None` where that is no number 0 to 255 without leading zeros.
#[inline]
pub fn number_with(number: Option<u8>, byte: u8) -> Option<u8>
    ensures { result ≡ number_with number byte }
{
    if !byte.is_ascii_digit() {
        return None;
    }
    let digit = byte - b'0';
    match number {
        None => Some(digit),
        Some(0) => None,
        Some(front) => front.checked_mul(10)?.checked_add(digit),
    }
}

impl Dotted {
    /// The front with one more byte. `None` where no IPv4 address begins so.
    #[inline]
    pub fn step(self, byte: u8) -> Option<Dotted>
        ensures { result ≡ dotted_step self byte }
    {
        match self {
            Dotted::First(number) if byte == b'.' => Some(Dotted::Second(number?, None)),
            Dotted::First(number) => Some(Dotted::First(Some(number_with(number, byte)?))),
            Dotted::Second(a, number) if byte == b'.' => Some(Dotted::Third(a, number?, None)),
            Dotted::Second(a, number) => Some(Dotted::Second(a, Some(number_with(number, byte)?))),
            Dotted::Third(a, b, number) if byte == b'.' => Some(Dotted::Fourth(
                a, b, number?, None,
            )),
            Dotted::Third(a, b, number) => Some(Dotted::Third(
                a,
                b,
                Some(number_with(number, byte)?),
            )),
            Dotted::Fourth(a, b, c, number) => Some(Dotted::Fourth(
                a,
                b,
                c,
                Some(number_with(number, byte)?),
            )),
        }
    }

    /// The address, where the front is one.
    pub fn value(self) -> Option<u32>
        ensures { result ≡ dotted_value self }
    {
        match self {
            Dotted::Fourth(a, b, c, Some(d)) => {
                Some(
                    u32::from(a) * 16777216
                        + u32::from(b) * 65536
                        + u32::from(c) * 256
                        + u32::from(d),
                )
            }
            _ => None,
        }
    }
}

/// The IPv4 address that the text is. Otherwise how many of its first bytes begin one, at most.
pub fn read(text: &[u8]) -> Result<u32, usize>
    ensures value { result_ok result ≡ dotted_of text.now }
    ensures place { IfErr result (IsLongestFront (λ other. IsSome (dotted_of other)) text.now) }
{
    let mut front = Dotted::First(None);
    'bytes: for (at, byte) in text.iter().enumerate() {
        let Some(next) = front.step(*byte) else {
            return Err(at);
        };
        front = next;
    }
    match front.value() {
        Some(number) => Ok(number),
        None => Err(text.len()),
    }
}
