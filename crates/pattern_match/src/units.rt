// The units of a text.
ghost use Rattle.std.specs.Prelude.{◌≡◌, ◌+◌, ◌<◌, ◌≤◌, ◌∷◌, length, drop};
ghost use Rattle.pattern_match.specs.Units.{units, bytes_of, unit_eq, is_encoded_at, compared};

/// A unit of a text: a byte, or `%` and two hexadecimal digits, which are kept as they were written.
#[derive(Clone, Copy, Debug)]
pub enum TextUnit {
    Byte(u8),
    Encoded(u8, u8),
}

impl TextUnit {
    /// How many bytes of a text the unit is.
    pub fn len(self) -> usize
        ensures { result ≡ length (bytes_of self) }
    {
        match self {
            TextUnit::Byte(_) => 1,
            TextUnit::Encoded(_, _) => 3,
        }
    }

    /// Whether the two units have the same bytes.
    pub fn is(self, other: TextUnit) -> bool
        ensures { result ≡ unit_eq self other }
    {
        match (self, other) {
            (TextUnit::Byte(byte), TextUnit::Byte(wanted)) => byte == wanted,
            (TextUnit::Encoded(high, low), TextUnit::Encoded(top, bottom)) => high == top
                && low == bottom,
            _ => false,
        }
    }

    /// The unit as it is compared: in ASCII lower case, unless the case of letters counts.
    pub fn compared(self, case_sensitive: bool) -> TextUnit
        ensures { result ≡ compared case_sensitive self }
    {
        if case_sensitive {
            return self;
        }
        match self {
            TextUnit::Byte(byte) => TextUnit::Byte(byte.to_ascii_lowercase()),
            TextUnit::Encoded(high, low) => {
                TextUnit::Encoded(high.to_ascii_lowercase(), low.to_ascii_lowercase())
            }
        }
    }
}

// Whether `%` and two hexadecimal digits stand at `at`.
fn is_encoded_at(text: &[u8], at: usize) -> bool
    requires { at < length text.now }
    ensures { result ≡ is_encoded_at text.now at }
{
    text[at] == b'%'
        && text.len() - at > 2
        && text[at + 1].is_ascii_hexdigit()
        && text[at + 2].is_ascii_hexdigit()
}

/// The first unit of the text from `at` on.
pub fn unit_at(text: &[u8], at: usize) -> TextUnit
    requires { at < length text.now }
    ensures first { units (drop at text.now) ≡
        result ∷ units (drop (at + length (bytes_of result)) text.now) }
    ensures within { at + length (bytes_of result) ≤ length text.now }
{
    if is_encoded_at(text, at) {
        TextUnit::Encoded(text[at + 1], text[at + 2])
    } else {
        TextUnit::Byte(text[at])
    }
}
