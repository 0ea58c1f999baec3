//! Decimal numbers.

ghost use Rattle.std.specs.Prelude.{◌≡◌, ℕ, ◌^◌, ◌<◌, Some, None, IfSome, decimal};
ghost use Rattle.listing.specs.Number.{number_of_digits, number_of, is_unpadded};

/// The number that `text` writes by decimal digits, of which there may be none and where zeros may lead.
/// `None` where another byte stands there, or the number is 2^64 or more.
pub fn read_digits(text: &[u8]) -> Option<u64>
    ensures { result ≡ number_of_digits text.now }
{
    let mut number: u64 = 0;
    'digits: for byte in text {
        if !byte.is_ascii_digit() {
            return None;
        }
        let Some(tens) = number.checked_mul(10) else {
            return None;
        };
        let Some(next) = tens.checked_add((*byte - 48) as u64) else {
            return None;
        };
        number = next;
    }
    Some(number)
}

/// The number below 2^64 whose decimal text, without leading zeros, is `text`, if there is one.
pub fn read_decimal(text: &[u8]) -> Option<u64>
    ensures value { result ≡ number_of text.now }
    ensures written { IfSome result (λ n. text.now ≡ decimal n) }
    ensures complete { (n : ℕ) → n < 2 ^ 64 → text.now ≡ decimal n → result ≡ Some n }
{
    if is_unpadded(text) {
        read_digits(text)
    } else {
        None
    }
}

// whether there is a byte, and the first is no `0` that leads others
fn is_unpadded(text: &[u8]) -> bool
    ensures { result ≡ is_unpadded text.now }
{
    !text.is_empty() && !(text[0] == 48 && text.len() > 1)
}
