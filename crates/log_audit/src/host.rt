//! Hosts (RFC 3986, section 3.2.2).

ghost use Rattle.std.specs.Prelude.{◌≡◌, ◌==◌, ◌<◌, ◌≤◌, ◌&&◌, IsTrue, length, nat_lt, slice_index};
ghost use Rattle.std.specs.List.{prefix_len};
ghost use Rattle.targets.specs.Endpoint.{is_address_byte, host_length};

use targets::name_length;

// the longest host
const HOST_MAX: usize = 255;

// whether the text is a host
pub(crate) fn is_host(text: &[u8]) -> bool
    ensures { result ≡ (nat_lt 0 (length text.now) && host_length text.now == length text.now) }
{
    !text.is_empty() && host_length(text) == text.len()
}

// the length of the longest host with which the text begins, 0 where there is none
#[tactic(auto, unfolding(targets::specs::Endpoint::host_length))]
pub(crate) fn host_length(text: &[u8]) -> usize
    ensures length { result ≡ host_length text.now }
    ensures within { result ≤ length text.now }
{
    if !begins_with_bracket(text) {
        return name_length(text).min(HOST_MAX);
    }
    let address = address_length(&text[1..]);
    if address > 0
        && address <= HOST_MAX - 2
        && address + 1 < text.len()
        && text[address + 1] == b']'
    {
        return address + 2;
    }
    0
}

fn begins_with_bracket(text: &[u8]) -> bool
    ensures bracket { result ≡ (slice_index text.now 0 == 91) }
    ensures there { IsTrue result → 0 < length text.now }
{
    !text.is_empty() && text[0] == b'['
}

// how many bytes of an address stand at the front
fn address_length(text: &[u8]) -> usize
    ensures length { result ≡ prefix_len is_address_byte text.now }
    ensures within { result ≤ length text.now }
{
    text.iter()
        .take_while(|byte| is_address_byte(**byte))
        .count()
}

fn is_address_byte(byte: u8) -> bool
    ensures { result ≡ is_address_byte byte }
{
    byte.is_ascii_hexdigit() || byte == b':' || byte == b'.'
}
