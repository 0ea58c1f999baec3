// The text of a part in an answer.
ghost use Rattle.std.specs.Prelude.{◌≡◌};
ghost use Rattle.cdni_base.specs.Scratch.{Puts};
ghost use Rattle.byte_range.specs.Put.{PutsFront, range_text};

use cdni_base::Scratch;

/// Puts the value of a Content-Range header for the part from `first` to `last` of a body of `len` bytes,
/// `bytes FIRST-LAST/LEN` (RFC 9110, section 14.4). False exactly where it does not fit; then nothing changes.
pub fn put_range(out: &mut Scratch, first: u64, last: u64, len: u64) -> bool
    ensures { Puts out.old out.new (range_text first last len) result }
{
    let before = out.bytes().len();
    if put_pieces(out, first, last, len) {
        return true;
    }
    out.truncate(before);
    false
}

// puts as many of the pieces as fit
fn put_pieces(out: &mut Scratch, first: u64, last: u64, len: u64) -> bool
    ensures { PutsFront out.old out.new (range_text first last len) result }
{
    out.append(b"bytes ")
        && out.append_number(first)
        && out.append(b"-")
        && out.append_number(last)
        && out.append(b"/")
        && out.append_number(len)
}
