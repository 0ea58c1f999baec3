//! The reader of the place file.

ghost use Rattle.std.specs.Prelude.{◌≡◌, ◌≢◌, ◌≤◌, length, Err, IfOk};
ghost use Rattle.std.specs.Io.KnownBytes.{Consumes, IsAtEnd};
ghost use Rattle.tcp_door.specs.declared.place_file.TheConstants.{PLACES_MAX};

use doors::OutsideFault;
use listing::Text;
use std::alloc::Global;
use std::fs;
use std::io::Read;
use std::rt::Files;

/// The most bytes of a place file.
pub const PLACES_MAX: usize = 67_108_864;

/// How many bytes are read at once.
const PIECE: usize = 4_096;

/// How often a file is read at most.
const MOST_READS: u64 = u64::MAX;

// the text of the file of this name
pub(crate) fn read_file<F: Files>(
    files: &F,
    alloc: Global,
    name: &[u8],
) -> Result<Text, OutsideFault>
    ensures most { IfOk result (λ text. length text ≤ PLACES_MAX) }
    ensures named { result ≢ Err OutsideFault.BadAddress }
{
    let Ok(name) = str::from_utf8(name) else {
        return Err(OutsideFault::Failed);
    };
    match fs::open(files, name) {
        Ok(mut file) => read_text(alloc, &mut file),
        Err(_) => Err(OutsideFault::Failed),
    }
}

// all that is left of the reader, where that is not too much
pub(crate) fn read_text<R: Read>(alloc: Global, reader: &mut R) -> Result<Text, OutsideFault>
    ensures whole { IfOk result (λ text. Consumes (R.remaining reader.old) (R.remaining reader.new) text
        × IsAtEnd (R.remaining reader.new)) }
    ensures most { IfOk result (λ text. length text ≤ PLACES_MAX) }
    ensures named { result ≢ Err OutsideFault.BadAddress }
{
    let mut text = Vec::new(alloc);
    let mut piece = [0u8; PIECE];
    'pieces: for _ in 0..MOST_READS {
        match reader.read(&mut piece) {
            Ok(0) => return Ok(Text::from_vec(text)),
            Ok(count) => {
                if count > PLACES_MAX - text.len() {
                    return Err(OutsideFault::Failed);
                }
                match text.extend_from_slice(&piece[..count]) {
                    Ok(()) => {}
                    Err(_) => return Err(OutsideFault::Memory),
                }
            }
            Err(_) => return Err(OutsideFault::Failed),
        }
    }
    Err(OutsideFault::Failed)
}
