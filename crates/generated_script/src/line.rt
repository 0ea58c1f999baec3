//! The lines of a generated script.

ghost use Rattle.std.specs.Prelude.{◌≡◌, ◌++◌, OnOk, decimal};
ghost use Rattle.generated_script.specs.Line.{line, get_line, got_line, finish_line, command_line, advance_line, delete_line, cut_line, droplog_line, first_lines};

use itoa::Buffer;
use std::alloc::AllocError;

/// The first lines: limits, and metadata by which one source serves `v.example`.
const FIRST_LINES: &[u8] = b"limits 65536 100000 10000 64 60000 4611686018427387904\n\
    0 1000 refresh\n\
    0 1000 meta 1 http://up.example/i {\"hosts\":[{\"host\":\"v.example\",\"host-metadata\":{\"metadata\":[\
    {\"generic-metadata-type\":\"MI.SourceMetadata\",\"generic-metadata-value\":\
    {\"sources\":[{\"endpoints\":[\"o.example\"],\"protocol\":\"http/1.1\"}]}}]}}]}\n";

/// What a request says before its path.
const GET: &[u8] = b" get GET http/1.1 192.0.2.7 as64496 us http://v.example/o/";

/// What a command says before its path.
const COMMAND: &[u8] =
    b" command {\"cdn-path\":[\"AS64500:0\"],\"trigger\":{\"content.urls\":[\"http://v.example/o/";

/// What a command says behind its path.
const PURGE: &[u8] = b"\"],\"type\":\"purge\"}}\n";

// adds the first lines
#[tactic(auto, unfolding(crate::specs::Line::first_lines))]
pub(crate) fn put_first_lines(out: &mut Vec<u8>) -> Result<(), AllocError>
    ensures { OnOk result (out.new.items ≡ out.old.items ++ first_lines) }
{
    out.extend_from_slice(FIRST_LINES)
}

// adds a request for the path of this number
pub(crate) fn put_get(
    out: &mut Vec<u8>,
    pass: u32,
    moment: u32,
    path: u32,
) -> Result<(), AllocError>
    ensures { OnOk result (out.new.items ≡ out.old.items ++ get_line pass moment path) }
{
    put_line(out, pass, moment, GET, path, b"\n")
}

// adds the answer to the fetch of this number
pub(crate) fn put_got(
    out: &mut Vec<u8>,
    pass: u32,
    moment: u32,
    fetch: u32,
) -> Result<(), AllocError>
    ensures { OnOk result (out.new.items ≡ out.old.items ++ got_line pass moment fetch) }
{
    put_line(out, pass, moment, b" got ", fetch, b" 200 - 61\n")
}

// adds the end of the delivery of this number
pub(crate) fn put_finish(
    out: &mut Vec<u8>,
    pass: u32,
    moment: u32,
    delivery: u32,
) -> Result<(), AllocError>
    ensures { OnOk result (out.new.items ≡ out.old.items ++ finish_line pass moment delivery) }
{
    put_line(out, pass, moment, b" finish ", delivery, b" 200 1 1\n")
}

// adds a command to purge the path of this number
pub(crate) fn put_command(out: &mut Vec<u8>, moment: u32, path: u32) -> Result<(), AllocError>
    ensures { OnOk result (out.new.items ≡ out.old.items ++ command_line moment path) }
{
    put_line(out, 0, moment, COMMAND, path, PURGE)
}

// adds a step of the trigger of this number
pub(crate) fn put_advance(out: &mut Vec<u8>, moment: u32, trigger: u32) -> Result<(), AllocError>
    ensures { OnOk result (out.new.items ≡ out.old.items ++ advance_line moment trigger) }
{
    put_line(out, 0, moment, b" advance ", trigger, b"\n")
}

// adds the deletion of the trigger of this number
pub(crate) fn put_delete(out: &mut Vec<u8>, moment: u32, trigger: u32) -> Result<(), AllocError>
    ensures { OnOk result (out.new.items ≡ out.old.items ++ delete_line moment trigger) }
{
    put_line(out, 0, moment, b" delete ", trigger, b"\n")
}

// adds that a log file is cut
pub(crate) fn put_cut(out: &mut Vec<u8>, moment: u32) -> Result<(), AllocError>
    ensures { OnOk result (out.new.items ≡ out.old.items ++ cut_line moment) }
{
    put(out, b"0 ")?;
    put_number(out, moment)?;
    put(out, b" cut\n")
}

// adds that the log file of this number is dropped
pub(crate) fn put_droplog(out: &mut Vec<u8>, moment: u32, file: u32) -> Result<(), AllocError>
    ensures { OnOk result (out.new.items ≡ out.old.items ++ droplog_line moment file) }
{
    put_line(out, 0, moment, b" droplog ", file, b"\n")
}

// adds a line of this pass at this moment, which says these words, a number, and the rest
fn put_line(
    out: &mut Vec<u8>,
    pass: u32,
    moment: u32,
    words: &[u8],
    number: u32,
    rest: &[u8],
) -> Result<(), AllocError>
    ensures { OnOk result (out.new.items ≡ out.old.items ++ line pass moment words.now number rest.now) }
{
    put_number(out, pass)?;
    out.push(b' ')?;
    put_number(out, moment)?;
    put(out, words)?;
    put_number(out, number)?;
    put(out, rest)
}

// adds the bytes, of which there is often one
#[inline(always)]
fn put(out: &mut Vec<u8>, bytes: &[u8]) -> Result<(), AllocError>
    ensures { OnOk result (out.new.items ≡ out.old.items ++ bytes.now) }
{
    if let [byte] = bytes {
        out.push(*byte)?;
        return Ok(());
    }
    out.extend_from_slice(bytes)
}

// adds the digits of a number, of which there is often one
#[inline(always)]
fn put_number(out: &mut Vec<u8>, number: u32) -> Result<(), AllocError>
    ensures { OnOk result (out.new.items ≡ out.old.items ++ decimal number) }
{
    if number < 10 {
        out.push(b'0' + number as u8)?;
        return Ok(());
    }
    let mut digits = Buffer::new();
    out.extend_from_slice(digits.format(number).as_bytes())
}
