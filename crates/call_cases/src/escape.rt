//! Bytes as the lines of cases have them: a printable character stands for itself, and between `<` and `>` stands `n`, `r`
//! or `t` for a line's end, a carriage return or a tab, `x` and two hexadecimal digits for a byte, or a number, `*` and a
//! text that is repeated so often.

use anyhow::bail;
use std::alloc::{AllocError, Global};

// adds what stands between `<` and `>`
fn add_escaped(bytes: &mut Vec<u8>, code: &str) -> anyhow::Result<()> {
    match code {
        "n" => bytes.push(b'\n')?,
        "r" => bytes.push(b'\r')?,
        "t" => bytes.push(b'\t')?,
        _ => add_coded(bytes, code)?,
    }
    Ok(())
}

// adds a byte by its digits, or what is repeated
fn add_coded(bytes: &mut Vec<u8>, code: &str) -> anyhow::Result<()> {
    if let Some(digits) = code.strip_prefix("x") {
        match u8::from_str_radix(digits, 16) {
            Ok(byte) => bytes.push(byte)?,
            Err(_) => bail!("no hexadecimal digits"),
        }
        return Ok(());
    }
    let Some((times, text)) = code.split_once('*') else {
        bail!("no escape");
    };
    let Ok(times) = times.parse::<u16>() else {
        bail!("no number");
    };
    for _ in 0..times {
        bytes.extend_from_slice(text.as_bytes())?;
    }
    Ok(())
}

/// The bytes that this text stands for.
pub fn read(alloc: Global, text: &str) -> anyhow::Result<Vec<u8>> {
    let mut bytes = Vec::new(alloc);
    for (place, part) in text.split('<').enumerate() {
        if place == 0 {
            bytes.extend_from_slice(part.as_bytes())?;
            continue;
        }
        let Some((code, rest)) = part.split_once('>') else {
            bail!("an escape does not end");
        };
        add_escaped(&mut bytes, code)?;
        bytes.extend_from_slice(rest.as_bytes())?;
    }
    Ok(bytes)
}

/// Adds the text that stands for these bytes.
pub fn add(out: &mut String, bytes: &[u8]) -> Result<(), AllocError> {
    for byte in bytes {
        let byte = *byte;
        if byte < b' ' || byte > b'~' || byte == b'<' {
            write!(out, "<x{byte:02x}>")?;
        } else {
            out.push(char::from(byte))?;
        }
    }
    Ok(())
}

/// The text that stands for these bytes.
pub fn shown(alloc: Global, bytes: &[u8]) -> Result<String, AllocError> {
    let mut out = String::new(alloc);
    add(&mut out, bytes)?;
    Ok(out)
}
