//! The request of an exchange (RFC 9112, sections 2.1 and 3).

ghost use Rattle.std.specs.Prelude.{◌≡◌, ◌++◌, IfOk, OnOk};
ghost use Rattle.upstream_http.specs.Request.{request_text, port_text};

use itoa::Buffer;
use std::alloc::{AllocError, Global};
use upstream_gate::Ask;

// the bytes of the request: its line, Host, Accept-Encoding, Connection and the empty line
#[tactic(auto, unfolding(crate::specs::Request::request_text))]
pub(crate) fn request_text(alloc: Global, ask: &Ask) -> Result<Vec<u8>, AllocError>
    ensures { IfOk result (λ text. text.items ≡ request_text ask.now) }
{
    let mut text = Vec::new(alloc);
    text.extend_from_slice(b"GET ")?;
    text.extend_from_slice(ask.target.bytes())?;
    text.extend_from_slice(b" HTTP/1.1\r\n")?;
    text.extend_from_slice(b"Host: ")?;
    text.extend_from_slice(ask.endpoint.host.bytes())?;
    add_port(&mut text, ask.endpoint.port)?;
    text.extend_from_slice(b"\r\n")?;
    text.extend_from_slice(b"Accept-Encoding: identity\r\n")?;
    text.extend_from_slice(b"Connection: close\r\n")?;
    text.extend_from_slice(b"\r\n")?;
    Ok(text)
}

fn add_port(text: &mut Vec<u8>, port: Option<u16>) -> Result<(), AllocError>
    ensures { OnOk result (text.new.items ≡ text.old.items ++ port_text port) }
{
    match port {
        Some(port) => {
            let mut digits = Buffer::new();
            text.extend_from_slice(b":")?;
            text.extend_from_slice(digits.format(port).as_bytes())
        }
        None => Ok(()),
    }
}
