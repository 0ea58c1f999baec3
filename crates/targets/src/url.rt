//! URLs, made of their parts (RFC 3986, section 5.3).

ghost use Rattle.std.specs.Prelude.{◌≡◌, ◌++◌, IfOk, OnOk};
ghost use Rattle.targets.specs.Target.{scheme_text, port_text, query_text, url_of};

use crate::byte::QUESTION;
use crate::host_name::HostName;
use crate::target::HTTP_PORT;
use itoa::Buffer;
use listing::Text;
use std::alloc::{AllocError, Global};

/// The URL of these parts: `http://` or, where `secure` is true, `https://`, the host, `:` and the port where it is
/// not 80, the path, and `?` and the query where there is one.
///
/// # Errors
/// Want of memory.
pub fn url_of(
    alloc: Global,
    secure: bool,
    host: &HostName,
    port: u16,
    path: &Text,
    query: &Option<Text>,
) -> Result<Text, AllocError>
    ensures { IfOk result (λ text. text ≡ url_of secure host.now port path.now query.now) }
{
    let mut url = Vec::with_capacity(alloc, url_room(host, path, query))?;
    add_url(&mut url, secure, host, port, path, query)?;
    Ok(Text::from_vec(url))
}

/// Adds the URL of these parts.
///
/// # Errors
/// Want of memory.
pub fn add_url(
    url: &mut Vec<u8>,
    secure: bool,
    host: &HostName,
    port: u16,
    path: &Text,
    query: &Option<Text>,
) -> Result<(), AllocError>
    ensures { OnOk result (url.new.items ≡ url.old.items ++ url_of secure host.now port path.now query.now) }
{
    url.extend_from_slice(scheme_text(secure))?;
    url.extend_from_slice(host.bytes())?;
    add_port(url, port)?;
    url.extend_from_slice(path.bytes())?;
    add_query(url, query)
}

/// Room for a URL of these parts, in bytes: as many as it has or a few more.
pub fn url_room(host: &HostName, path: &Text, query: &Option<Text>) -> usize {
    let query = match query {
        Some(query) => query.bytes().len(),
        None => 0,
    };
    "https://:65535?"
        .len()
        .saturating_add(host.bytes().len())
        .saturating_add(path.bytes().len())
        .saturating_add(query)
}

fn scheme_text(secure: bool) -> &'static [u8]
    ensures { result.now ≡ scheme_text secure }
{
    if secure { b"https://" } else { b"http://" }
}

fn add_port(url: &mut Vec<u8>, port: u16) -> Result<(), AllocError>
    ensures { OnOk result (url.new.items ≡ url.old.items ++ port_text port) }
{
    if port == HTTP_PORT {
        return Ok(());
    }
    let mut digits = Buffer::new();
    url.extend_from_slice(b":")?;
    url.extend_from_slice(digits.format(port).as_bytes())
}

fn add_query(url: &mut Vec<u8>, query: &Option<Text>) -> Result<(), AllocError>
    ensures { OnOk result (url.new.items ≡ url.old.items ++ query_text query.now) }
{
    match query {
        Some(query) => {
            url.push(QUESTION)?;
            url.extend_from_slice(query.bytes())
        }
        None => Ok(()),
    }
}
