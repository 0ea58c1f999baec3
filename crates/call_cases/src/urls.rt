//! Targets and their URLs, and what the keys of URLs have and share.

use crate::keys::key_of;
use crate::{escape, fields};
use anyhow::bail;
use cdni_base::{Target, TargetFault, laws};
use std::alloc::{AllocError, Global};

/// The answer, where the call is of a kind of this module.
pub fn answer(alloc: Global, kind: &[u8], inputs: &[Vec<u8>]) -> anyhow::Result<Option<String>> {
    Ok(Some(match kind {
        b"target" => target(alloc, inputs)?,
        b"target-fault" => target_fault(alloc, inputs)?,
        b"https-url" => https_url(alloc, fields::one(inputs)?)?,
        b"key" => key(alloc, fields::one(inputs)?)?,
        b"key-text" => key_text(alloc, inputs)?,
        b"key-is-of" => key_is_of(alloc, inputs)?,
        b"target-laws" => target_laws(alloc)?,
        b"key-laws" => key_laws(alloc)?,
        _ => return Ok(None),
    }))
}

// reads a URL; or a path with a host beside `http` or `https`
fn read(alloc: Global, inputs: &[Vec<u8>]) -> anyhow::Result<Result<Target, TargetFault>> {
    if inputs.len() == 1 {
        return Ok(Target::read(alloc, fields::one(inputs)?, None, false));
    }
    let (text, host, scheme) = fields::three(inputs)?;
    let is_secure = fields::is_second(scheme, b"http", b"https")?;
    Ok(Target::read(alloc, text, Some(host), is_secure))
}

/// The target of this URL.
pub fn target_of(alloc: Global, url: &[u8]) -> anyhow::Result<Target> {
    match Target::read(alloc, url, None, false) {
        Ok(target) => Ok(target),
        Err(_) => bail!("an input is no URL"),
    }
}

// the URL of the target beside `http`, or why there is no target
fn target(alloc: Global, inputs: &[Vec<u8>]) -> anyhow::Result<String> {
    match read(alloc, inputs)? {
        Ok(target) => Ok(url_of(alloc, &target, false)?),
        Err(fault) => Ok(format!(in alloc; "{fault:?}")?),
    }
}

fn url_of(alloc: Global, target: &Target, secure: bool) -> Result<String, AllocError> {
    escape::shown(alloc, target.url_text(alloc, secure)?.bytes())
}

// why there is no target
fn target_fault(alloc: Global, inputs: &[Vec<u8>]) -> anyhow::Result<String> {
    match read(alloc, inputs)? {
        Ok(_target) => Ok(fields::none(alloc)?),
        Err(fault) => Ok(format!(in alloc; "{fault:?}")?),
    }
}

// the URL of the target beside `https`
fn https_url(alloc: Global, url: &[u8]) -> anyhow::Result<String> {
    let target = target_of(alloc, url)?;
    Ok(url_of(alloc, &target, true)?)
}

// the text of a key beside `http` and with its query
fn key(alloc: Global, text: &[u8]) -> anyhow::Result<String> {
    let key = key_of(alloc, text)?;
    Ok(escape::shown(alloc, key.text(false, true))?)
}

// the text of a key beside `http` or `https`, and with its query or without it
fn key_text(alloc: Global, inputs: &[Vec<u8>]) -> anyhow::Result<String> {
    let (text, scheme, query) = fields::three(inputs)?;
    let key = key_of(alloc, text)?;
    let is_secure = fields::is_second(scheme, b"http", b"https")?;
    let has_query = fields::is_second(query, b"path", b"query")?;
    Ok(escape::shown(alloc, key.text(is_secure, has_query))?)
}

// whether a key is the one of a URL
fn key_is_of(alloc: Global, inputs: &[Vec<u8>]) -> anyhow::Result<String> {
    let (text, url) = fields::two(inputs)?;
    let key = key_of(alloc, text)?;
    let target = target_of(alloc, url)?;
    Ok(fields::flag(alloc, key.is_of(&target))?)
}

// The laws are contracts: to call them is to cite them.
fn target_laws(alloc: Global) -> Result<String, AllocError> {
    targets::laws::a_text_has_one_endpoint();
    targets::laws::a_text_has_one_target();
    targets::laws::a_url_is_read_again_as_its_target();
    String::from_str(alloc, "cited")
}

fn key_laws(alloc: Global) -> Result<String, AllocError> {
    laws::a_text_has_one_provider_id();
    laws::ignored_pieces_play_no_part_in_a_key();
    laws::kept_pieces_tell_keys_apart();
    String::from_str(alloc, "cited")
}
