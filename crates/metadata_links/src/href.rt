//! What the `href` of a Link names (RFC 8006, section 4.3.1).

ghost use Rattle.std.specs.Prelude.{◌≡◌, ◌≤◌, IfOk, IsTrue, codes, length};
ghost use Rattle.targets.specs.Target.{begins_with};
ghost use Rattle.metadata_links.specs.Href.{base_of, named_by};

use cdni_base::{HTTP_PORT, Target, TargetFault};
use std::alloc::{AllocError, Global};

const SECURE: &[u8] = b"https://";

// the endpoint of a document, at which the paths in it are taken
pub(crate) fn base_of(alloc: Global, target: &Target) -> Result<Vec<u8>, AllocError>
    ensures { IfOk result (λ base. base.items ≡ base_of target.now) }
{
    let mut base = target.host.bytes().to_vec(alloc)?;
    if target.port != HTTP_PORT {
        let port = target.port;
        let text = format!(in alloc; ":{port}")?;
        base.extend_from_slice(text.as_bytes())?;
    }
    Ok(base)
}

// what an `href` names in a document of this endpoint: an absolute `http` URL, or a path at the endpoint
#[tactic(auto, unfolding(crate::specs::Href::named_by))]
pub(crate) fn named_by(
    alloc: Global,
    base: &[u8],
    href: &[u8],
) -> Result<Option<Target>, AllocError>
    ensures { IfOk result (λ found. found ≡ named_by base.now href.now) }
{
    if begins_with(href, SECURE) {
        return Ok(None);
    }
    match Target::read(alloc, href, Some(base), false) {
        Ok(target) => Ok(Some(target)),
        Err(TargetFault::Memory) => Err(AllocError),
        Err(_) => Ok(None),
    }
}

// whether the text begins with this word, in any case
fn begins_with(text: &[u8], word: &[u8]) -> bool
    ensures { result ≡ begins_with word.now text.now }
{
    word.len() <= text.len() && text[..word.len()].eq_ignore_ascii_case(word)
}
