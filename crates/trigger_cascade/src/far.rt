//! The status of a trigger at another CDN.

ghost use Rattle.std.specs.Prelude.{◌≡◌, Some, IfOk, IfSome};
ghost use Rattle.serde_json.specs.View.{view};
ghost use Rattle.trigger_cascade.specs.Far.{far_in, far_name, far_of, far_of_value, is_final, HasStatus};

use json_read::{ParseFault, parse};
use serde_json::Value;
use std::alloc::{AllocError, Global};

/// The status of a trigger (RFC 8007, section 5.2.3).
#[derive(Clone, Copy, Debug, PartialEq, Eq)]
pub enum Far {
    Pending,
    Active,
    Complete,
    Processed,
    Failed,
    Cancelling,
    Cancelled,
}

impl Far {
    /// Whether no other status follows.
    pub fn is_final(self) -> bool
        ensures { result ≡ is_final self }
    {
        match self {
            Far::Complete | Far::Processed | Far::Failed | Far::Cancelled => true,
            Far::Pending | Far::Active | Far::Cancelling => false,
        }
    }

    /// The status in words.
    pub fn name(self) -> &'static [u8]
        ensures { result.now ≡ far_name self }
    {
        match self {
            Far::Pending => b"pending",
            Far::Active => b"active",
            Far::Complete => b"complete",
            Far::Processed => b"processed",
            Far::Failed => b"failed",
            Far::Cancelling => b"cancelling",
            Far::Cancelled => b"cancelled",
        }
    }
}

/// The status that a status resource shows (RFC 8007, section 5.1.2). `None` exactly where the body is no JSON object
/// whose `status` is one of the seven in lower case.
///
/// # Errors
/// Want of memory.
pub fn far_of(alloc: Global, body: &[u8]) -> Result<Option<Far>, AllocError>
    ensures value { IfOk result (λ far. far ≡ far_of body.now) }
    ensures status { IfOk result (λ found. IfSome found (λ far. HasStatus body.now far)) }
    ensures complete { (far : Far) → HasStatus body.now far → IfOk result (λ found. found ≡ Some far) }
{
    read_far(alloc, body)
}

#[tactic(auto, unfolding(crate::specs::Far::far_of))]
fn read_far(alloc: Global, body: &[u8]) -> Result<Option<Far>, AllocError>
    ensures { IfOk result (λ far. far ≡ far_of body.now) }
{
    match parse(alloc, body) {
        Ok(value) => Ok(far_of_value(&value)),
        Err(ParseFault::NotJson) => Ok(None),
        Err(ParseFault::Memory) => Err(AllocError),
    }
}

// the status of this value
fn far_of_value(value: &Value) -> Option<Far>
    ensures { result ≡ far_of_value (view value.now) }
{
    let Some(status) = value.get("status").and_then(Value::as_str) else {
        return None;
    };
    far_in(status)
}

// the status of this name
fn far_in(name: &str) -> Option<Far>
    ensures { result ≡ far_in name.now }
{
    if name == "pending" {
        Some(Far::Pending)
    } else if name == "active" {
        Some(Far::Active)
    } else if name == "complete" {
        Some(Far::Complete)
    } else if name == "processed" {
        Some(Far::Processed)
    } else if name == "failed" {
        Some(Far::Failed)
    } else if name == "cancelling" {
        Some(Far::Cancelling)
    } else if name == "cancelled" {
        Some(Far::Cancelled)
    } else {
        None
    }
}
