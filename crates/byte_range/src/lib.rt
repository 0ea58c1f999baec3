//! Single ranges of bytes, as the value of a Range header asks for them (RFC 9110, section 14).
#![tactic(auto)]

pub mod laws;
mod put;
mod span;
mod want;

pub use put::put_range;
pub use span::{Span, resolve};
pub use want::{Want, number_of, read};
