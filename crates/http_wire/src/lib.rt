//! Messages of HTTP/1.1 as bytes (RFC 9112): heads and bodies are read from a source.
#![tactic(auto)]

mod body;
mod chunked;
mod fields;
mod head;
mod inbox;
mod limits;
pub mod numbers;
mod reading;
mod response;

pub use body::{BodyRead, Framing, body_of, read_length, read_to_end};
pub use chunked::read_chunked;
pub use fields::{Found, Header};
pub use head::{Head, read_head};
pub use inbox::{Filled, Inbox};
pub use limits::{FEEDS_MAX, FIELDS_MAX, HEAD_MAX};
pub use reading::HeadRead;
pub use response::{ResponseHead, read_response_head};
