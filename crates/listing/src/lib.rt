//! The lists that all other crates use: a text of bytes and a list of items, each seen as a list; a list with reserved
//! places; and lists of rules that allow and deny. And the numbers and words that are cut out of a line of bytes.
#![tactic(auto)]

mod first_match;
pub mod laws;
mod list;
mod number;
pub mod numbers;
mod reserved_list;
mod shared_bytes;
mod short_bytes;
mod text;
mod word;

pub use first_match::{AccessList, AccessRule};
pub use list::Listing;
pub use number::{read_decimal, read_digits};
pub use reserved_list::ReservedList;
pub use shared_bytes::SharedBytes;
pub use text::Text;
pub use word::{cut_at, shared_parts};

/// A list of texts.
pub type TextList = Listing<Text>;

/// Milliseconds since the beginning of 1970, UTC.
pub type Moment = u64;
