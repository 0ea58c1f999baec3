//! Reading the fields of a JSON value, with the place and the cause of the first fault.
//! A place is a JSON pointer (RFC 6901).
#![tactic(auto)]

mod borrowed;
mod fault;
mod field;
mod path;
mod readers;
mod text;
mod value;

pub use borrowed::parse_borrowed;
pub use fault::{FieldCause, FieldFault, JsonFault, ParseFault};
pub use field::{flag_at, list_at, maybe, need, text_at, whole_at};
pub use json::{Scratch as JsonScratch, Value as BorrowedValue};
pub use path::JsonPath;
pub use readers::{is_borrowed_json, is_json, readers_agree};
pub use serde_json::Value;
pub use text::parse;
pub use value::JsonValue;
