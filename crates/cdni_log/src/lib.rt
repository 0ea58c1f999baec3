//! Log files of the requests that were served (RFC 7937, section 3).
#![tactic(auto)]

mod date;
mod extra;
mod field;
mod field_list;
mod file;
pub mod laws;
mod line;
pub mod numbers;
mod record;
mod row;

pub use extra::{Extra, ExtraList, logged_value};
pub use field::{Field, FieldNameFault};
pub use field_list::{FieldList, default_fields, read_fields};
pub use file::file_text;
pub use row::{FileHead, Row, RowList};
