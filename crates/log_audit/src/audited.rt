//! What is told of a log file.

use cdni_log::FieldList;
use listing::TextList;

/// What is told of a log file that is whole, well formed and unchanged.
#[derive(Drop)]
pub struct Audited {
    /// The fields of its records, in the file's order.
    pub fields: FieldList,
    /// The line of each record, without its CR LF.
    pub records: TextList,
    /// The sum of `sc-total-bytes`, in bytes; 0 where it is no field.
    pub total: u128,
    /// The sum of `sc-entity-bytes`, in bytes; 0 where it is no field.
    pub entity: u128,
    /// How many records have `1` in `s-cached`; 0 where it is no field.
    pub cached: u64,
}
