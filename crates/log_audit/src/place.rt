//! The places of a log file's lines.

use cdni_log::FieldList;

/// What the next line of a log file is to be (RFC 7937, sections 3.3 and 3.4).
#[derive(Drop)]
pub enum Place {
    /// The directive `version`.
    Version,
    /// The directive `UUID`.
    Uuid,
    /// The directive `claimed-origin`.
    Origin,
    /// The directive `record-type`.
    Kind,
    /// The directive `fields`.
    Fields,
    /// A record with these fields, or the directive `SHA256-hash`.
    Records(FieldList),
    /// None: the file has ended.
    End,
}
