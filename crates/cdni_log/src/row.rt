//! What a log file is made of.

use crate::extra::ExtraList;
use crate::field_list::FieldList;
use listing::{Moment, ReservedList, Text};

/// What is recorded of one request that was served (RFC 7937, section 3.4.1).
#[derive(Clone, Drop)]
pub struct Row {
    /// When the delivery was admitted, in milliseconds since 1970 UTC.
    pub admitted: Moment,
    /// When it was finished, in milliseconds since 1970 UTC.
    pub finished: Moment,
    /// The number of the client's autonomous system, where it is known.
    pub asn: Option<u32>,
    pub method: Text,
    /// The URL that was asked for.
    pub uri: Text,
    /// The status code of the answer.
    pub status: u16,
    /// How many bytes were sent, the head of the answer included.
    pub total: u64,
    /// How many bytes of the body were sent.
    pub entity: u64,
    /// The collection that the content is of, where it is of one.
    pub ccid: Option<Text>,
    /// Whether the content was kept when it was asked for.
    pub cached: bool,
    /// The values of those headers of the request that are fields of the file, in the order of these fields.
    pub extra: ExtraList,
}

/// A list of rows, in the order of their deliveries' ends, with places that are reserved for more.
pub type RowList = ReservedList<Row>;

/// What tells one log file from another.
#[derive(Clone, Drop)]
pub struct FileHead {
    /// The number of the file.
    pub number: u64,
    /// When the file was cut, in milliseconds since 1970 UTC.
    pub moment: Moment,
    /// The host of the CDN that claims to have logged (RFC 7937, section 3.3).
    pub origin: Text,
    /// The fields of each record, in their order.
    pub fields: FieldList,
}
