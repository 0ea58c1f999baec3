//! How a request is to be answered and recorded.

use byte_range::Want;
use cdni_base::Moment;
use cdni_log::ExtraList;

/// How a request is to be answered, and what its record has of its head.
#[derive(Drop)]
pub struct Manner {
    /// Whether the answer has no body, since the method is HEAD.
    pub is_head: bool,
    /// Which part of the body is asked for.
    pub want: Want,
    /// When the request was read.
    pub moment: Moment,
    /// Whether the answer says that the connection closes.
    pub closes: bool,
    /// Whether the connection closes by the request.
    pub leaves: bool,
    /// The values of the header fields that are logged, in the order of the fields (RFC 7937, section 3.4.1).
    pub extra: ExtraList,
}
