//! What all log files of a node say at their top.

use cdni_base::Text;
use cdni_log::FieldList;

/// What each log file of a node says at its top, whichever file it is (RFC 7937, section 3.3).
#[derive(Clone, Drop)]
pub struct Heading {
    /// The host of the CDN that claims to have logged.
    pub origin: Text,
    /// The fields of the records, in their order.
    pub fields: FieldList,
}
