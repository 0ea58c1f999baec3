//! The capabilities that are advertised (RFC 8008, section 5) whatever the fields of log files are.

ghost use Rattle.std.specs.Prelude.{◌≡◌, ◌++◌, true};
ghost use Rattle.serde_json.specs.Data.{Members};
ghost use Rattle.serde_json.specs.Written.{compact_text, members_text};
ghost use Rattle.footprints.specs.Advertisement.{capability_object};

use targets::Protocol;

/// A capability that is advertised, whatever the fields of log files are.
#[derive(Clone, Copy)]
pub(crate) enum Capability {
    /// The protocols by which content is delivered.
    DeliveryProtocol(Protocol),
    /// The protocols by which content is acquired.
    AcquisitionProtocol,
    /// The generic metadata that is enforced.
    Metadata,
}

impl Capability {
    /// The JSON text of the capability up to the end of its value, behind which further members may stand.
    #[tactic(auto, unfolding(json::specs::Print::escape_byte))]
    pub(crate) fn front(self) -> &'static str
        ensures { (others : Members) → result.now ++ members_text true others
            ≡ compact_text (capability_object self others) }
    {
        match self {
            Capability::DeliveryProtocol(Protocol::Http) => concat!(
                r#"{"capability-type":"FCI.DeliveryProtocol","capability-value":"#,
                r#"{"delivery-protocols":["http/1.1"]}"#,
            ),
            Capability::DeliveryProtocol(Protocol::Https) => concat!(
                r#"{"capability-type":"FCI.DeliveryProtocol","capability-value":"#,
                r#"{"delivery-protocols":["https/1.1"]}"#,
            ),
            Capability::AcquisitionProtocol => concat!(
                r#"{"capability-type":"FCI.AcquisitionProtocol","capability-value":"#,
                r#"{"acquisition-protocols":["http/1.1"]}"#,
            ),
            Capability::Metadata => concat!(
                r#"{"capability-type":"FCI.Metadata","capability-value":"#,
                r#"{"metadata":["MI.SourceMetadata","MI.LocationACL","#,
                r#""MI.TimeWindowACL","MI.ProtocolACL","MI.Cache","MI.Grouping"]}"#,
            ),
        }
    }
}
