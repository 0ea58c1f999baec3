//! What a node is asked.

use cdni_base::{Asked, Moment};
use cdni_log::ExtraList;
use location_acl::Place;
use metadata_objects::Tree;
use trigger_command::{IdList, Spec};
use trigger_status::Filter;
use upstream_gate::Outcome;

/// A call of a node. Each is one step. Moments are in milliseconds since 1970 UTC.
#[derive(Drop)]
pub enum Call {
    /// The request of a client at this place would be delivered; its record has these values of header fields.
    Admit {
        asked: Asked,
        place: Place,
        extra: ExtraList,
        moment: Moment,
    },
    /// A fetch ended so.
    FetchEnd {
        fetch: u64,
        outcome: Outcome,
        moment: Moment,
    },
    /// A delivery was answered with this status; so many bytes were taken, and so many of them of the body.
    Finish {
        delivery: u64,
        status: u16,
        total: u64,
        entity: u64,
        moment: Moment,
    },
    /// A refresh of the metadata would begin.
    RefreshBegin {
        moment: Moment,
    },
    /// A refresh ended, with what was gathered, if it could be read.
    RefreshEnd {
        refresh: u64,
        tree: Option<Tree>,
        moment: Moment,
    },
    /// The upstream CDN commands a trigger.
    Command {
        spec: Spec,
        moment: Moment,
    },
    /// A trigger would make its next step.
    Advance {
        id: u64,
        moment: Moment,
    },
    /// The upstream CDN cancels triggers.
    Cancel {
        ids: IdList,
        moment: Moment,
    },
    /// The upstream CDN deletes a trigger.
    Delete {
        id: u64,
    },
    /// The upstream CDN reads a trigger's status.
    ReadStatus {
        id: u64,
    },
    /// The upstream CDN lists triggers.
    List {
        filter: Filter,
    },
    /// The unfiled rows would be cut into a log file.
    Cut {
        moment: Moment,
    },
    /// The upstream CDN reads a log file.
    LogFile {
        number: u64,
    },
    /// The upstream CDN lists the log files.
    ListLogs,
    /// The upstream CDN drops a log file.
    DropLog {
        number: u64,
    },
}
