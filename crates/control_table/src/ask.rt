//! What a request asks for.

ghost use Rattle.std.specs.Prelude.{◌≡◌};
ghost use Rattle.control_table.specs.Ask.{IsAskedAt, ask_at, ask_by, ask_of_get};
ghost use Rattle.control_table.specs.Path.{Fits, path_text};
ghost use Rattle.control_table.specs.declared.path.ControlPath.{ControlPath as Place};

use crate::path::{ControlPath, read_path};
use trigger_status::Filter;

/// What a request of the upstream CDN asks for.
#[derive(Clone, Copy, Debug, PartialEq, Eq)]
pub enum ControlAsk {
    /// Nothing stands at the path.
    Absent,
    /// Something stands at the path, for other methods.
    WrongMethod,
    /// A trigger command is given (RFC 8007, section 4.1).
    Command,
    /// A collection of triggers is read (RFC 8007, section 4.2).
    List { filter: Filter },
    /// The status of this trigger is read (RFC 8007, section 4.3).
    Status { id: u64 },
    /// This trigger is deleted (RFC 8007, section 4.5).
    Delete { id: u64 },
    /// The advertisement is read (RFC 8008).
    Advertise,
    /// The records of deliveries are cut into a log file (RFC 7937).
    Cut,
    /// The numbers of the log files are read.
    ListLogs,
    /// This log file is read.
    ReadLog { number: u64 },
    /// This log file is dropped.
    DropLog { number: u64 },
}

/// What a request of this method asks for at this path, by the table of both.
pub fn control_ask(method: &[u8], path: &[u8]) -> ControlAsk
    ensures asked { IsAskedAt method.now path.now result }
    ensures complete { (place : Place) → Fits place → path.now ≡ path_text place → result ≡ ask_at place method.now }
{
    match read_path(path) {
        Some(place) => ask_at(place, method),
        None => ControlAsk::Absent,
    }
}

// what a method asks for at a path at which something stands
fn ask_at(place: ControlPath, method: &[u8]) -> ControlAsk
    ensures { result ≡ ask_at place method.now }
{
    match place {
        ControlPath::Triggers { filter } => ask_of_triggers(filter, method),
        ControlPath::Trigger { id } => {
            ask_by(
                method,
                b"DELETE",
                ControlAsk::Delete { id },
                ControlAsk::Status { id },
            )
        }
        ControlPath::Advertisement => ask_of_get(method, ControlAsk::Advertise),
        ControlPath::Logs => ask_by(method, b"POST", ControlAsk::Cut, ControlAsk::ListLogs),
        ControlPath::Log { number } => ask_by(
            method,
            b"DELETE",
            ControlAsk::DropLog { number },
            ControlAsk::ReadLog { number },
        ),
    }
}

// of the collections, that of all triggers takes commands
fn ask_of_triggers(filter: Filter, method: &[u8]) -> ControlAsk
    ensures { result ≡ ask_at (Place.Triggers filter) method.now }
{
    match filter {
        Filter::All => ask_by(
            method,
            b"POST",
            ControlAsk::Command,
            ControlAsk::List { filter },
        ),
        Filter::Pending | Filter::Active | Filter::Complete | Filter::Failed => {
            ask_of_get(method, ControlAsk::List { filter })
        }
    }
}

// this method asks for the first, and GET for the second
fn ask_by(method: &[u8], other: &[u8], first: ControlAsk, second: ControlAsk) -> ControlAsk
    ensures { result ≡ ask_by method.now other.now first second }
{
    if method == other {
        first
    } else {
        ask_of_get(method, second)
    }
}

// only GET asks for something
fn ask_of_get(method: &[u8], asked: ControlAsk) -> ControlAsk
    ensures { result ≡ ask_of_get method.now asked }
{
    if method == b"GET".as_slice() {
        asked
    } else {
        ControlAsk::WrongMethod
    }
}
