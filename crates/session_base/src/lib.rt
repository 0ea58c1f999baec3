//! What the requests of a connection share (RFC 9112): what a session is told, how a head is read, what is written of an
//! answer, how metadata is gathered, and the calls that end what is open.
#![tactic(auto)]

mod answer_room;
mod clock;
mod constant;
mod control_answer;
mod delivery;
mod ending;
mod gathering;
mod manner;
mod request;
mod send;
mod settings;

pub use answer_room::AnswerRoom;
pub use clock::read_clock;
pub use constant::{Constant, fall_short, refuse};
pub use control_answer::{ControlAnswer, MadeAt};
pub use delivery::{end_fetch, end_open, end_refresh, finish};
pub use ending::{Ending, Next, next_of};
pub use footprints::AdvertSettings;
pub use gathering::{ask, gather};
pub use manner::Manner;
pub use request::{METHOD_MAX, read_request};
pub use send::Sent;
pub use settings::{Peer, Settings};
