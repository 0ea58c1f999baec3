//! Heads of answers of HTTP/1.1 (RFC 9112), which are put into a scratch.
#![tactic(auto)]

mod answer;

pub use answer::{ANSWER_HEAD_MAX, Allow, AnswerHead, ContentRange, Location, Made, put_head};
