//! What is answered to requests of the upstream CDN.

use answer_head::Made;
use cdni_base::{Text, TypeName};

/// What a request of the upstream CDN made, and its number.
#[derive(Clone, Copy, Debug, PartialEq, Eq)]
pub struct MadeAt {
    pub made: Made,
    pub number: u64,
}

/// What is answered to a request of the upstream CDN.
#[derive(Drop)]
pub struct ControlAnswer {
    /// The status: one that is answered.
    pub status: u16,
    /// The type of the text; empty where there is no text.
    pub kind: TypeName,
    pub text: Text,
    /// What was made, which Location names.
    pub made: Option<MadeAt>,
}
