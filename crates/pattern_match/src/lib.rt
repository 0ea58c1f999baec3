//! Patterns of paths, by which an upstream CDN says what a rule or an invalidation is for (RFC 8006, section
//! 4.1.5, PatternMatch).
#![tactic(auto)]

pub mod laws;
mod pattern;
pub mod plain;
mod tokens;
mod units;
mod walk;

pub use pattern::{MAX_PATTERN_LEN, Pattern, PatternFault};
pub use tokens::Token;
pub use units::TextUnit;
