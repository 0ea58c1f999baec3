//! Tests of real streams and clocks, of messages of HTTP, of exchanges with origins and of metadata that is gathered. There
//! is no code beside them.
#![tactic(auto)]

#[cfg(test)]
mod exchanges;
#[cfg(test)]
mod links;
#[cfg(test)]
mod messages;
#[cfg(test)]
mod streams;
