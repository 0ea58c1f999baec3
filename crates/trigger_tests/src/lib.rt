//! Tests of trigger commands, status resources, the triggers that are kept and their starts. There is no code beside them.
#![tactic(auto)]

#[cfg(test)]
mod commands;
#[cfg(test)]
mod starts;
#[cfg(test)]
mod statuses;
#[cfg(test)]
mod table;
