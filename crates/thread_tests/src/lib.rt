//! Tests of the turn lock with threads, and of the gate and of the workers' connections over real ones. There is no code
//! beside them.
#![tactic(auto)]

#[cfg(test)]
mod hubs;
#[cfg(test)]
mod origins;
#[cfg(test)]
mod turns;
