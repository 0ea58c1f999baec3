//! Tests of doors in memory and over TCP, and of the words of `serve`. The program itself says where they are.
#![tactic(auto)]

#[cfg(test)]
mod commands;
#[cfg(test)]
mod memory;
#[cfg(test)]
mod over_tcp;

use std::io;

fn main(rt: HostRuntime) -> io::Result<()> {
    println!(rt; "door_tests: `rt test` runs its tests")
}
