//! Tests of serving over real sockets, by several workers, and over one connection. The program itself says where they are.
#![tactic(auto)]

#[cfg(test)]
mod many_workers;
#[cfg(test)]
mod one_connection;
#[cfg(test)]
mod tests;

use std::io;

fn main(rt: HostRuntime) -> io::Result<()> {
    println!(rt; "serving_tests: `rt test` runs its tests")
}
