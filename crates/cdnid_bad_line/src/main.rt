//! The program `cdnid` once more, so that the gate sees it end with status 1: a line of its script is none.
#![tactic(auto)]

use cascade_link::TcpLink;
use command_line::{exit_of, words_of};
use edge_base::{StdSink, StdSource};
use std::process::ExitCode;
use tcp_door::{StdOutside, WAITS};

fn main(rt: HostRuntime) -> ExitCode {
    exit_of(
        &rt,
        rt.alloc(),
        words_of(&rt),
        &mut StdSource::new(rt.stdin()),
        &mut StdSink::new(rt.stdout()),
        &mut StdSink::new(rt.stderr()),
        &mut StdOutside::new(rt, WAITS),
        &mut TcpLink::new(rt, WAITS),
    )
}
