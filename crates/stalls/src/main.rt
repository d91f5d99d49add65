//! Where downloads stand still: the program `stalls`, an application of its own over the stack of mos.
//!
//! Each connection has four fields: how often its client and its server advertised a window of zero, how many packets arrived while
//! a window was closed, and how many brought bytes past the window.
#![tactic(auto)]

mod laws;
mod windows;

use mos_program::run_own_process;
use std::process::ExitCode;
use windows::Stalls;

fn main(rt: HostRuntime) -> ExitCode {
    run_own_process(rt, Stalls, rt.stdin(), rt.stdout(), rt.stderr())
}
