//! Who knocks where nobody answers: the program `scans`, an application of its own over the stack of mos.
//!
//! A connection whose server never got to ESTABLISHED has three fields: how many SYNs its client sent, whether the server refused
//! by an RST, and whether it was silent.
#![tactic(auto)]

mod knocks;
mod laws;

use knocks::Scans;
use mos_program::run_own_process;
use std::process::ExitCode;

fn main(rt: HostRuntime) -> ExitCode {
    run_own_process(rt, Scans, rt.stdin(), rt.stdout(), rt.stderr())
}
