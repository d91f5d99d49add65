//! The program `mos`: replays the capture on standard input as its words say, and prints what they ask for. It is one call of
//! `mos_program::run_process` over the standard streams, and its exit status is the run's.
//!
//! Begin with `mos_program`.
//! Tests: none of its own; `whole_runs` makes the same call at its end, and `examples/check` runs the built program.
#![tactic(auto)]

use mos_program::run_process;
use std::process::ExitCode;

fn main(rt: HostRuntime) -> ExitCode {
    run_process(rt, rt.stdin(), rt.stdout(), rt.stderr())
}
