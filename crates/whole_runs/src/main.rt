//! Whole runs as files, from capture and script to output and status: a program that calls `run_program` over the files in
//! `data/`. It prints how many runs there were, and the name of each that differs from what is wanted.
//!
//! `data/cases` lists a run a line: capture, words, workers, and the status, output, versions and line on the error output that
//! are wanted. `data/cuts` lists captures that are cut off at each of their lengths. A new case is a new line and its files.
//! Then it is the program itself, under its own words and over its own streams: it forwards what a script lets pass of a
//! capture that is refused at its end, so its exit status is 3.
//! Begin with `data/cases` and `src/cases.rt`. Crates tested: `mos_program`, and all below it.
#![tactic(auto)]

mod cases;
mod cuts;
mod runs;
mod tally;
mod unread_words;

use crate::cases::run_cases;
use crate::cuts::run_cuts;
use crate::tally::Tally;
use crate::unread_words::run_unread_words;
use mos_program::run_process;
use std::io;
use std::process::ExitCode;
use std::rt::Files;
use std::sync::Wait;
use std::thread::Threads;

// Runs all that are listed, and prints what they came to.
fn run_listed<
    R: AllocGlobal + Files + Print + Threads + Wait + Sync + Send + Copy + Drop + 'static,
>(rt: &R) -> io::Result<()> {
    let mut tally = Tally::new();
    run_cases(rt, &mut tally)?;
    run_cuts(rt, &mut tally)?;
    run_unread_words(rt, &mut tally)?;
    tally.print(rt)
}

fn main(rt: HostRuntime) -> ExitCode {
    match run_listed(&rt) {
        Ok(()) => run_process(rt, rt.stdin(), rt.stdout(), rt.stderr()),
        Err(_) => ExitCode::FAILURE,
    }
}
