//! Tests of whole runs that no file in and no file out shows: each read, write and fetch that fails in turn (`failing`), a
//! source that gives a few bytes a read (`pieces`), when a forwarded capture is handed on (`handing_on`), threads that are held
//! side by side (`held_threads`), a command that may come at any moment (`live_commands`), as many packets as a capture may
//! have (`many_packets`), and the line that tells a refusal (`refusals`).
//!
//! Crates tested: `mos_run`, and through it `capture_replay`, `forward_run`, `forward_dispatch` and `parallel_report`.
//! Begin with `runs`, which runs over any source and output; `traffic` and `watched` are what the others are given.
#![tactic(auto)]

#[cfg(test)]
mod failing;
#[cfg(test)]
mod handing_on;
#[cfg(test)]
mod held_threads;
#[cfg(test)]
mod live_commands;
#[cfg(test)]
mod many_packets;
#[cfg(test)]
mod pieces;
#[cfg(test)]
mod refusals;
#[cfg(test)]
mod runs;
#[cfg(test)]
mod traffic;
#[cfg(test)]
mod watched;
