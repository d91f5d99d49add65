//! A run on several lanes that forwards: the records of a capture are written again, without those of dropped packets, while it
//! is read.
//!
//! Contract: `forward_lanes` writes the records of the packets that pass, as they were read and in their order, under versions
//! that it answers and that the run may have, whatever the order of the threads' steps; at an error a prefix of that is
//! written. The header of the capture is the caller's to write.
//! Begin with `specs/Forward.antt` and `src/lanes.rt`. The team has workers that answer (`src/make.rt`), and its feed
//! (`src/feed.rt`) is the stream of `forward_dispatch`, which has written all that leaves before the threads end;
//! `src/leave.rt` ends the lanes then, and `src/explain.rt` says what the answers are.
//! Tests: none of its own; `run_tests` (handing_on, failing) and `whole_runs` forward with several workers.
#![tactic(auto)]

mod explain;
mod feed;
mod lanes;
mod leave;
mod make;

pub use lanes::forward_lanes;
