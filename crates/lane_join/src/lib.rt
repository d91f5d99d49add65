//! What lanes end with, made the end of one run. `join` makes one list by name of the records that they kept, and adds up what
//! is counted and weighed; `greatest_with` keeps the greatest moment of the packets that were read, which tells each lane what
//! is idle at the end.
//!
//! Contract: where the lanes are those of one run over all packets, `join` answers what that run comes to; `greatest_with` the
//! greatest moment with one packet more. The definitions and laws are those of `lane_composition`.
//! Begin with `join` in `src/ends.rt`, then `src/merging.rt` and `src/moments.rt`.
//! Tests: `worker_tests` (merging).
#![tactic(auto)]

mod ends;
mod merging;
mod moments;

pub use ends::{Joined, join};
pub use moments::{greatest_with, moment_of};
