//! What a run over a capture comes to, as definitions alone: its records under the versions of a list, which lists it may have, what is
//! counted, and what it forwards. No thread, worker or ring occurs in them.
//!
//! Where to begin: `specs/Whole.antt`, over the records of `lane_core`. The crates of workers promise what stands here.
#![tactic(auto)]
