//! Laws that join lanes, as contracts of functions that do nothing: what several lanes make of their shares of a capture's
//! packets, each with its own versions, is what one run makes of all packets under one list of versions. Nothing here runs.
//!
//! Most laws know of a record its version, its packets and whether it ended by idleness (`specs/Members.antt`), so they hold
//! for every way to tell when a connection ends; `specs/Histories.antt` ties them to the records of `lane_core`.
//! `specs/Whole.antt` is one run, `specs/Taken.antt` what its lanes come to.
//! Begin with `specs/Members.antt`, `specs/Lanes.antt`, `specs/Named.antt` and `specs/Allowed.antt`, then `src/shares.rt`,
//! `src/versions.rt` and `src/runs.rt`; for what lanes end with `src/ends.rt`, for a run that writes while it reads
//! `src/forward.rt` and `src/streaming.rt`.
//! Tests: none, since nothing runs.
#![tactic(auto)]

pub mod counts;
pub mod ends;
pub mod forward;
pub mod moments;
pub mod packets;
pub mod runs;
pub mod shares;
pub mod streaming;
pub mod verdicts;
pub mod versions;
