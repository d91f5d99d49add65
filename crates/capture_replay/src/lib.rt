//! A capture under a script: it is replayed by one worker or by several, and what was asked for is written, or why it can't be
//! is answered. One path serves all applications and all three outputs.
//!
//! Contract: `run_one` and `run_several` write the outcome of the capture under the script and versions that the run may have,
//! and answer these versions; at an error a prefix is written.
//! Begin with `specs/Records.antt` and `specs/Outcome.antt`, then `run_one` in `src/single.rt` and `run_several` in
//! `src/several.rt`. `src/replay.rt` and `src/advance.rt` are the replay of one worker under the script's commands,
//! `src/in_place.rt` reads the records that a source lends where they stand, `src/taking.rt` is the way of one packet,
//! `src/progress.rt` counts them, `src/close.rt` and `src/summary.rt` are what is written at the end, `src/refusal.rt` why a
//! replay ends before. `src/laws.rt` and `src/verdicts.rt` say what the outcome means.
//! Tests: none of its own; `run_tests` and `whole_runs`, through `mos_run`.
#![tactic(auto)]

mod advance;
mod close;
mod in_place;
pub mod laws;
mod output;
mod plan;
mod progress;
mod refusal;
mod replay;
pub mod reports;
mod several;
mod single;
mod summary;
mod taking;
mod task;
pub mod verdicts;

pub use output::Output;
pub use plan::{Crew, Task};
pub use refusal::ReplayError;
pub use several::{run_several, run_several_with};
pub use single::{run_one, run_one_with};
pub use task::task_of;
pub use worker_pool::VersionList;
