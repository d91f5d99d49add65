//! Workers of a run on several lanes, and a run on several lanes that is reported. A worker has a thread of its own.
//!
//! The way of a packet: the *feed* of a run (`team::feed`), in the calling thread, reads it (`team::dispatch`; where the source
//! lends it, `team::in_place`) and sends it to the *input* of its lane (`team::lane_input`); the worker of the lane
//! (`lane_worker`) takes it. `team` makes the workers, starts their threads, has one thread more send places in the script, and
//! joins all of them; a run of another kind is a team with another feed. `report` runs a team for a report, and joins what its
//! lanes end with.
//! Contract: `run_lanes` and `run_lanes_kept` answer the records and totals of one run over all packets, under versions that
//! they answer too and that the run may have, whatever the order of the threads' steps. A thread that can't be started is no
//! error.
//! Begin with `specs/Run.antt`, then `specs/Team.antt`, `specs/Inputs.antt` and `specs/Sent.antt`; in the code with
//! `src/report/lanes.rt` and `src/team.rt`.
//! Tests: `worker_tests` (several).
#![tactic(auto)]

mod job;
mod report;
pub mod team;
mod versions;

pub use job::{Job, KeptLanes, LanesEnd, PoolError};
pub use lane_worker::{Gate, OpenGate, WorkerContext};
pub use report::lanes::{run_lanes, run_lanes_kept};
pub use versions::{VersionList, versions_of};
