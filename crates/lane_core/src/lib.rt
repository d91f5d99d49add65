//! One lane: the records of its packets, under control commands that may come between them.
//!
//! Contract, said once in the trait `Recorder`: whatever list of packets and commands a lane stands for before a call, it
//! stands for that list with one event more after it; its first error is for good. `Reporter` adds an end that
//! hands the records out as the lane kept them; their report is written from these.
//! Begin with `specs/Sight.antt`, `specs/Records.antt`, `specs/Run.antt` and `specs/Laws.antt`, then `src/recorder.rt`,
//! `src/lane.rt` and `src/records.rt`. `Records` is all that a lane keeps of its packets: in `src/records/`, `follow.rt` is a
//! segment of an open connection, `idle.rt` the end of one that was idle, `begin.rt` a packet that begins a record, `end.rt`
//! the end of a run.
//! Tests: `worker_tests` (lanes, idle, trees, failing).
#![tactic(auto)]

mod connection;
mod end;
mod errors;
mod lane;
pub mod laws;
pub mod limits;
mod recorder;
mod records;
mod report;
mod sides;
mod terms;
mod under_way;

pub use end::{Closed, KeptEnd, KeptRecords, LaneEnd, VersionOfList, records_of};
pub use errors::LaneError;
pub use lane::Lane;
pub use recorder::Recorder;
pub use report::{Close, Reporter, version_of_each, write_all_kept, write_report_kept};
pub use under_way::RecordUnderWay;
