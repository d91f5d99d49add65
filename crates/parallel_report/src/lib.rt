//! The report of records as lanes kept them, its text made by several threads and written by one.
//!
//! Contract: `write_report_by` adds to its sink what `report_text::write_report` adds of the records for which the kept ones
//! stand, or at an error a prefix of it. Where no thread can be started, the calling one writes them itself.
//! Begin with `src/report.rt`, then `src/piece.rt`; `specs/Texts.antt` says what each thread makes.
//! Tests: none of its own; reports of several workers in `run_tests` and `whole_runs` are written by it.
#![tactic(auto)]

mod piece;
mod report;
mod text;

pub use report::write_report_by;
