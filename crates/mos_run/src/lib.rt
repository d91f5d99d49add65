//! The run, which is the top call: words, a script and a capture come in; what was asked for is written, or why it can't be is
//! told, with a status.
//!
//! Contract: that of `run_mos` is the headline: on status 0 exactly the text of the run's outcome was written, under versions
//! that the run may have; and one record, `MosRun`, of all else that it promises, such as the cause of every other status but
//! want of memory. `run_gathered` has the same over an output that is called once for many lines.
//! Begin with `specs/Request.antt` and `specs/Run.antt`, then `run_mos` in `src/run.rt` and `src/gathered.rt`. `src/script.rt`
//! fetches the script, `src/explained.rt` tells why a file was refused, `src/refusal.rt` and `src/telling.rt` are refusals with
//! their statuses and lines, `src/ended.rt` is how a run ended. `src/reports.rt` has the law that a report reads back.
//! Tests: `run_tests`, `whole_runs`.
#![tactic(auto)]

mod ended;
mod explained;
mod gathered;
mod refusal;
pub mod reports;
mod run;
mod script;
mod telling;

pub use applications::AppKind;
pub use capture_replay::{Output, ReplayError, laws, run_one};
pub use ended::{Ended, refuse};
pub use gathered::{GatheredRun, run_application, run_gathered};
pub use refusal::{RunError, ScriptFault};
pub use run::{Machine, run_mos};
pub use words::{Emit, Name, Settings, WordsError, read_own_words, read_words};
pub use worker_pool::{Gate, OpenGate, VersionList};
