//! The report of a run and its exact text: records with their callbacks, drops and fields, and the totals, a line each.
//!
//! Contract: `write_report` adds the text of the definition to its sink, or at an error a prefix of it. `write_kept` writes one
//! record straight from what is kept of it. `read_report` accepts exactly the texts that `write_report` writes of tidy records,
//! and gives these back, unless memory is refused.
//! Begin with `specs/Report.antt`, `specs/Lines.antt` and `specs/Tidy.antt`, then `src/write.rt`; for a record as it is kept
//! with `specs/Kept.antt` and `src/kept.rt`, for reading with `specs/Reports.antt` and `src/read.rt`. `src/laws.rt` ties
//! reading to writing.
//! Tests: `text_tests` (reports, records, refusals).
#![tactic(auto)]

mod backward;
mod by_line;
mod kept;
pub mod laws;
mod lines;
mod newline;
mod ranges;
mod read;
mod record;
mod short;
mod tidy;
mod words;
mod write;

pub use by_line::write_lines;
pub use kept::{KeptRecord, write_kept};
pub use read::{ReadBack, read_report};
pub use record::{Record, RecordKind, RecordList, Totals};
pub use tidy::is_tidy;
pub use write::{TextError, write_report, write_totals};
