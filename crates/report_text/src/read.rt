//! Reads a report back: exactly the texts that are written of tidy records and totals.

ghost use Rattle.std.specs.Prelude.{◌≡◌, ℕ, List, IfOk, IfErr};
ghost use Rattle.report_text.specs.declared.record.Record.{Record};
ghost use Rattle.report_text.specs.declared.record.Totals.{Totals};
ghost use Rattle.report_text.specs.Reports.{IsReport, NoReportAt};
ghost use Rattle.report_text.specs.ReadLines.{taken};

mod line;
mod parts;
mod taker;
mod words;

use crate::newline::newline_in;
use crate::record::{RecordList, Totals};
use line::{is_tidy_line, push_line, read_line};
use std::alloc::{AllocError, Global};
use taker::Taker;
use thiserror::Error;

/// Why a text was not read as a report.
#[derive(Clone, Copy, Debug, PartialEq, Eq, Error)]
pub enum ReadBack {
    /// The text is no report: the line that begins at this byte can't stand there, or nothing follows that ends it. It is
    /// the text's length where lines are missing.
    #[error("no report at byte {0}")]
    NoReport(u64),
    /// Memory for the records was refused.
    #[error("no memory")]
    NoMemory,
}

impl From<AllocError> for ReadBack {
    ghost use Rattle.report_text.specs.declared.read.ReadBack.TheVariants.{NoMemory};

    ghost from_gives = { λ _ e. e ≡ NoMemory };

    fn from(_: AllocError) -> Self {
        ReadBack::NoMemory
    }
}

// One more line, where it may stand: what is read is written again and compared. `room` is used again.
#[tactic(auto, unfolding(crate::specs::ReadLines::taken))]
fn take(
    alloc: Global,
    taker: Taker,
    room: &mut String,
    text: &[u8],
) -> Result<Option<Taker>, AllocError>
    ensures { IfOk result (λ o. o ≡ taken taker text.now) }
{
    let line = read_line(alloc, text)?;
    if !is_tidy_line(&line) {
        return Ok(None);
    }
    room.clear();
    push_line(alloc, room, &line)?;
    if room.as_bytes() != text {
        return Ok(None);
    }
    taker.put(alloc, line)
}

/// Reads a report back. It accepts exactly the texts that `write_report` writes of tidy records and any totals, and doesn't
/// compare the two. It reads the text once, and takes memory for the records and for one line.
pub fn read_report(alloc: Global, text: &[u8]) -> Result<(RecordList, Totals), ReadBack>
    ensures report { IfOk result (λ p. IsReport text.now p.0 p.1) }
    ensures alone { IfOk result (λ p. (rs : List Record) (t : Totals) → IsReport text.now rs t
        → (rs ≡ p.0) × (t ≡ p.1)) }
    ensures none { IfErr result (λ e. (offset : ℕ)
        → e ≡ ReadBack.NoReport offset → NoReportAt text.now offset) }
{
    let mut room = String::new(alloc);
    let mut taker = Taker::new(alloc);
    let mut at = 0;
    while let Some(end) = newline_in(&text[at..]) {
        let line = &text[at..at + end + 1];
        match take(alloc, taker, &mut room, line)? {
            Some(next) => taker = next,
            None => return Err(ReadBack::NoReport(at as u64)),
        }
        at = at + end + 1;
    }
    if at < text.len() {
        return Err(ReadBack::NoReport(at as u64));
    }
    match taker.finish()? {
        Some(whole) => Ok(whole),
        None => Err(ReadBack::NoReport(at as u64)),
    }
}
