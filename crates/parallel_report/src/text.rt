//! The text of some records, made in memory.

ghost use Rattle.std.specs.Prelude.{◌≡◌, ◌≤◌, ◌++◌, [], true, length, IsTrue, MatchBool};
ghost use Rattle.lane_core.specs.End.{ended};
ghost use Rattle.report_text.specs.Ranges.{record_fits};
ghost use Rattle.report_text.specs.Report.{record_text};
ghost use Rattle.parallel_report.specs.Texts.{IsMadeOf};

use app_api::App;
use lane_core::RecordUnderWay;
use mos_bytes::{Failed, Sink};
use report_text::write_kept;
use std::alloc::Global;

/// How long a text is at most, in bytes.
pub(crate) const LONGEST: usize = 1_048_576;

// A text in memory that grows as it is written. It fails where it would be too long, or memory is refused for it.
#[derive(Drop)]
struct TextSink {
    text: Vec<u8>,
    faults: u64,
    ghost short: { length text.items ≤ 1048576 },
}

impl Sink for TextSink {
    ghost use Rattle.std.specs.Prelude.{Some};

    ghost taken = { λ s. Some s.text.items };

    ghost faults = { λ s. s.faults };

    ghost lasting = { λ s. tt };

    fn write_all(&mut self, bytes: &[u8]) -> Result<(), Failed> {
        if bytes.len() > LONGEST.saturating_sub(self.text.len())
            || self.text.extend_from_slice(bytes).is_err()
        {
            self.faults = self.faults.saturating_add(1);
            return Err(Failed);
        }
        Ok(())
    }
}

/// The text of the first of some records.
#[derive(Drop)]
pub(crate) struct Made {
    /// Of how many.
    pub(crate) done: usize,
    pub(crate) text: Vec<u8>,
}

// Adds the lines of a record, whose numbers and bytes have the ranges of their types, or says that it can't: then the text is as
// before.
fn add_record<A: App>(
    alloc: Global,
    app: &A,
    sink: &mut TextSink,
    line: &mut String,
    of: &RecordUnderWay,
) -> bool
    ensures text { MatchBool result
        (sink.new.text.items ≡ sink.old.text.items ++ record_text (ended (A.meaning app.now) of.now))
        (sink.new.text.items ≡ sink.old.text.items) }
    ensures fits { result ≡ true → IsTrue (record_fits (ended (A.meaning app.now) of.now)) }
{
    let before = sink.text.len();
    if write_kept(alloc, app, sink, line, &of.kept()).is_err() {
        sink.text.truncate(before);
        return false;
    }
    true
}

/// The text of no record. It takes no memory.
pub(crate) fn nothing_made(alloc: Global) -> Made
    ensures done { result.done ≡ 0 }
    ensures text { result.text.items ≡ [] }
{
    Made {
        done: 0,
        text: Vec::new(alloc),
    }
}

/// The text of the first of some records, of as many as it has room and memory for.
pub(crate) fn made_of<A: App>(alloc: Global, app: &A, records: &[RecordUnderWay]) -> Made
    ensures { IsMadeOf (A.meaning app.now) records.now result }
{
    let mut sink = TextSink {
        text: Vec::new(alloc),
        faults: 0,
    };
    let mut line = String::new(alloc);
    let mut done = 0;
    while done < records.len() && add_record(alloc, app, &mut sink, &mut line, &records[done]) {
        done += 1;
    }
    Made {
        done,
        text: sink.text,
    }
}
