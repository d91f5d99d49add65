//! The end of a lane that hands its records out as it kept them, and what is written of these.

ghost use Rattle.std.specs.Prelude.{◌≡◌, IfOk, IsOk, IsTrue, OnOk, Err, None, map};
ghost use Rattle.std.specs.List.{list_all};
ghost use Rattle.report_text.specs.Ranges.{HaveTypes, record_fits};
ghost use Rattle.report_text.specs.Report.{records_text, report_text};
ghost use Rattle.report_text.specs.Written.{WritesText};
ghost use Rattle.lane_core.specs.End.{ended};
ghost use Rattle.lane_core.specs.Lane.{ForEvents, HadFailed, IsHeavyBy, KeepsTooMuch, KeepsWithin};
ghost use Rattle.lane_core.specs.KeptEnd.{IsKeptEnd, shown_as};
ghost use Rattle.lane_core.specs.Run.{ended_run};

use crate::end::{Closed, KeptEnd};
use crate::errors::LaneError;
use crate::recorder::Recorder;
use crate::under_way::RecordUnderWay;
use app_api::App;
use flow_timers::Moment;
use mos_bytes::Sink;
use native_filters::NativeBook;
use report_text::{TextError, Totals, write_kept, write_totals};
use std::alloc::{AllocError, Global};

/// A recorder that can end without a list of entries for each of its records.
pub trait Reporter: Recorder {
    /// Ends as `finish` does, but hands its records out as they were kept.
    fn finish_kept(
        self,
        alloc: Global,
        greatest: Option<Moment>,
        natives: &NativeBook,
    ) -> Result<KeptEnd, LaneError>
        ensures failed { HadFailed (Self.failed self) (λ e. result ≡ Err e) }
        ensures kept { Self.failed self ≡ None → IfOk result (λ end. ForEvents (Self.stands self) (λ events.
            IsKeptEnd (Self.keeps self) (Self.app self) (ended_run (Self.app self) events greatest) end)) }
        ensures light { OnOk result (KeepsWithin Self.keeps Self.app Self.stands self (IsHeavyBy greatest)) }
        ensures heavy { Self.failed self ≡ None → result ≡ Err LaneError.Heavy
            → KeepsTooMuch Self.keeps Self.app Self.stands self (IsHeavyBy greatest) };
}

/// A recorder that can end and hand out its application, too. It is a trait of its own, since a team's threads know no more of
/// a recorder than that it is a `Reporter`.
pub trait Close: Recorder {
    /// The application that it calls.
    type Application: App + Drop;

    /// Ends as `finish_kept` does. The application tells the fields of the records.
    fn close(
        self,
        alloc: Global,
        greatest: Option<Moment>,
        natives: &NativeBook,
    ) -> Result<Closed<Self::Application>, LaneError>
        ensures failed { HadFailed (Self.failed self) (λ e. result ≡ Err e) }
        ensures app { IfOk result (λ closed. Self.Application.meaning closed.app ≡ Self.app self) }
        ensures kept { Self.failed self ≡ None → IfOk result (λ closed. ForEvents (Self.stands self) (λ events.
            IsKeptEnd (Self.keeps self) (Self.app self) (ended_run (Self.app self) events greatest) closed.end)) }
        ensures light { OnOk result (KeepsWithin Self.keeps Self.app Self.stands self (IsHeavyBy greatest)) }
        ensures heavy { Self.failed self ≡ None → result ≡ Err LaneError.Heavy
            → KeepsTooMuch Self.keeps Self.app Self.stands self (IsHeavyBy greatest) };
}

/// The version of each record.
pub fn version_of_each(alloc: Global, records: &[RecordUnderWay]) -> Result<Vec<u32>, AllocError>
    ensures { IfOk result (λ versions. versions.items ≡ map (λ r. r.version) records.now) }
{
    let mut versions = Vec::with_capacity(alloc, records.len())?;
    for of in records {
        versions.push(of.version)?;
    }
    Ok(versions)
}

/// Writes the lines of records in order, each by one call. The records that were written have numbers and bytes in the ranges of
/// their types. At an `Err` the sink holds a front of the lines.
pub fn write_all_kept<A: App, O: Sink>(
    alloc: Global,
    app: &A,
    out: &mut O,
    records: &[RecordUnderWay],
) -> Result<(), TextError>
    ensures text { WritesText O.Sink out.old out.new result (records_text (map (ended (A.meaning app.now)) records.now)) }
    ensures fits { IsOk result → IsTrue (list_all record_fits (map (ended (A.meaning app.now)) records.now)) }
{
    let mut line = String::new(alloc);
    for of in records {
        write_kept(alloc, app, out, &mut line, &of.kept())?;
    }
    Ok(())
}

/// Writes the report of records as lanes keep them, as `report_text::write_report` does of the records for which they stand, each
/// line by one call. What is written whole has numbers and bytes in the ranges of their types. At an `Err` the sink holds a
/// front of the report.
pub fn write_report_kept<A: App, O: Sink>(
    alloc: Global,
    app: &A,
    out: &mut O,
    records: &[RecordUnderWay],
    totals: &Totals,
) -> Result<(), TextError>
    ensures text { WritesText O.Sink out.old out.new result
        (report_text (shown_as (A.meaning app.now) records.now) totals.now) }
    ensures typed { IsOk result → HaveTypes (shown_as (A.meaning app.now) records.now) totals.now }
{
    write_all_kept(alloc, app, out, records)?;
    write_totals(alloc, out, totals)
}
