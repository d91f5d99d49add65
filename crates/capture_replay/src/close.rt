//! The end of a run: its records, and what is written of them.

ghost use Rattle.std.specs.Prelude.{◌≡◌, ◌≢◌, ◌⊎◌, ℕ, List, Option, length, not, true, false, IfErr, IsErrOf, IsOk};
ghost use Rattle.std.specs.Io.KnownBytes.{Appends};
ghost use Rattle.mos_bytes.specs.Writes.{WriteAdds};
ghost use Rattle.report_text.specs.Ranges.{HaveTypes};
ghost use Rattle.pcap_source.specs.Captured.{Captured};
ghost use Rattle.lane_core.specs.KeptEnd.{shown_as};
ghost use Rattle.lane_core.specs.Sight.{arrivals};
ghost use Rattle.run_outcome.specs.Greatest.{greatest};
ghost use Rattle.capture_replay.specs.Records.{packets_of};
ghost use Rattle.capture_replay.specs.Outcome.{is_forward, streamed, closing};
ghost use Rattle.mos_bytes.specs.Outside.{Writes};
ghost use Rattle.capture_replay.specs.Reading.{LaneHasRead};
ghost use Rattle.capture_replay.specs.Runs.{EndsAlone};
ghost use Rattle.capture_replay.specs.Typed.{counted, shown};

use crate::plan::Plan;
use crate::summary::write_summary;
use crate::{Output, ReplayError, VersionList};
use app_api::App;
use flow_timers::Moment;
use lane_core::laws::{later_commands_change_none, weight_never_falls};
use lane_core::{Close, RecordUnderWay, version_of_each, write_report_kept};
use mos_bytes::Sink;
use report_text::Totals;
use std::alloc::Global;

// Writes what is written at the end of a run: a report, or what was made and counted; and nothing where packets were handed on.
fn write_end<A: App, O: Sink>(
    alloc: Global,
    output: Output,
    app: &A,
    records: &[RecordUnderWay],
    totals: &Totals,
    out: &mut O,
) -> Result<(), ReplayError>
    ensures text { WriteAdds (O.taken out.old) (O.taken out.new) result
        (closing output (shown_as (A.meaning app.now) records.now) totals.now) }
    ensures typed { output ≡ Output.Report → IsOk result
        → HaveTypes (shown_as (A.meaning app.now) records.now) totals.now }
    ensures only { IfErr result
        (λ e. ((e ≡ ReplayError.WriteFault) × (is_forward output ≡ false)) ⊎ (e ≡ ReplayError.NoMemory)) }
    ensures to { Writes O.Sink out.old out.new (IsErrOf result ReplayError.WriteFault) }
{
    match output {
        Output::Report => write_report_kept(alloc, app, out, records, totals)?,
        Output::Summary(n) => write_summary(alloc, out, n, totals)?,
        Output::Forward => {}
    }
    Ok(())
}

/// Ends a run whose lane took so many packets, of which `last` is the greatest moment, and behind which the capture has a
/// tail of so many bytes.
pub(crate) fn close<L: Close + Drop, O: Sink>(
    alloc: Global,
    plan: &Plan<'_>,
    lane: L,
    packets: u64,
    last: Option<Moment>,
    tail: u32,
    out: &mut O,
) -> Result<VersionList, ReplayError>
    requires keeps { L.keeps lane ≡ not (is_forward plan.now.output) }
    requires read { (frames : List Captured) × (length frames ≡ packets) × (last ≡ greatest (arrivals 0 frames))
        × LaneHasRead L.Recorder plan.now.script.now plan.now.output lane frames }
    ensures ends { (header : List ℕ) (frames : List Captured) (before : Option (List ℕ))
        → length frames ≡ packets → last ≡ greatest (arrivals 0 frames)
        → LaneHasRead L.Recorder plan.now.script.now plan.now.output lane frames
        → Appends before (O.taken out.old)
        (streamed (L.app lane) plan.now.script.now (packets_of plan.now.script.now) plan.now.output header frames)
        → EndsAlone (L.app lane) plan.now.script.now plan.now.output header frames tail
        before (O.taken out.new) result }
    ensures typed { plan.now.output ≡ Output.Report → IsOk result → (frames : List Captured)
        → length frames ≡ packets → last ≡ greatest (arrivals 0 frames)
        → LaneHasRead L.Recorder plan.now.script.now plan.now.output lane frames
        → HaveTypes (shown (L.app lane) plan.now.script.now (packets_of plan.now.script.now) frames)
        (counted (L.app lane) plan.now.script.now (packets_of plan.now.script.now) frames tail) }
    ensures silent { IfErr result
        (λ e. e ≢ ReplayError.WriteFault → e ≢ ReplayError.NoMemory → out.new ≡ out.old) }
    ensures only { IfErr result
        (λ e. (e ≡ ReplayError.WriteFault) ⊎ (e ≡ ReplayError.NoMemory) ⊎ (e ≡ ReplayError.Heavy)) }
    ensures to { Writes O.Sink out.old out.new (IsErrOf result ReplayError.WriteFault) }
{
    later_commands_change_none();
    weight_never_falls();
    let closed = lane.close(alloc, last, plan.natives)?;
    let records = closed.end.records.as_slice();
    let versions = version_of_each(alloc, records)?;
    let totals = Totals {
        packets,
        records: records.len() as u64,
        callbacks: closed.end.callbacks,
        drops: closed.end.drops,
        tail,
    };
    write_end(alloc, plan.output, &closed.app, records, &totals, out)?;
    Ok(VersionList { items: versions })
}
