//! Reads a capture front to back, and hands its packets to a lane.

ghost use Rattle.std.specs.Prelude.{[], if◌then◌else◌};
ghost use Rattle.std.specs.Io.KnownBytes.{Keeps};
ghost use Rattle.mos_bytes.specs.Writes.{WriteAdds};
ghost use Rattle.capture_replay.specs.Outcome.{is_forward};
ghost use Rattle.capture_replay.specs.Reading.{HandsOn, LaneHasRead, MayReadOn, Replays, at_start, run_at};
ghost use Rattle.capture_replay.specs.Runs.{MayRun, Runs, RunsAlone};
ghost use Rattle.capture_replay.specs.Typed.{WritesTyped};

use crate::close::close;
use crate::in_place::run_lent;
use crate::laws::what_one_worker_has_is_allowed;
use crate::plan::Plan;
use crate::progress::Progress;
use crate::taking::take_at;
use crate::{Output, ReplayError, VersionList};
use app_api::App;
use flow_timers::Moment;
use lane_core::{Close, Lane};
use mos_bytes::{Failed, Sink, Source};
use pcap_source::{Capture, Frame, Step};
use shared_forest::Table;

// Hands the capture's header on, where packets are.
fn write_front<O: Sink>(output: Output, capture: &Capture, out: &mut O) -> Result<(), Failed>
    ensures text { WriteAdds (O.taken out.old) (O.taken out.new) result
        (if is_forward output then capture.now.header else []) }
    ensures handed { HandsOn O.Sink output out.old out.new result }
{
    if !output.is_forward() {
        return Ok(());
    }
    capture.write_header(out)
}

// Hands on what the output gathers, where packets are written while the capture is read, before the source asks the outside
// for the next one: who waits for them waits no longer than for more of the capture.
fn hand_on<S: Source, O: Sink>(
    output: Output,
    capture: &Capture,
    source: &S,
    out: &mut O,
) -> Result<(), Failed>
    ensures bytes { Keeps (O.taken out.old) (O.taken out.new) }
    ensures handed { HandsOn O.Sink output out.old out.new result }
{
    if !output.is_forward() || capture.is_at_hand(source) {
        return Ok(());
    }
    out.flush()
}

// Reads an opened capture, of which no packet has been read, to its end or its tail, and hands its packets to a lane.
fn read_on<L: Close + Drop, S: Source, O: Sink>(
    plan: &Plan<'_>,
    lane: L,
    capture: Capture,
    source: &mut S,
    out: &mut O,
) -> Result<VersionList, ReplayError>
    requires may { MayReadOn L.Recorder plan.now.script.now plan.now.output lane capture at_start }
    requires read { LaneHasRead L.Recorder plan.now.script.now plan.now.output lane [] }
    ensures { Replays L.Recorder O.Sink plan.now.script.now plan.now.output S.Source
        (run_at lane capture at_start out.old (S.left source.old)) out.new source.old source.new result }
{
    let mut capture = capture;
    let mut lane = lane;
    let mut frame = Frame::new(plan.alloc);
    let mut so_far = Progress {
        packets: 0,
        greatest: None,
    };
    loop {
        let lent = run_lent(
            plan,
            &mut capture,
            &mut lane,
            so_far,
            source,
            &mut frame,
            out,
        )?;
        hand_on(plan.output, &capture, source, out)?;
        match capture.next(source, &mut frame)? {
            Step::Frame => {
                let moment = Moment {
                    seconds: frame.seconds,
                    fraction: frame.fraction,
                };
                let bytes = frame.bytes.as_slice();
                take_at(
                    plan,
                    &mut lane,
                    lent.packets,
                    moment,
                    &frame.head,
                    bytes,
                    out,
                )?;
                so_far = lent.with_packet(moment);
            }
            Step::Tail(bytes) => {
                return close(
                    plan.alloc,
                    plan,
                    lane,
                    lent.packets,
                    lent.greatest,
                    bytes,
                    out,
                );
            }
            Step::End => {
                return close(plan.alloc, plan, lane, lent.packets, lent.greatest, 0, out);
            }
        }
    }
}

/// Runs over a capture with one worker, which calls an application, and answers the version of each record.
pub(crate) fn replay<A: App + Drop, S: Source, O: Sink>(
    app: A,
    plan: &Plan<'_>,
    source: &mut S,
    out: &mut O,
) -> Result<VersionList, ReplayError>
    requires lawful { MayRun (A.meaning app) plan.now.script.now }
    ensures ran { Runs S.Source O.Sink plan.now.output
        (RunsAlone (A.meaning app) plan.now.script.now plan.now.output)
        source.old source.new out.old out.new result }
    ensures typed { WritesTyped (A.meaning app) plan.now.script.now plan.now.output (S.left source.old) result }
{
    what_one_worker_has_is_allowed();
    let capture = Capture::open(source)?;
    write_front(plan.output, &capture, out)?;
    let keeps = !plan.output.is_forward();
    let lane = Lane::new(plan.alloc, app, Table::new(plan.alloc), keeps)?;
    read_on(plan, lane, capture, source, out)
}
