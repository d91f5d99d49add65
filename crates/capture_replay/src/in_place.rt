//! The records that a source lends, which are read where they stand.

ghost use Rattle.std.specs.Prelude.{◌≡◌, ◌⊎◌, ◌≤◌, ℕ, List, Option, length, true, false, IfOk, IfErr, IsErrOf};
ghost use Rattle.mos_bytes.specs.Outside.{Writes};
ghost use Rattle.mos_bytes.specs.Reads.{BeginsWith};
ghost use Rattle.pcap_source.specs.InPlace.{left_behind};
ghost use Rattle.capture_replay.specs.Outcome.{is_forward};
ghost use Rattle.capture_replay.specs.Reading.{BreaksOff, GoesOn, MayReadOn, RunsOn, StopsAt, run_at};

use crate::ReplayError;
use crate::plan::Plan;
use crate::progress::Progress;
use crate::taking::take_at;
use flow_timers::Moment;
use lane_core::Recorder;
use mos_bytes::{Sink, Source};
use pcap_source::{Capture, Frame};

// How many bytes the head of a record has.
const HEAD: usize = 16;

// How far a run has come behind so many bytes.
#[derive(Clone, Copy)]
struct Walked {
    len: usize,
    so_far: Progress,
}

// Hands the whole records at the front of these bytes to a lane.
fn walk<L: Recorder, O: Sink>(
    plan: &Plan<'_>,
    capture: &mut Capture,
    lane: &mut L,
    so_far: Progress,
    front: &[u8],
    out: &mut O,
) -> Result<Walked, ReplayError>
    requires may { MayReadOn L.Recorder plan.now.script.now plan.now.output lane.old capture.old so_far }
    ensures within { IfOk result (λ walked. walked.len ≤ length front.now) }
    ensures goes { IfOk result (λ walked. (left : Option (List ℕ)) → BeginsWith left front.now
        → GoesOn L.Recorder O.Sink plan.now.script.now plan.now.output (run_at lane.old capture.old so_far out.old left)
        (run_at lane.new capture.new walked.so_far out.new (left_behind walked.len left))) }
    ensures stops { IfErr result (λ e. (left : Option (List ℕ)) → BeginsWith left front.now
        → StopsAt L.Recorder O.Sink plan.now.script.now plan.now.output (run_at lane.old capture.old so_far out.old left)
        out.new e) }
    ensures only { IfErr result
        (λ e. ((e ≡ ReplayError.WriteFault) × (is_forward plan.now.output ≡ true)) ⊎ (e ≡ ReplayError.NoMemory)) }
    ensures silent { is_forward plan.now.output ≡ false → out.new ≡ out.old }
    ensures to { Writes O.Sink out.old out.new (IsErrOf result ReplayError.WriteFault) }
{
    let mut len = 0;
    let mut so_far = so_far;
    loop {
        let rest = &front[len..];
        let Some(record) = capture.next_in(rest) else {
            return Ok(Walked { len, so_far });
        };
        let moment = Moment {
            seconds: record.seconds,
            fraction: record.fraction,
        };
        let whole = &rest[..record.len];
        take_at(
            plan,
            lane,
            so_far.packets,
            moment,
            &whole[..HEAD],
            &whole[HEAD..],
            out,
        )?;
        so_far = so_far.with_packet(moment);
        len += record.len;
    }
}

/// Hands the records that the source lends whole to a lane, where they stand, and passes over them.
#[inline(always)]
pub(crate) fn run_lent<L: Recorder, S: Source, O: Sink>(
    plan: &Plan<'_>,
    capture: &mut Capture,
    lane: &mut L,
    so_far: Progress,
    source: &mut S,
    frame: &mut Frame,
    out: &mut O,
) -> Result<Progress, ReplayError>
    requires may { MayReadOn L.Recorder plan.now.script.now plan.now.output lane.old capture.old so_far }
    ensures on { IfOk result (λ now. RunsOn L.Recorder O.Sink plan.now.script.now plan.now.output S.Source
        (run_at lane.old capture.old so_far out.old (S.left source.old))
        (run_at lane.new capture.new now out.new (S.left source.new)) source.old source.new) }
    ensures breaks { IfErr result (λ e. BreaksOff L.Recorder O.Sink plan.now.script.now plan.now.output S.Source
        (run_at lane.old capture.old so_far out.old (S.left source.old)) out.new source.old source.new e) }
{
    let front = source.lend();
    if front.is_empty() {
        return Ok(so_far);
    }
    let walked = walk(plan, capture, lane, so_far, front, out)?;
    if walked.len == 0 {
        return Ok(walked.so_far);
    }
    Capture::pass_over(source, walked.len, frame)?;
    Ok(walked.so_far)
}
