//! One packet: what becomes of it, and what it leaves.

ghost use Rattle.std.specs.Prelude.{◌≡◌, ◌⊎◌, ◌+◌, ◌<◌, ◌∷◌, ◌++◌, [], List, length, not, true, false, if◌then◌else◌, IsErr, IsOk, IfErr, IsErrOf};
ghost use Rattle.mos_bytes.specs.Writes.{WriteAdds};
ghost use Rattle.mos_bytes.specs.Outside.{Writes};
ghost use Rattle.pcap_source.specs.Captured.{Captured};
ghost use Rattle.run_outcome.specs.Forwarded.{bytes_under as left_by};
ghost use Rattle.capture_replay.specs.Outcome.{is_forward};
ghost use Rattle.capture_replay.specs.Reading.{HandsOn, IsSeen, LaneIsReady, LaneHasRead, MayTake, SameLane, gained};

use crate::advance::advance;
use crate::plan::Plan;
use crate::{Output, ReplayError};
use app_api::Verdict;
use flow_timers::Moment;
use lane_core::laws::{last_packet_is_added, weight_never_falls};
use lane_core::{LaneError, Recorder};
use mos_bytes::{Failed, Sink};

// Writes one piece behind another.
#[inline(always)]
fn write_both<O: Sink>(head: &[u8], bytes: &[u8], out: &mut O) -> Result<(), Failed>
    ensures text { WriteAdds (O.taken out.old) (O.taken out.new) result (head.now ++ bytes.now) }
    ensures to { Writes O.Sink out.old out.new (IsErr result) }
{
    out.write_all(head)?;
    out.write_all(bytes)
}

// Hands a packet on that passes, where packets are.
#[inline(always)]
fn write_passed<O: Sink>(
    output: Output,
    verdict: Verdict,
    head: &[u8],
    bytes: &[u8],
    out: &mut O,
) -> Result<(), Failed>
    ensures text { (frame : Captured) → head.now ≡ frame.head → bytes.now ≡ frame.bytes
        → WriteAdds (O.taken out.old) (O.taken out.new) result
        (if is_forward output then left_by verdict frame else []) }
    ensures handed { HandsOn O.Sink output out.old out.new result }
{
    if !output.is_forward() {
        return Ok(());
    }
    match verdict {
        Verdict::Pass => write_both(head, bytes, out),
        Verdict::Drop(_) => Ok(()),
    }
}

/// One more packet, by its time, the head of its record and its captured bytes. A lane whose records weigh too much takes
/// none, and the capture is read on, since it may be refused.
#[inline(always)]
pub(crate) fn take_at<L: Recorder, O: Sink>(
    plan: &Plan<'_>,
    lane: &mut L,
    number: u64,
    moment: Moment,
    head: &[u8],
    bytes: &[u8],
    out: &mut O,
) -> Result<(), ReplayError>
    requires may { MayTake L.Recorder plan.now.script.now lane.old number }
    requires bound { number < 1048576 }
    requires keeps { L.keeps lane.old ≡ not (is_forward plan.now.output) }
    ensures ready { IsOk result → LaneIsReady L.Recorder plan.now.script.now lane.new (number + 1) }
    ensures reads { IsOk result → (frame : Captured) (frames : List Captured)
        → IsSeen frame moment head.now bytes.now → length frames ≡ number
        → LaneHasRead L.Recorder plan.now.script.now plan.now.output lane.old frames
        → LaneHasRead L.Recorder plan.now.script.now plan.now.output lane.new (frames ++ frame ∷ []) }
    ensures writes { (frame : Captured) (frames : List Captured) → IsSeen frame moment head.now bytes.now
        → length frames ≡ number → LaneHasRead L.Recorder plan.now.script.now plan.now.output lane.old frames
        → WriteAdds (O.taken out.old) (O.taken out.new) result
        (gained (L.app lane.old) plan.now.script.now plan.now.output frames frame) }
    ensures silent { is_forward plan.now.output ≡ false → out.new ≡ out.old }
    ensures only { IfErr result
        (λ e. ((e ≡ ReplayError.WriteFault) × (is_forward plan.now.output ≡ true)) ⊎ (e ≡ ReplayError.NoMemory)) }
    ensures to { Writes O.Sink out.old out.new (IsErrOf result ReplayError.WriteFault) }
    ensures same { SameLane L.Recorder lane.old lane.new }
{
    last_packet_is_added();
    weight_never_falls();
    if lane.has_failed() {
        return Ok(());
    }
    match advance(
        plan.alloc,
        plan.natives,
        plan.script,
        lane,
        number,
        moment,
        bytes,
    ) {
        Ok(verdict) => write_passed(plan.output, verdict, head, bytes, out)?,
        Err(LaneError::Heavy) => {}
        Err(LaneError::NoMemory) => return Err(ReplayError::NoMemory),
    }
    Ok(())
}
