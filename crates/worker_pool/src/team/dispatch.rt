//! Reads a capture, and sends each packet to its lane.

ghost use Rattle.std.specs.Prelude.{◌≡◌, ◌≤◌, [], List, length, IsOk, IsErrOf, false};
ghost use Rattle.pcap_source.specs.Reading.{Opened};
ghost use Rattle.lane_worker.specs.declared.worker.Worker.{Worker as Begun};
ghost use Rattle.worker_pool.specs.Inputs.{AreInputs, AreKept, AreSomeInputs, Dealt, ReadsAs};
ghost use Rattle.worker_pool.specs.Source.{ReadsOn};

use crate::team::dealing::deal_frame;
use crate::team::in_place::deal_lent;
use crate::team::lane_input::{LaneInput, flush_all};
use crate::team::progress::Progress;
use flow_timers::Moment;
use lane_core::Recorder;
use lane_join::moment_of;
use lane_rings::BatchRx;
use lane_worker::{Gate, WorkerContext};
use mos_bytes::Source;
use pcap_source::{Capture, Frame, NextError, Step};
use std::sync::Wait;

/// A capture that was read to its end.
#[derive(Clone, Copy, Debug, PartialEq, Eq)]
pub struct Whole {
    /// How many packets it has.
    pub packets: u64,
    /// The bytes behind them that are no whole record.
    pub tail: u32,
    /// The greatest moment of its packets, of whatever class; none where it has no packet.
    pub last: Option<Moment>,
}

// Sends what is unsent for each lane where more may have to be read, so that nothing waits for what comes later.
fn flush_before_read<R: Wait, L: Recorder + Drop, S: Source, G: Gate>(
    context: &WorkerContext<'_, R, G>,
    inputs: &mut Vec<LaneInput<L>>,
    capture: &Capture,
    source: &S,
    used: &mut [BatchRx],
)
    requires inputs { AreSomeInputs L.Recorder context.now.script.now inputs.old.items }
    ensures { AreKept L.Recorder context.now.script.now inputs.old.items inputs.new.items }
{
    if !capture.is_at_hand(source) {
        flush_all(context, inputs, used);
    }
}

// Reads an opened capture to its end or its tail, or to where it is refused, as `dispatch` does. The capture may stay live.
fn deal_all<R: Wait, L: Recorder + Drop, S: Source, G: Gate>(
    context: &WorkerContext<'_, R, G>,
    inputs: &mut Vec<LaneInput<L>>,
    capture: &mut Capture,
    source: &mut S,
    used: &mut [BatchRx],
) -> Result<Whole, NextError>
    requires opened { Opened capture.old }
    requires some { 1 ≤ length inputs.old.items }
    requires inputs { (begins : List (Begun L))
        × AreInputs L.Recorder context.now.script.now begins [] inputs.old.items }
    ensures dispatched { (begins : List (Begun L))
        → AreInputs L.Recorder context.now.script.now begins [] inputs.old.items
        → Dealt L.Recorder context.now.script.now begins inputs.new.items
        (λ frames. ReadsAs frames capture.old (S.left source.old) (S.left source.new) result) }
    ensures reads { ReadsOn S.Source capture.old source.old source.new (IsOk result)
        (IsErrOf result NextError.ReadFault) }
{
    let mut frame = Frame::new(context.alloc);
    let mut so_far = Progress {
        packets: 0,
        last: None,
    };
    loop {
        let lent = deal_lent(context, inputs, used, capture, so_far, source, &mut frame)?;
        flush_before_read(context, inputs, capture, source, used);
        match capture.next(source, &mut frame)? {
            Step::Frame => {
                deal_frame(context, inputs, used, lent.packets, &frame)?;
                so_far = lent.with_packet(moment_of(&frame));
            }
            Step::Tail(tail) => return Ok(lent.whole(tail)),
            Step::End => return Ok(lent.whole(0)),
        }
    }
}

/// Reads an opened capture to its end or its tail, or to where it is refused, and sends each packet to the input of its
/// lane. It waits where the ring of a lane is full, and works on a lane whose worker is in this thread. Packets go together,
/// but none waits for others that are still to be read. Batches that come back through `used` serve again.
///
/// What the source lends is read where it stands. After whatever it answers the capture is no longer live.
pub(crate) fn dispatch<R: Wait, L: Recorder + Drop, S: Source, G: Gate>(
    context: &WorkerContext<'_, R, G>,
    inputs: &mut Vec<LaneInput<L>>,
    capture: &mut Capture,
    source: &mut S,
    used: &mut Vec<BatchRx>,
) -> Result<Whole, NextError>
    requires opened { Opened capture.old }
    requires some { 1 ≤ length inputs.old.items }
    requires inputs { (begins : List (Begun L))
        × AreInputs L.Recorder context.now.script.now begins [] inputs.old.items }
    ensures dispatched { (begins : List (Begun L))
        → AreInputs L.Recorder context.now.script.now begins [] inputs.old.items
        → Dealt L.Recorder context.now.script.now begins inputs.new.items
        (λ frames. ReadsAs frames capture.old (S.left source.old) (S.left source.new) result) }
    ensures reads { ReadsOn S.Source capture.old source.old source.new (IsOk result)
        (IsErrOf result NextError.ReadFault) }
    ensures stopped { capture.new.is_live ≡ false }
{
    let ended = deal_all(context, inputs, capture, source, used.as_mut_slice());
    capture.stop();
    ended
}
