//! A packet that goes to the input of its lane, and may wait there for others.

ghost use Rattle.std.specs.Prelude.{◌≡◌, ◌<◌, ◌≤◌, [], ◌∷◌, length, IfOk, OnOk, OnErr};
ghost use Rattle.ip6_views.specs.Sight.{sight_of, lane_of_sight};
ghost use Rattle.pcap_source.specs.Captured.{Captured};
ghost use Rattle.lane_rings.specs.Places.{lent};
ghost use Rattle.worker_pool.specs.Inputs.{AreKept};
ghost use Rattle.worker_pool.specs.Onward.{Deals, WereDealt};
ghost use Rattle.worker_pool.specs.Sent.{sent_as};

use crate::team::lane_input::{LaneInput, deal_to};
use ip6_views::lane_of_frame;
use lane_core::Recorder;
use lane_rings::{BatchRx, LentPacket};
use lane_worker::{Gate, WorkerContext};
use pcap_source::Frame;
use std::alloc::AllocError;
use std::sync::Wait;

/// Gives the next packet of a capture to the input of its lane, and answers the lane: that of its key, as `flow_table` has it.
/// What has no key goes to lane 0. It waits where the ring of the lane is full, and works on a lane whose worker is in this thread. Batches that
/// come back through `used` serve again. An error is want of memory; the packet isn't given then.
#[inline(always)]
pub(crate) fn deal_packet<R: Wait, L: Recorder + Drop, G: Gate>(
    context: &WorkerContext<'_, R, G>,
    inputs: &mut Vec<LaneInput<L>>,
    used: &mut [BatchRx],
    packet: &LentPacket<'_>,
) -> Result<usize, AllocError>
    requires some { 1 ≤ length inputs.old.items }
    requires dealt { WereDealt L.Recorder context.now.script.now packet.now.index inputs.old.items }
    ensures lane { IfOk result (λ lane.
        lane ≡ lane_of_sight (sight_of packet.now.bytes.now) (length inputs.old.items)) }
    ensures within { IfOk result (λ lane. lane < length inputs.old.items) }
    ensures count { length inputs.new.items ≡ length inputs.old.items }
    ensures dealt { OnOk result ((frame : Captured)
        → lent packet.now ≡ sent_as context.now.script.now packet.now.index frame
        → Deals L.Recorder context.now.script.now packet.now.index (frame ∷ []) inputs.old.items inputs.new.items) }
    ensures kept { OnErr result (AreKept L.Recorder context.now.script.now inputs.old.items inputs.new.items) }
{
    let lane = lane_of_frame(packet.bytes, inputs.len());
    deal_to(context, &mut inputs[lane], used, lane, packet)?;
    Ok(lane)
}

/// Gives a frame as the packet of a number, as `deal_packet` does.
pub fn deal_frame<R: Wait, L: Recorder + Drop, G: Gate>(
    context: &WorkerContext<'_, R, G>,
    inputs: &mut Vec<LaneInput<L>>,
    used: &mut [BatchRx],
    index: u64,
    frame: &Frame,
) -> Result<usize, AllocError>
    requires some { 1 ≤ length inputs.old.items }
    requires dealt { WereDealt L.Recorder context.now.script.now index inputs.old.items }
    ensures lane { IfOk result (λ lane. lane ≡ lane_of_sight (sight_of frame.now.bytes) (length inputs.old.items)) }
    ensures within { IfOk result (λ lane. lane < length inputs.old.items) }
    ensures count { length inputs.new.items ≡ length inputs.old.items }
    ensures dealt { OnOk result
        (Deals L.Recorder context.now.script.now index (frame.now ∷ []) inputs.old.items inputs.new.items) }
    ensures kept { OnErr result (AreKept L.Recorder context.now.script.now inputs.old.items inputs.new.items) }
{
    let floor = context.script.floor(index);
    let ceil = context.script.ceil(index);
    let packet = LentPacket::in_frame(index, floor, ceil, frame);
    deal_packet(context, inputs, used, &packet)
}
