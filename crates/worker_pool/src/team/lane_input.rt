//! What feeds a lane: where its packets are sent.

ghost use Rattle.std.specs.Prelude.{◌≡◌, ◌<◌, ◌+◌, [], ◌∷◌, length, IsTrue, true, false, if◌then◌else◌, OnOk, OnErr};
ghost use Rattle.lane_rings.specs.Batch.{packets_of};
ghost use Rattle.lane_rings.specs.Places.{lent};
ghost use Rattle.worker_pool.specs.Inputs.{IsSomeInput, Gets, IsKept, AreSomeInputs, AreKept, AreSent, taken_inline, batches_taken, HasTakenAll, HaveTakenAll};

use crate::team::worker_place::WorkerPlace;
use lane_core::Recorder;
use lane_rings::{Batch, BatchRx, BatchTx, FlatBatch, LentPacket, Packet};
use lane_worker::{Backoff, Gate, WorkerContext, take_turn};
use std::alloc::{AllocError, Global};
use std::mem::replace;
use std::sync::Wait;

/// How many packets a batch has at most: with so many it is sent.
pub(crate) const PACKETS_IN_BATCH: usize = 64;

/// With so many bytes a batch is sent, however few its packets are.
const BYTES_IN_BATCH: usize = 16_384;

/// What feeds a lane: the ring into which its packets are sent, and where the worker is that takes them out of it.
#[derive(Drop)]
pub struct LaneInput<L: Recorder + Drop> {
    pub(crate) packets: BatchTx,
    /// Packets that are still to be sent, behind all others.
    pub(crate) unsent: FlatBatch,
    pub(crate) place: WorkerPlace<L>,
}

// Has a worker that is in this thread take one batch out of its ring. Whether it did.
fn take_turn_here<R: Wait, L: Recorder + Drop, G: Gate>(
    context: &WorkerContext<'_, R, G>,
    input: &mut LaneInput<L>,
) -> bool
    requires input { IsSomeInput L.Recorder context.now.script.now input.old }
    ensures input { IsKept L.Recorder context.now.script.now input.old input.new }
    ensures unsent { input.new.unsent ≡ input.old.unsent }
    ensures took { taken_inline input.new.place ≡ taken_inline input.old.place + (if result then 1 else 0) }
    ensures all { result ≡ false → HasTakenAll input.new.place }
{
    match &mut input.place {
        WorkerPlace::Thread(_) => false,
        WorkerPlace::Inline(worker) => take_turn(context, worker),
    }
}

/// Has each worker that is in this thread take one batch out of its ring. Whether one did; if not, their rings show none.
pub fn take_turns<R: Wait, L: Recorder + Drop, G: Gate>(
    context: &WorkerContext<'_, R, G>,
    inputs: &mut Vec<LaneInput<L>>,
) -> bool
    requires inputs { AreSomeInputs L.Recorder context.now.script.now inputs.old.items }
    ensures kept { AreKept L.Recorder context.now.script.now inputs.old.items inputs.new.items }
    ensures took { result ≡ true → batches_taken inputs.old.items < batches_taken inputs.new.items }
    ensures none { result ≡ false → batches_taken inputs.new.items ≡ batches_taken inputs.old.items }
    ensures all { result ≡ false → HaveTakenAll inputs.new.items }
{
    let mut took = false;
    for lane in 0..inputs.len() {
        took |= take_turn_here(context, &mut inputs[lane]);
    }
    took
}

// Sends a batch to a lane for which no packet is unsent. A worker that is in this thread takes it at once, while its packets
// are near; one that is in its own is waited for where its ring has no room.
fn send_batch<R: Wait, L: Recorder + Drop, G: Gate>(
    context: &WorkerContext<'_, R, G>,
    input: &mut LaneInput<L>,
    batch: Batch,
)
    requires input { IsSomeInput L.Recorder context.now.script.now input.old }
    requires closed { input.old.unsent ≡ [] }
    ensures input { Gets L.Recorder context.now.script.now (packets_of batch) input.old input.new }
    ensures closed { input.new.unsent ≡ [] }
{
    let mut batch = batch;
    let mut backoff = Backoff::eager();
    for _ in context.rt.forever() {
        match input.packets.send(batch) {
            Ok(()) => {
                take_turn_here(context, input);
                return;
            }
            Err(back) => batch = back,
        }
        let took = take_turn_here(context, input);
        backoff.looked(context.rt, took);
    }
    unreachable!()
}

/// Sends the packets that are unsent for a lane. A worker that is in this thread takes them at once, and one that is in its own
/// is waited for where its ring has no room. `fresh` is a batch of no packets, into which the next ones go.
pub(crate) fn flush<R: Wait, L: Recorder + Drop, G: Gate>(
    context: &WorkerContext<'_, R, G>,
    input: &mut LaneInput<L>,
    fresh: FlatBatch,
)
    requires input { IsSomeInput L.Recorder context.now.script.now input.old }
    requires fresh { fresh ≡ [] }
    ensures input { IsKept L.Recorder context.now.script.now input.old input.new }
    ensures closed { input.new.unsent ≡ [] }
{
    if input.unsent.len() == 0 {
        return;
    }
    let unsent = replace(&mut input.unsent, fresh);
    send_batch(context, input, Batch::Flat(unsent));
}

/// Sends a packet to a lane, behind what is unsent for it, as `flush` does.
pub(crate) fn send_to<R: Wait, L: Recorder + Drop, G: Gate>(
    context: &WorkerContext<'_, R, G>,
    input: &mut LaneInput<L>,
    packet: Packet,
)
    requires input { IsSomeInput L.Recorder context.now.script.now input.old }
    ensures { Gets L.Recorder context.now.script.now (packet ∷ []) input.old input.new }
{
    flush(context, input, FlatBatch::new(context.alloc));
    send_batch(context, input, Batch::Single(packet));
}

/// A batch of no packets: one that a lane has given back, whose memory serves again, where there is one.
pub(crate) fn fresh_batch(alloc: Global, used: &mut [BatchRx], lane: usize) -> FlatBatch
    ensures { result ≡ [] }
{
    if lane < used.len() {
        if let Some(Batch::Flat(batch)) = used[lane].take() {
            return emptied(batch);
        }
    }
    FlatBatch::new(alloc)
}

fn emptied(batch: FlatBatch) -> FlatBatch
    ensures { result ≡ [] }
{
    let mut batch = batch;
    batch.clear();
    batch
}

// Whether a batch is to be sent.
fn is_full(batch: &FlatBatch) -> bool
    ensures { result ≡ false → length batch.now < 64 }
{
    batch.len() >= PACKETS_IN_BATCH || batch.byte_count() >= BYTES_IN_BATCH
}

// Adds a packet to what is unsent for a lane. Where memory for that is refused, a packet of its own is sent.
#[inline(always)]
fn add_to<R: Wait, L: Recorder + Drop, G: Gate>(
    context: &WorkerContext<'_, R, G>,
    input: &mut LaneInput<L>,
    packet: &LentPacket<'_>,
) -> Result<(), AllocError>
    requires input { IsSomeInput L.Recorder context.now.script.now input.old }
    ensures added { OnOk result (Gets L.Recorder context.now.script.now (lent packet.now ∷ []) input.old input.new) }
    ensures kept { OnErr result (IsKept L.Recorder context.now.script.now input.old input.new) }
{
    match input.unsent.push(packet) {
        Ok(()) => Ok(()),
        Err(_) => send_own(context, input, packet),
    }
}

// Sends a copy of a packet to a lane, behind what is unsent for it. An error is want of memory; nothing is sent then.
#[inline(never)]
fn send_own<R: Wait, L: Recorder + Drop, G: Gate>(
    context: &WorkerContext<'_, R, G>,
    input: &mut LaneInput<L>,
    packet: &LentPacket<'_>,
) -> Result<(), AllocError>
    requires input { IsSomeInput L.Recorder context.now.script.now input.old }
    ensures sent { OnOk result (Gets L.Recorder context.now.script.now (lent packet.now ∷ []) input.old input.new) }
    ensures unchanged { OnErr result (input.new ≡ input.old) }
{
    let own = packet.to_packet(context.alloc)?;
    send_to(context, input, own);
    Ok(())
}

/// Gives a packet to a lane: it joins what is unsent for the lane, and that is sent where it has become long. Batches that
/// come back through `used` serve again. An error is want of memory; the packet isn't given then.
#[inline(always)]
pub(crate) fn deal_to<R: Wait, L: Recorder + Drop, G: Gate>(
    context: &WorkerContext<'_, R, G>,
    input: &mut LaneInput<L>,
    used: &mut [BatchRx],
    lane: usize,
    packet: &LentPacket<'_>,
) -> Result<(), AllocError>
    requires input { IsSomeInput L.Recorder context.now.script.now input.old }
    ensures dealt { OnOk result (Gets L.Recorder context.now.script.now (lent packet.now ∷ []) input.old input.new) }
    ensures kept { OnErr result (IsKept L.Recorder context.now.script.now input.old input.new) }

    // What is unsent stays shorter than a batch.
    ensures few { OnOk result (length input.new.unsent < 64) }
{
    add_to(context, input, packet)?;
    let is_due = is_full(&input.unsent);
    flush_due(context, input, used, lane, is_due);
    Ok(())
}

/// Sends what is unsent for each lane, as `flush` does.
pub fn flush_all<R: Wait, L: Recorder + Drop, G: Gate>(
    context: &WorkerContext<'_, R, G>,
    inputs: &mut Vec<LaneInput<L>>,
    used: &mut [BatchRx],
)
    requires inputs { AreSomeInputs L.Recorder context.now.script.now inputs.old.items }
    ensures kept { AreKept L.Recorder context.now.script.now inputs.old.items inputs.new.items }
    ensures sent { AreSent inputs.new.items }
{
    for lane in 0..inputs.len() {
        let is_due = inputs[lane].unsent.len() > 0;
        flush_due(context, &mut inputs[lane], used, lane, is_due);
    }
}

// Sends what is unsent for a lane, where that is due.
fn flush_due<R: Wait, L: Recorder + Drop, G: Gate>(
    context: &WorkerContext<'_, R, G>,
    input: &mut LaneInput<L>,
    used: &mut [BatchRx],
    lane: usize,
    is_due: bool,
)
    requires input { IsSomeInput L.Recorder context.now.script.now input.old }
    ensures kept { IsKept L.Recorder context.now.script.now input.old input.new }
    ensures due { IsTrue is_due → input.new.unsent ≡ [] }
    ensures early { is_due ≡ false → input.new ≡ input.old }
{
    if is_due {
        flush(context, input, fresh_batch(context.alloc, used, lane));
    }
}
