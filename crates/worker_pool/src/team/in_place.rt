//! The packets that a source lends: each goes to its lane from where it stands, so that its bytes are copied once.

ghost use Rattle.std.specs.Prelude.{◌≡◌, ◌≢◌, ◌⊎◌, ◌≤◌, [], ℕ, List, Option, Some, length, take, drop, Err, IfOk, IfErr, OnErr, IsErrOf};
ghost use Rattle.mos_bytes.specs.Outside.{Reads};
ghost use Rattle.mos_bytes.specs.Reads.{BeginsWith};
ghost use Rattle.pcap_source.specs.InPlace.{left_behind};
ghost use Rattle.lane_rings.specs.Places.{lent};
ghost use Rattle.worker_pool.specs.Onward.{DealsOn, DealsSome, MayDeal, deal_at};
ghost use Rattle.worker_pool.specs.Sent.{sent_as};

use crate::team::dealing::deal_packet;
use crate::team::lane_input::LaneInput;
use crate::team::progress::Progress;
use control_script::Script;
use flow_timers::Moment;
use lane_core::Recorder;
use lane_rings::{BatchRx, LentPacket};
use lane_worker::{Gate, WorkerContext};
use mos_bytes::Source;
use pcap_source::{Capture, Frame, NextError, WholeRecord};
use std::alloc::AllocError;
use std::sync::Wait;

// How many bytes the head of a record has.
const HEAD: usize = 16;

// How far the packets of a capture were dealt, behind so many bytes.
#[derive(Clone, Copy)]
struct Walked {
    len: usize,
    so_far: Progress,
}

// The whole record at the front of these bytes, as the packet of a number.
#[inline(always)]
fn packet_at<'a>(
    script: &Script,
    index: u64,
    whole: &WholeRecord,
    front: &'a [u8],
) -> LentPacket<'a>
    requires headed { 16 ≤ whole.now.len }
    requires within { whole.now.len ≤ length front.now }
    ensures index { result.index ≡ index }
    ensures packet { lent result ≡ sent_as script.now index (record {
      seconds = whole.now.seconds;
      fraction = whole.now.fraction;
      original = whole.now.original;
      head = take 16 (take whole.now.len front.now);
      bytes = drop 16 (take whole.now.len front.now);
    }) }
{
    let (first, bytes) = front[..whole.len].split_at(HEAD);
    let mut head = [0; HEAD];
    head.copy_from_slice(first);
    LentPacket {
        index,
        floor: script.floor(index),
        ceil: script.ceil(index),
        seconds: whole.seconds,
        fraction: whole.fraction,
        original: whole.original,
        head,
        bytes,
    }
}

// Deals the whole records at the front of these bytes.
fn deal_front<R: Wait, L: Recorder + Drop, G: Gate>(
    context: &WorkerContext<'_, R, G>,
    inputs: &mut Vec<LaneInput<L>>,
    used: &mut [BatchRx],
    capture: &mut Capture,
    so_far: Progress,
    front: &[u8],
) -> Result<Walked, AllocError>
    requires may { MayDeal L.Recorder context.now.script.now inputs.old.items capture.old so_far }
    ensures within { IfOk result (λ walked. walked.len ≤ length front.now) }
    ensures deals { IfOk result (λ walked. (left : Option (List ℕ)) → BeginsWith left front.now
        → DealsOn L.Recorder context.now.script.now (deal_at inputs.old.items capture.old so_far left)
        (deal_at inputs.new.items capture.new walked.so_far (left_behind walked.len left))) }
    ensures stops { OnErr result
        (DealsSome L.Recorder context.now.script.now so_far.packets inputs.old.items inputs.new.items) }
{
    let mut len = 0;
    let mut so_far = so_far;
    loop {
        let rest = &front[len..];
        let Some(whole) = capture.next_in(rest) else {
            return Ok(Walked { len, so_far });
        };
        let packet = packet_at(context.script, so_far.packets, &whole, rest);
        deal_packet(context, inputs, used, &packet)?;
        so_far = so_far.with_packet(Moment {
            seconds: whole.seconds,
            fraction: whole.fraction,
        });
        len += whole.len;
    }
}

/// Deals the packets whose records the source lends whole, and passes over them. It waits where the ring of a lane is full,
/// and works on a lane whose worker is in this thread. Batches that come back through `used` serve again.
///
/// An error is that they can't be passed over, or want of memory. Some packets may have been dealt then.
pub(crate) fn deal_lent<R: Wait, L: Recorder + Drop, S: Source, G: Gate>(
    context: &WorkerContext<'_, R, G>,
    inputs: &mut Vec<LaneInput<L>>,
    used: &mut [BatchRx],
    capture: &mut Capture,
    so_far: Progress,
    source: &mut S,
    frame: &mut Frame,
) -> Result<Progress, NextError>
    requires may { MayDeal L.Recorder context.now.script.now inputs.old.items capture.old so_far }
    ensures deals { IfOk result (λ now. DealsOn L.Recorder context.now.script.now
        (deal_at inputs.old.items capture.old so_far (S.left source.old))
        (deal_at inputs.new.items capture.new now (S.left source.new))) }
    ensures stops { OnErr result
        (DealsSome L.Recorder context.now.script.now so_far.packets inputs.old.items inputs.new.items) }
    ensures only { IfErr result (λ e. (e ≡ NextError.ReadFault) ⊎ (e ≡ NextError.NoMemory)) }
    ensures cut { result ≡ Err NextError.ReadFault
        → (rest : List ℕ) → S.left source.old ≡ Some rest → S.left source.new ≢ Some [] }
    ensures from { Reads S.Source source.old source.new (IsErrOf result NextError.ReadFault) }
{
    let front = source.lend();
    let walked = deal_front(context, inputs, used, capture, so_far, front)?;
    if walked.len == 0 {
        return Ok(walked.so_far);
    }
    Capture::pass_over(source, walked.len, frame)?;
    Ok(walked.so_far)
}
