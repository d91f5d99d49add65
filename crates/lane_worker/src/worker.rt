//! A worker and its work.

ghost use Rattle.std.specs.Prelude.{◌≡◌, ◌+◌, ◌≤◌, [], ◌∷◌, length, if◌then◌else◌, IsTrue, None, true, false};
ghost use Rattle.forest_versions.specs.Lawful.{are_lawful};
ghost use Rattle.forest_versions.specs.State.{start};
ghost use Rattle.control_script.specs.Order.{commands_of};
ghost use Rattle.lane_rings.specs.Batch.{packets_of};
ghost use Rattle.lane_rings.specs.Judging.{answers_to};
ghost use Rattle.lane_rings.specs.Places.{lent};
ghost use Rattle.lane_rings.specs.Ring.{known, taken};
ghost use Rattle.lane_worker.specs.Steps.{fits};
ghost use Rattle.lane_worker.specs.Worked.{MayWork, IsReady, Worked};
ghost use Rattle.lane_worker.specs.Turning.{TookUp, Judged};

use crate::at_hand::keep_at_hand;
use crate::backoff::Backoff;
use crate::context::{WorkerContext, context_of};
use crate::ends::{send_answer, send_answers, take_from};
use crate::gate::Gate;
use crate::turn::{hand_over, is_fit};
use app_api::Verdict;
use control_script::Script;
use lane_core::Recorder;
use lane_rings::{
    AnswerBatchTx, Batch, BatchRx, BatchTx, CommandRx, FlatAnswers, FlatBatch, LentPacket, Packet,
};
use native_filters::NativeBook;
use std::alloc::Global;
use std::sync::Wait;
use std::sync::atomic::{AtomicBool, Ordering};

/// After about so many packets a worker keeps memory at hand anew: what it had may be used up.
const PACKETS_AT_HAND: u32 = 4096;

/// About so many packets a turn has: all of a batch.
const PACKETS_IN_TURN: u32 = 64;

/// After so many turns a worker keeps memory at hand anew.
const TURNS_AT_HAND: u32 = PACKETS_AT_HAND / PACKETS_IN_TURN;

/// What one thread owns: a lane, and its ends of the rings.
#[derive(Drop)]
pub struct Worker<L: Recorder + Drop> {
    /// The number of the lane, from 0.
    pub number: usize,
    pub lane: L,
    /// The packets of the lane, in batches.
    pub packets: BatchRx,
    /// Places in the script: for each, the lane may take the script's next command.
    pub commands: CommandRx,
    /// Where the lane's verdicts go, each batch with those of its packets; none where nobody waits for them.
    pub answers: Option<AnswerBatchTx>,
    /// Where batches go back that no answer takes along, so that their memory serves again; none where they are let go.
    pub used: Option<BatchTx>,
}

/// Works until `stop` is raised and the packet ring then shows no packet.
///
/// It takes the batches of its ring, and the packets of each in order. For one that fits it takes places from the
/// command ring until the lane's version is at least the packet's floor, and then those that the ring shows, up to
/// the packet's ceiling; the lane takes one command of the script for each. Then the lane takes the packet, and with
/// an answer ring its verdict is sent: the batch goes back with the verdicts of its packets, once all are decided. A packet
/// that doesn't fit is let go. Where the lane fails, `failed` is raised, and from then on packets and places are taken unread
/// and no verdict is given.
///
/// For batches and answers it takes no memory: a worker that waited for memory would hang.
///
/// It may be called again with the worker that it answers. It waits for packets, for places and for room in the answer
/// ring.
pub fn work<R: Wait, L: Recorder + Drop, G: Gate>(
    rt: &R,
    alloc: Global,
    w: Worker<L>,
    script: &Script,
    natives: &NativeBook,
    gate: &G,
    stop: &AtomicBool,
    failed: &AtomicBool,
) -> Worker<L>
    requires ready { MayWork L.Recorder (commands_of script.now) w }
    requires lawful { IsTrue (are_lawful (start (L.app w.lane).presets) (commands_of script.now)) }
    ensures worked { Worked L.Recorder (commands_of script.now) w result }
    ensures ready { MayWork L.Recorder (commands_of script.now) result }
    ensures emptied { known result.packets ≡ [] }
{
    let context = context_of(rt, alloc, script, natives, gate, failed);
    work_in(&context, w, stop)
}

/// Works as `work` does, in a context that is shared.
pub fn work_in<R: Wait, L: Recorder + Drop, G: Gate>(
    context: &WorkerContext<'_, R, G>,
    w: Worker<L>,
    stop: &AtomicBool,
) -> Worker<L>
    requires ready { MayWork L.Recorder (commands_of context.now.script.now) w }
    requires lawful { IsTrue (are_lawful (start (L.app w.lane).presets) (commands_of context.now.script.now)) }
    ensures worked { Worked L.Recorder (commands_of context.now.script.now) w result }
    ensures ready { MayWork L.Recorder (commands_of context.now.script.now) result }
    ensures emptied { known result.packets ≡ [] }
{
    let mut w = w;
    let mut backoff = backoff_of(&w);
    let mut turns: u32 = 0;
    for _ in context.rt.forever() {
        if turns % TURNS_AT_HAND == 0 {
            keep_at_hand(context.alloc);
        }
        turns = turns.wrapping_add(1);
        let stopped = stop.load(Ordering::SeqCst);
        let found = take_turn(context, &mut w);
        if stopped && !found {
            return w;
        }
        backoff.looked(context.rt, found);
    }
    unreachable!()
}

// How a worker waits for packets. Where its answers are waited for, it stays awake for longer.
fn backoff_of<L: Recorder + Drop>(w: &Worker<L>) -> Backoff {
    if w.answers.is_some() {
        Backoff::eager()
    } else {
        Backoff::patient()
    }
}

/// Takes a batch out of the ring, and makes of its packets what the lane can, as `work` does. False where the ring shows
/// none. It waits for the places that the packets need, and for room in the answer ring.
pub fn take_turn<R: Wait, L: Recorder + Drop, G: Gate>(
    context: &WorkerContext<'_, R, G>,
    w: &mut Worker<L>,
) -> bool
    requires ready { MayWork L.Recorder (commands_of context.now.script.now) w.old }
    requires lawful { IsTrue (are_lawful (start (L.app w.old.lane).presets) (commands_of context.now.script.now)) }
    ensures worked { Worked L.Recorder (commands_of context.now.script.now) w.old w.new }
    ensures ready { MayWork L.Recorder (commands_of context.now.script.now) w.new }
    ensures none { result ≡ false → known w.new.packets ≡ [] }
    ensures one { length (taken w.new.packets) ≡ length (taken w.old.packets) + (if result then 1 else 0) }
{
    match take_from(&mut w.packets) {
        Some(batch) => {
            take_batch(context, w, batch);
            true
        }
        None => false,
    }
}

// Makes of the packets of a batch what the lane can. The batch goes along with the answers, or back.
fn take_batch<R: Wait, L: Recorder + Drop, G: Gate>(
    context: &WorkerContext<'_, R, G>,
    w: &mut Worker<L>,
    batch: Batch,
)
    requires ready { MayWork L.Recorder (commands_of context.now.script.now) w.old }
    requires lawful { IsTrue (are_lawful (start (L.app w.old.lane).presets) (commands_of context.now.script.now)) }
    ensures taken_up { TookUp L.Recorder (commands_of context.now.script.now) w.old w.new (packets_of batch) }
    ensures ready { MayWork L.Recorder (commands_of context.now.script.now) w.new }
{
    match batch {
        Batch::Single(packet) => take_single(context, w, packet),
        Batch::Flat(batch) => take_flat(context, w, batch),
    }
}

// Makes of a packet with a frame of its own what the lane can. The frame goes along with the answer, or back.
fn take_single<R: Wait, L: Recorder + Drop, G: Gate>(
    context: &WorkerContext<'_, R, G>,
    w: &mut Worker<L>,
    packet: Packet,
)
    requires ready { MayWork L.Recorder (commands_of context.now.script.now) w.old }
    requires lawful { IsTrue (are_lawful (start (L.app w.old.lane).presets) (commands_of context.now.script.now)) }
    ensures taken_up { TookUp L.Recorder (commands_of context.now.script.now) w.old w.new (packet ∷ []) }
    ensures ready { MayWork L.Recorder (commands_of context.now.script.now) w.new }
{
    if let Some(verdict) = take_up(context, w, &packet.lend()) {
        send_answer(context.rt, &mut w.answers, &mut w.used, packet, verdict);
    }
}

// Makes of the packets of a flat batch what the lane can.
fn take_flat<R: Wait, L: Recorder + Drop, G: Gate>(
    context: &WorkerContext<'_, R, G>,
    w: &mut Worker<L>,
    batch: FlatBatch,
)
    requires ready { MayWork L.Recorder (commands_of context.now.script.now) w.old }
    requires lawful { IsTrue (are_lawful (start (L.app w.old.lane).presets) (commands_of context.now.script.now)) }
    ensures taken_up { TookUp L.Recorder (commands_of context.now.script.now) w.old w.new batch }
    ensures ready { MayWork L.Recorder (commands_of context.now.script.now) w.new }
{
    let answers = judge_batch(context, w, batch);
    send_answers(context.rt, &mut w.answers, &mut w.used, answers);
}

// Has the lane decide the packets of a flat batch, as far as it can. The answers have to be sent.
fn judge_batch<R: Wait, L: Recorder + Drop, G: Gate>(
    context: &WorkerContext<'_, R, G>,
    w: &mut Worker<L>,
    batch: FlatBatch,
) -> FlatAnswers
    requires ready { MayWork L.Recorder (commands_of context.now.script.now) w.old }
    requires lawful { IsTrue (are_lawful (start (L.app w.old.lane).presets) (commands_of context.now.script.now)) }
    ensures judged { Judged L.Recorder (commands_of context.now.script.now) w.old w.new batch result }
    ensures ready { MayWork L.Recorder (commands_of context.now.script.now) w.new }
{
    let mut judging = batch.judge();
    while !judging.is_done() {
        let verdict = take_up(context, w, &judging.packet());
        judging.take(verdict);
    }
    judging.finish()
}

// Makes of a packet what the lane can. A verdict is that of the lane, and has to be sent.
fn take_up<R: Wait, L: Recorder + Drop, G: Gate>(
    context: &WorkerContext<'_, R, G>,
    w: &mut Worker<L>,
    packet: &LentPacket<'_>,
) -> Option<Verdict>
    requires ready { MayWork L.Recorder (commands_of context.now.script.now) w.old }
    requires lawful { IsTrue (are_lawful (start (L.app w.old.lane).presets) (commands_of context.now.script.now)) }
    ensures judged { Judged L.Recorder (commands_of context.now.script.now) w.old w.new
        (lent packet.now ∷ []) (answers_to (lent packet.now) result) }
    ensures ready { MayWork L.Recorder (commands_of context.now.script.now) w.new }
{
    if w.lane.has_failed() {
        take_from(&mut w.commands);
        return None;
    }
    if !is_fit(&w.lane, context.script, packet) {
        return None;
    }
    decide_packet(context, w, packet)
}

// Has the lane decide a packet that fits.
fn decide_packet<R: Wait, L: Recorder + Drop, G: Gate>(
    context: &WorkerContext<'_, R, G>,
    w: &mut Worker<L>,
    packet: &LentPacket<'_>,
) -> Option<Verdict>
    requires good { L.failed w.old.lane ≡ None }
    requires ready { IsReady L.Recorder (commands_of context.now.script.now) w.old.lane w.old.commands }
    requires lawful { IsTrue (are_lawful (start (L.app w.old.lane).presets) (commands_of context.now.script.now)) }
    requires fits { fits (length (commands_of context.now.script.now)) (L.last w.old.lane) (L.given w.old.lane)
        (lent packet.now) ≡ true }
    requires few { packet.now.ceil ≤ 4096 }
    ensures judged { Judged L.Recorder (commands_of context.now.script.now) w.old w.new
        (lent packet.now ∷ []) (answers_to (lent packet.now) result) }
    ensures ready { MayWork L.Recorder (commands_of context.now.script.now) w.new }
{
    context.gate.pause(w.number, packet.index);
    match hand_over(context, &mut w.lane, &mut w.commands, packet) {
        Ok(verdict) => Some(verdict),
        Err(_) => {
            context.failed.store(true, Ordering::SeqCst);
            None
        }
    }
}
