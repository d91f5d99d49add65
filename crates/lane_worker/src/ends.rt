//! Ends of rings: what was taken and sent.

ghost use Rattle.std.specs.Prelude.{◌≡◌, ◌++◌, [], ◌∷◌, None, IfSome};
ghost use Rattle.lane_rings.specs.Answers.{answers_of, answers_in};
ghost use Rattle.lane_rings.specs.Judging.{answer_to};
ghost use Rattle.lane_rings.specs.Ring.{sent, known, SameTx};
ghost use Rattle.lane_worker.specs.Worked.{Takes, Sends};

use crate::backoff::Backoff;
use app_api::Verdict;
use lane_rings::{AnswerBatch, AnswerBatchTx, Batch, BatchTx, FlatAnswers, Packet, RingRx};
use std::sync::Wait;

/// Takes the oldest item of a ring; none where it shows none.
pub(crate) fn take_from<T: Drop>(ring: &mut RingRx<T>) -> Option<T>
    ensures some { IfSome result (λ item. Takes ring.old ring.new (item ∷ [])) }
    ensures none { result ≡ None → Takes ring.old ring.new [] × (known ring.new ≡ []) }
{
    ring.take()
}

// Sends a batch of answers, and waits where the ring is full.
fn send_waiting<R: Wait>(rt: &R, tx: &mut AnswerBatchTx, batch: AnswerBatch)
    ensures ring { SameTx tx.old tx.new }
    ensures sent { answers_in (sent tx.new) ≡ answers_in (sent tx.old) ++ answers_of batch }
{
    let mut batch = batch;
    let mut backoff = Backoff::eager();
    for _ in rt.forever() {
        match tx.send(batch) {
            Ok(()) => return,
            Err(back) => batch = back,
        }
        backoff.pause(rt);
    }
    unreachable!()
}

/// Sends what a lane says of a packet where there is a ring for it, and waits where that is full. Where there is none,
/// the packet goes back through `used`.
pub(crate) fn send_answer<R: Wait>(
    rt: &R,
    answers: &mut Option<AnswerBatchTx>,
    used: &mut Option<BatchTx>,
    packet: Packet,
    verdict: Verdict,
)
    ensures { Sends answers.old answers.new (answer_to packet verdict ∷ []) }
{
    let Some(tx) = answers else {
        give_back(used, Batch::Single(packet));
        return;
    };
    send_waiting(rt, tx, AnswerBatch::Single(packet, verdict));
}

/// Sends what a lane says of the packets of a batch where there is a ring for it, and waits where that is full. Where there
/// is none, or no answer, the batch goes back through `used`.
pub(crate) fn send_answers<R: Wait>(
    rt: &R,
    answers: &mut Option<AnswerBatchTx>,
    used: &mut Option<BatchTx>,
    batch: FlatAnswers,
)
    ensures { Sends answers.old answers.new batch }
{
    let Some(tx) = answers else {
        give_back(used, Batch::Flat(batch.emptied()));
        return;
    };
    if batch.len() == 0 {
        give_back(used, Batch::Flat(batch.emptied()));
        return;
    }
    send_waiting(rt, tx, AnswerBatch::Flat(batch));
}

// Gives a batch back through the ring for it. Without one, or where it is full, the batch is let go.
fn give_back(used: &mut Option<BatchTx>, batch: Batch) {
    if let Some(tx) = used {
        let _ = tx.send(batch);
    }
}
