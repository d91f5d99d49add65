//! What a lane answers.

ghost use Rattle.std.specs.Prelude.{◌≡◌, ◌++◌};
ghost use Rattle.lane_rings.specs.Answers.{answers_in};
ghost use Rattle.lane_rings.specs.Ring.{taken};
ghost use Rattle.forward_dispatch.specs.Rest.{rest_of, before_rest};

use crate::exit::write_answer;
use lane_rings::{AnswerBatch, AnswerBatchRx, Batch, BatchTx, FlatAnswers};
use mos_bytes::{Failed, Sink};
use std::alloc::Global;
use std::mem::replace;

/// What a lane of a forward run answers, packet by packet.
#[derive(Drop)]
pub struct LaneAnswers {
    // The end of the ring through which the lane's worker answers.
    pub(crate) ring: AnswerBatchRx,
    // The batch at hand.
    batch: AnswerBatch,
    // How many of its answers were given out.
    at: usize,
    // Where a batch goes whose answers were given out, so that its memory serves again.
    back: BatchTx,
    ghost whole: { before_rest (answers_in (taken ring)) (rest_of batch at) ++ rest_of batch at
        ≡ answers_in (taken ring) },
}

impl LaneAnswers {
    ghost use Rattle.std.specs.Prelude.{ℕ, ◌<◌, ◌≤◌, ◌-◌, ◌^◌, [], length, true, IsErr};
    ghost use Rattle.mos_bytes.specs.Outside.{Writes};
    ghost use Rattle.lane_rings.specs.Answers.{answers_of};
    ghost use Rattle.forward_dispatch.specs.Given.{given_by, Gives, LeavesOne};

    /// The answers of a lane that come through a ring from which nothing was taken. Batches that were given out go into
    /// `back`.
    pub fn new(alloc: Global, ring: AnswerBatchRx, back: BatchTx) -> LaneAnswers
        requires untaken { taken ring ≡ [] }
        ensures ring { result.ring ≡ ring }
        ensures given { given_by result ≡ [] }
    {
        LaneAnswers {
            ring,
            batch: AnswerBatch::Flat(FlatAnswers::new(alloc)),
            at: 0,
            back,
        }
    }

    // Takes the next batch from the ring, if that shows one, where the one at hand was given out. Whether it did.
    fn take_batch(&mut self) -> bool
        requires given { length (answers_of self.old.batch) ≤ self.old.at }
        ensures same { Gives self.old self.new [] }
    {
        let Some(batch) = self.ring.take() else {
            return false;
        };
        self.at = 0;
        if let AnswerBatch::Flat(answers) = replace(&mut self.batch, batch) {
            let _ = self.back.send(Batch::Flat(answers.emptied()));
        }
        true
    }

    // Whether an answer is at hand, or comes to hand with the next batch of the ring.
    fn is_at_hand(&mut self) -> bool
        ensures same { Gives self.old self.new [] }
        ensures some { result ≡ true → self.new.at < length (answers_of self.new.batch) }
        ensures few { result ≡ true → self.new.at < 2 ^ 64 - 1 }
    {
        if self.at < self.batch.len() {
            return true;
        }
        self.take_batch() && self.at < self.batch.len()
    }

    /// Writes what the lane's next answer lets pass, and has given it out then, also where the write fails. False where the
    /// lane has not answered.
    pub(crate) fn write_next<O: Sink>(&mut self, out: &mut O) -> Result<bool, Failed>
        ensures leaves { LeavesOne self.old self.new (O.taken out.old) (O.taken out.new) result }
        ensures writes { Writes O.Sink out.old out.new (IsErr result) }
    {
        if !self.is_at_hand() {
            return Ok(false);
        }
        let written = write_answer(&self.batch.answer(self.at), out);
        self.at += 1;
        written?;
        Ok(true)
    }
}
