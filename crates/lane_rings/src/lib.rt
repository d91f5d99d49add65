//! What goes between threads: rings over `rtrb` (packets to a lane, places in the script to a lane, answers or packets back
//! from it), and the resequencer, which gives answers out in the order of the capture. No call waits, and no thread is started
//! here.
//!
//! Packets go to a lane in flat batches (`src/batch.rt`). Where answers are waited for, a lane writes each verdict into the
//! batch and sends the batch back as answers (`src/judging.rt`): nothing is copied, and no memory is taken.
//!
//! Contract: the sending end of a ring tells what was sent, the taking end what was taken; where one thread holds both, what
//! was taken and what is left are what was sent, in order. A batch that is judged holds the answers so far, and then the packets
//! that are left. A `Resequencer` gives each index out once, in order from 0.
//! Begin with `specs/Ring.antt` and `specs/Waiting.antt`, then `src/ring.rt` and `src/resequencer.rt`; for batches with
//! `specs/Batch.antt`, `specs/Judging.antt` and `specs/Answers.antt`.
//! Tests: `worker_tests` (rings).
#![tactic(auto)]

mod batch;
mod items;
mod judging;
mod resequencer;
mod ring;

pub use batch::{FlatBatch, LentPacket};
pub use items::{
    Answer, AnswerBatch, AnswerBatchRx, AnswerBatchTx, AnswerRx, AnswerTx, Batch, BatchRx, BatchTx,
    CommandRx, CommandTx, Packet, PacketRx, PacketTx, answer_batch_ring, answer_ring, batch_ring,
    command_ring, packet_ring,
};
pub use judging::{FlatAnswers, Judging, LentAnswer};
pub use resequencer::Resequencer;
pub use ring::{RingRx, RingTx};
