//! What goes through the rings: packets to a lane, places of commands to a lane, and answers from a lane.

ghost use Rattle.std.specs.Prelude.{◌≡◌, ◌<◌, ◌≤◌, [], length, slice_get, Some, IfOk};
ghost use Rattle.lane_rings.specs.Answers.{answers_of};
ghost use Rattle.lane_rings.specs.Judging.{lent_answer};
ghost use Rattle.lane_rings.specs.Ring.{sent, free, taken, known, AreEnds};

use crate::batch::FlatBatch;
use crate::judging::{FlatAnswers, LentAnswer};
use crate::ring::{RingRx, RingTx, ring};
use app_api::Verdict;
use pcap_source::Frame;
use std::alloc::{AllocError, Global};

/// A packet on its way to a lane.
#[derive(Drop)]
pub struct Packet {
    /// Its number in the capture, from 0.
    pub index: u64,
    /// How many commands of the script a record that it begins is under at least.
    pub floor: u32,
    /// How many commands of the script a record that it begins is under at most.
    pub ceil: u32,
    pub frame: Frame,
}

/// What goes to a lane at once.
#[derive(Drop)]
pub enum Batch {
    /// One packet, with a frame of its own.
    Single(Packet),
    /// Packets whose bytes stand one behind the other.
    Flat(FlatBatch),
}

/// A verdict on a packet, with the packet's frame on its way back.
#[derive(Drop)]
pub struct Answer {
    /// The packet's number in the capture, from 0.
    pub index: u64,
    pub verdict: Verdict,
    pub frame: Frame,
}

/// What a lane sends back at once: the packets that it decided, each with its verdict.
#[derive(Drop)]
pub enum AnswerBatch {
    /// One packet, with a frame of its own.
    Single(Packet, Verdict),
    /// Packets whose bytes stand one behind the other.
    Flat(FlatAnswers),
}

impl AnswerBatch {
    /// How many answers it has.
    pub fn len(&self) -> usize
        ensures { result ≡ length (answers_of self.now) }
    {
        match self {
            AnswerBatch::Single(..) => 1,
            AnswerBatch::Flat(answers) => answers.len(),
        }
    }

    /// The answer in this place.
    pub fn answer(&self, n: usize) -> LentAnswer<'_>
        requires below { n < length (answers_of self.now) }
        ensures { slice_get (answers_of self.now) n ≡ Some (lent_answer result) }
    {
        match self {
            AnswerBatch::Single(packet, verdict) => LentAnswer {
                packet: packet.lend(),
                verdict: *verdict,
            },
            AnswerBatch::Flat(answers) => answers.answer(n),
        }
    }
}

/// The end of a packet ring that sends: the dispatcher's.
pub type PacketTx = RingTx<Packet>;
/// The end of a packet ring that takes: the lane's.
pub type PacketRx = RingRx<Packet>;
/// The end of a batch ring that sends: the dispatcher's.
pub type BatchTx = RingTx<Batch>;
/// The end of a batch ring that takes: the lane's.
pub type BatchRx = RingRx<Batch>;
/// The end of a command ring that sends places in the script: the control thread's.
pub type CommandTx = RingTx<u32>;
/// The end of a command ring that takes: the lane's.
pub type CommandRx = RingRx<u32>;
/// The end of an answer ring that sends.
pub type AnswerTx = RingTx<Answer>;
/// The end of an answer ring that takes.
pub type AnswerRx = RingRx<Answer>;
/// The end of a ring for batches of answers that sends: the lane's.
pub type AnswerBatchTx = RingTx<AnswerBatch>;
/// The end of a ring for batches of answers that takes: the dispatcher's.
pub type AnswerBatchRx = RingRx<AnswerBatch>;

/// A ring for packets, of `cap` places. It asks at least one.
pub fn packet_ring(alloc: Global, cap: usize) -> Result<(PacketTx, PacketRx), AllocError>
    requires places { 1 ≤ cap }
    ensures ends { IfOk result (λ r. AreEnds r.0 r.1) }
    ensures sent { IfOk result (λ r. (sent r.0 ≡ []) × (free r.0 ≡ cap)) }
    ensures taken { IfOk result (λ r. (taken r.1 ≡ []) × (known r.1 ≡ [])) }
{
    ring(alloc, cap)
}

/// A ring for batches of packets, of `cap` places. It asks at least one.
pub fn batch_ring(alloc: Global, cap: usize) -> Result<(BatchTx, BatchRx), AllocError>
    requires places { 1 ≤ cap }
    ensures ends { IfOk result (λ r. AreEnds r.0 r.1) }
    ensures sent { IfOk result (λ r. (sent r.0 ≡ []) × (free r.0 ≡ cap)) }
    ensures taken { IfOk result (λ r. (taken r.1 ≡ []) × (known r.1 ≡ [])) }
{
    ring(alloc, cap)
}

/// A ring for places in the script, of `cap` places. It asks at least one.
pub fn command_ring(alloc: Global, cap: usize) -> Result<(CommandTx, CommandRx), AllocError>
    requires places { 1 ≤ cap }
    ensures ends { IfOk result (λ r. AreEnds r.0 r.1) }
    ensures sent { IfOk result (λ r. (sent r.0 ≡ []) × (free r.0 ≡ cap)) }
    ensures taken { IfOk result (λ r. (taken r.1 ≡ []) × (known r.1 ≡ [])) }
{
    ring(alloc, cap)
}

/// A ring for answers, of `cap` places. It asks at least one.
pub fn answer_ring(alloc: Global, cap: usize) -> Result<(AnswerTx, AnswerRx), AllocError>
    requires places { 1 ≤ cap }
    ensures ends { IfOk result (λ r. AreEnds r.0 r.1) }
    ensures sent { IfOk result (λ r. (sent r.0 ≡ []) × (free r.0 ≡ cap)) }
    ensures taken { IfOk result (λ r. (taken r.1 ≡ []) × (known r.1 ≡ [])) }
{
    ring(alloc, cap)
}

/// A ring for batches of answers, of `cap` places. It asks at least one.
pub fn answer_batch_ring(
    alloc: Global,
    cap: usize,
) -> Result<(AnswerBatchTx, AnswerBatchRx), AllocError>
    requires places { 1 ≤ cap }
    ensures ends { IfOk result (λ r. AreEnds r.0 r.1) }
    ensures sent { IfOk result (λ r. (sent r.0 ≡ []) × (free r.0 ≡ cap)) }
    ensures taken { IfOk result (λ r. (taken r.1 ≡ []) × (known r.1 ≡ [])) }
{
    ring(alloc, cap)
}
