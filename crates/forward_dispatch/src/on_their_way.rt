//! The packets of a forward run that are on their way.

ghost use Rattle.std.specs.Prelude.{◌≤◌, ◌<◌, ◌+◌, length};
ghost use Rattle.std.specs.List.{All};
ghost use Rattle.std.specs.VecDeque.{deque_capacity};

use crate::lane_answers::LaneAnswers;
use lane_composition::forward::the_next_leaves;
use mos_bytes::{Failed, Sink};
use std::alloc::{AllocError, Global};
use std::collections::VecDeque;

/// How many packets are on their way at most: read, and neither written nor dropped.
pub const ON_THEIR_WAY: usize = 4096;

/// The packets of a forward run that were sent to their lanes and have not left, in the order of the capture. They leave in
/// that order, each by the next answer of its lane.
#[derive(Drop)]
pub struct OnTheirWay {
    // How many packets have left.
    next: u64,
    // The lanes of those that have not.
    lanes: VecDeque<usize>,
    /// What each lane answers.
    pub all_answers: Vec<LaneAnswers>,
    ghost within: { All (λ k. k < length all_answers.items) lanes.items },
    ghost places: { length lanes.items ≤ 4096 },
    ghost room: { 4096 ≤ deque_capacity lanes },
    ghost few: { next + length lanes.items ≤ 1048576 },
}

impl OnTheirWay {
    ghost use Rattle.std.specs.Prelude.{◌≡◌, ◌++◌, [], ◌∷◌, true, IsErr, IsOk, IfOk};
    ghost use Rattle.mos_bytes.specs.Outside.{Writes};
    ghost use Rattle.forward_dispatch.specs.OnTheirWay.{LeavesOn, sent_on};

    /// No packets, to lanes that answer so. It takes its memory at once.
    pub(crate) fn new(
        alloc: Global,
        all_answers: Vec<LaneAnswers>,
    ) -> Result<OnTheirWay, AllocError>
        ensures next { IfOk result (λ way. way.next ≡ 0) }
        ensures lanes { IfOk result (λ way. way.lanes.items ≡ []) }
        ensures answers { IfOk result (λ way. way.all_answers.items ≡ all_answers.items) }
    {
        Ok(OnTheirWay {
            next: 0,
            lanes: VecDeque::with_capacity(alloc, ON_THEIR_WAY)?,
            all_answers,
        })
    }

    /// How many there are.
    pub(crate) fn len(&self) -> usize
        ensures { result ≡ length self.now.lanes.items }
    {
        self.lanes.len()
    }

    /// How many packets were sent.
    pub(crate) fn sent(&self) -> u64
        ensures { result ≡ sent_on self.now }
    {
        self.next + self.lanes.len() as u64
    }

    /// One packet more was sent, to this lane.
    pub(crate) fn join(&mut self, lane: usize)
        requires within { lane < length self.old.all_answers.items }
        requires place { length self.old.lanes.items < 4096 }
        requires few { sent_on self.old < 1048576 }
        ensures next { self.new.next ≡ self.old.next }
        ensures lanes { self.new.lanes.items ≡ self.old.lanes.items ++ lane ∷ [] }
        ensures answers { self.new.all_answers.items ≡ self.old.all_answers.items }
    {
        self.lanes.push_back_reserved(lane);
    }

    // Writes the first of them, if its lane has answered it. Whether it left.
    fn write_first<O: Sink>(&mut self, out: &mut O) -> Result<bool, Failed>
        ensures leaves { LeavesOn self.old self.new (O.taken out.old) (O.taken out.new) (IsOk result) }
        ensures fewer { IfOk result (λ more. more ≡ true
            → length self.new.lanes.items < length self.old.lanes.items) }
        ensures writes { Writes O.Sink out.old out.new (IsErr result) }
    {
        the_next_leaves();
        let Some(lane) = self.lanes.front() else {
            return Ok(false);
        };
        let lane = *lane;
        if !self.all_answers[lane].write_next(out)? {
            return Ok(false);
        }
        self.lanes.pop_front();
        self.next += 1;
        Ok(true)
    }

    /// Writes those whose turn comes, up to the first one that its lane has not answered.
    pub(crate) fn write_ready<O: Sink>(&mut self, out: &mut O) -> Result<(), Failed>
        ensures leaves { LeavesOn self.old self.new (O.taken out.old) (O.taken out.new) (IsOk result) }
        ensures writes { Writes O.Sink out.old out.new (IsErr result) }
    {
        the_next_leaves();
        while self.write_first(out)? {}
        Ok(())
    }
}
