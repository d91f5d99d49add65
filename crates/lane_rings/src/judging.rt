//! A batch that is judged: each packet's verdict is written into the batch, which then goes back as answers.

ghost use Rattle.std.specs.Prelude.{◌≡◌, ◌<◌, ◌≤◌, ◌++◌, [], ◌∷◌, List, length, slice_get, Some, true, false};
ghost use Rattle.std.specs.List.{All};
ghost use Rattle.lane_rings.specs.Places.{IsWithin, lent};
ghost use Rattle.lane_rings.specs.Judging.{answers_to, lent_answer};

use crate::batch::{FlatBatch, LentPacket, Place};
use app_api::Verdict;
use std::alloc::Global;
use std::marker::Model;

/// A flat batch whose packets are judged, in order: each one is answered or let go. Contracts see the answers so far, and the
/// packets that are left.
#[derive(Drop)]
pub struct Judging {
    // Those of the answered packets are moved to the front.
    places: Vec<Place>,
    bytes: Vec<u8>,
    answered: usize,
    next: usize,
    ghost within: { All (IsWithin (length bytes.items)) places.items },
    ghost order: { answered ≤ next },
    ghost most: { next ≤ length places.items },
}

impl Model for Judging {
    ghost use Rattle.std.specs.Prelude.{map, take, drop};
    ghost use Rattle.lane_rings.specs.Places.{packet_of};
    ghost use Rattle.lane_rings.specs.Judging.{answer_at, JudgedSoFar};

    ghost Value = { JudgedSoFar };

    ghost view = { λ j. record {
      answers = map (answer_at j.bytes.items) (take j.answered j.places.items);
      left = map (packet_of j.bytes.items) (drop j.next j.places.items);
    } };
}

/// The packets of a flat batch that were answered, each with its verdict. Contracts see the list of the answers.
#[derive(Drop)]
pub struct FlatAnswers {
    places: Vec<Place>,
    bytes: Vec<u8>,
    ghost within: { All (IsWithin (length bytes.items)) places.items },
}

impl Model for FlatAnswers {
    ghost use Rattle.std.specs.Prelude.{List, map};
    ghost use Rattle.lane_rings.specs.declared.items.Answer.{Answer};
    ghost use Rattle.lane_rings.specs.Judging.{answer_at};

    ghost Value = { List Answer };

    ghost view = { λ a. map (answer_at a.bytes.items) a.places.items };
}

/// What a lane says of a packet whose bytes stand elsewhere.
#[derive(Clone, Copy)]
pub struct LentAnswer<'a> {
    pub packet: LentPacket<'a>,
    pub verdict: Verdict,
}

impl FlatBatch {
    /// The batch, no packet of which is judged yet. It takes no memory.
    pub fn judge(self) -> Judging
        ensures answers { result.answers ≡ [] }
        ensures left { result.left ≡ self }
    {
        Judging {
            places: self.places,
            bytes: self.bytes,
            answered: 0,
            next: 0,
        }
    }
}

impl Judging {
    ghost use Rattle.lane_rings.specs.declared.items.Packet.{Packet};

    /// Whether no packet is left.
    pub fn is_done(&self) -> bool
        ensures yes { result ≡ true → self.now.left ≡ [] }
        ensures no { result ≡ false → 0 < length self.now.left }
    {
        self.next == self.places.len()
    }

    /// The packet whose turn it is.
    pub fn packet(&self) -> LentPacket<'_>
        requires left { 0 < length self.now.left }
        ensures { slice_get self.now.left 0 ≡ Some (lent result) }
    {
        self.places[self.next].lend(&self.bytes)
    }

    /// Has the packet whose turn it is answered, or let go where there is no verdict. It takes no memory.
    pub fn take(&mut self, verdict: Option<Verdict>)
        requires left { 0 < length self.old.left }
        ensures { (p : Packet) (rest : List Packet) → self.old.left ≡ p ∷ rest
            → self.new ≡ record { answers = self.old.answers ++ answers_to p verdict; left = rest } }
    {
        let next = self.next;
        self.next += 1;
        let Some(verdict) = verdict else {
            return;
        };
        self.places[self.answered] = self.places[next].answered(verdict);
        self.answered += 1;
    }

    /// The answers. Packets that are left are let go. It takes no memory.
    pub fn finish(self) -> FlatAnswers
        ensures { result ≡ self.answers }
    {
        let mut places = self.places;
        places.truncate(self.answered);
        FlatAnswers {
            places,
            bytes: self.bytes,
        }
    }
}

impl FlatAnswers {
    /// No answers. It takes no memory.
    pub fn new(alloc: Global) -> FlatAnswers
        ensures { result ≡ [] }
    {
        FlatAnswers {
            places: Vec::new(alloc),
            bytes: Vec::new(alloc),
        }
    }

    /// How many answers it has.
    pub fn len(&self) -> usize
        ensures { result ≡ length self.now }
    {
        self.places.len()
    }

    /// The answer in this place.
    pub fn answer(&self, n: usize) -> LentAnswer<'_>
        requires below { n < length self.now }
        ensures { slice_get self.now n ≡ Some (lent_answer result) }
    {
        let place = &self.places[n];
        LentAnswer {
            packet: place.lend(&self.bytes),
            verdict: place.verdict,
        }
    }

    /// A batch of no packets, which keeps the memory.
    pub fn emptied(self) -> FlatBatch
        ensures { result ≡ [] }
    {
        let mut batch = FlatBatch {
            places: self.places,
            bytes: self.bytes,
        };
        batch.clear();
        batch
    }
}
