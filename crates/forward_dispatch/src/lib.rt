//! What the calling thread does in a run that forwards on several lanes: packets go to their lanes, and what these let pass is
//! written in the order of the capture, while it is read.
//!
//! A `Dealing` (`src/dispatch.rt`) takes turns: it awaits a place for the next packet, reads it and sends it to its lane, where
//! it may wait for others. The packets are then on their way (`src/on_their_way.rt`). They leave in the order of the capture, each
//! by the next answer of its lane (`src/lane_answers.rt`, `src/exit.rt`). Once the threads have ended, `src/answer_ends.rt` shows that
//! these answers are the first ones of each lane.
//! Contract: at every exit the records of the packets that have left are written whole, and at a fault of writing a prefix of
//! the next one; at most 4,096 packets are on their way (`specs/OnTheirWay.antt`).
//! Begin with `specs/Streamed.antt`, which says what was sent, answered and written, then `src/dispatch.rt`.
//! Tests: none of its own; `run_tests` (handing_on, failing) and `whole_runs` forward with several workers.
#![tactic(auto)]

mod answer_ends;
mod dispatch;
mod exit;
mod lane_answers;
mod on_their_way;

pub use answer_ends::compare;
pub use dispatch::Dealing;
pub use lane_answers::LaneAnswers;
pub use on_their_way::{ON_THEIR_WAY, OnTheirWay};
