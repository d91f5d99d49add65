//! What the lanes have answered, once their threads have ended.

ghost use Rattle.std.specs.Prelude.{◌≡◌, ℕ, map};
ghost use mathlib.Core.List.{IsPrefix};
ghost use Rattle.lane_rings.specs.Ring.{sent};
ghost use Rattle.forward_dispatch.specs.Compared.{sent_in, sent_from, AreAnswerEnds, AreBeside};
ghost use Rattle.forward_dispatch.specs.Given.{given_by, given_from};

use crate::lane_answers::LaneAnswers;
use lane_core::Recorder;
use lane_rings::AnswerBatchTx;
use lane_worker::Worker;

// Looks at both ends of the answer ring of a lane.
fn compare_one(lane_answers: &mut LaneAnswers, answers: &mut Option<AnswerBatchTx>)
    requires ends { AreAnswerEnds answers.old lane_answers.old.ring }
    ensures sent { sent_in answers.new ≡ sent_in answers.old }
    ensures front { IsPrefix (given_by lane_answers.old) (sent_in answers.old) }
{
    if let Some(tx) = answers {
        lane_answers.ring.beside(tx);
    }
}

/// Looks at both ends of the answer rings of workers whose threads have ended, which shows that the answers that were given
/// out are the first ones that these workers sent. Nothing else of the workers changes.
pub fn compare<L: Recorder + Drop>(workers: &mut Vec<Worker<L>>, all_answers: Vec<LaneAnswers>)
    requires beside { AreBeside workers.old.items all_answers.items }
    ensures lanes { map (λ w. w.lane) workers.new.items ≡ map (λ w. w.lane) workers.old.items }
    ensures fronts { (l : ℕ) → IsPrefix (given_from all_answers.items l) (sent_from workers.old.items l) }
{
    let mut all_answers = all_answers;
    for k in 0..all_answers.len() {
        compare_one(&mut all_answers[k], &mut workers[k].answers);
    }
}
