//! What the answers of lanes say of a forward run.

ghost use Rattle.std.specs.Prelude.{◌≡◌, ◌≤◌, List, length, false};
ghost use mathlib.Core.List.{IsPrefix};
ghost use Rattle.app_api.specs.App.{Meaning};
ghost use Rattle.pcap_source.specs.Captured.{Captured};
ghost use Rattle.lane_rings.specs.declared.items.Batch.{Batch};
ghost use Rattle.lane_rings.specs.declared.ring.RingTx.{RingTx};
ghost use Rattle.lane_core.specs.Run.{LaneEvent};
ghost use Rattle.lane_worker.specs.declared.worker.Worker.{Worker as Begun};
ghost use Rattle.forward_dispatch.specs.declared.lane_answers.LaneAnswers.{LaneAnswers as Answers};
ghost use Rattle.worker_pool.specs.Team.{IsTeam, AllKeep, HaveServed};
ghost use Rattle.worker_pool.specs.Ending.{CameTo};
ghost use Rattle.forward_dispatch.specs.Streamed.{AreLaneAnswers};
ghost use Rattle.forward_run.specs.Explained.{AreGood, LeavesFront, LeavesAll};

use control_script::Script;
use lane_composition::forward::{later_lanes_change_nothing, what_left_is_right};
use lane_composition::packets::{packets_go_to_lanes, packets_of_a_capture_rise};
use lane_composition::runs::{fronts_are_of_one_run, lanes_are_one_run, verdicts_of_a_run};
use lane_composition::streaming::{a_lane_answers_its_part, lanes_answer_as_the_run};
use lane_core::Recorder;
use lane_worker::Worker;
use worker_pool::team::ends::lanes_have_come;

/// What leaves by the answers of workers that have served the packets of a capture is what their verdicts leave, under
/// versions that the run may have: a front of it in any case, and all of it where all packets have left and no lane failed.
/// This function does nothing: who ends a forward run calls it for what it says.
pub(crate) fn lanes_have_answered<L: Recorder + Drop>(script: &Script, workers: &[Worker<L>])
    ensures front { (app : Meaning) (frames told : List Captured) (begins : List (Begun L))
        (packets : List (RingTx Batch)) (all_answers : List Answers)
        → length frames ≤ 1048576 → IsTeam L.Recorder app begins packets → AllKeep L.Recorder false begins
        → HaveServed L.Recorder script.now begins frames workers.now → AreLaneAnswers begins all_answers
        → IsPrefix frames told
        → LeavesFront app script.now frames told workers.now }
    ensures whole { (app : Meaning) (frames : List Captured) (begins : List (Begun L)) (packets : List (RingTx Batch))
        (all_answers : List Answers)
        → length frames ≤ 1048576 → IsTeam L.Recorder app begins packets → AllKeep L.Recorder false begins
        → HaveServed L.Recorder script.now begins frames workers.now → AreLaneAnswers begins all_answers
        → (lanes : List (List LaneEvent)) × CameTo L.Recorder false app script.now frames workers.now lanes
        × (AreGood L.Recorder workers.now → LeavesAll app script.now frames workers.now lanes) }
{
    lanes_have_come(script, workers);
    packets_go_to_lanes();
    packets_of_a_capture_rise();
    fronts_are_of_one_run();
    lanes_are_one_run();
    verdicts_of_a_run();
    a_lane_answers_its_part();
    lanes_answer_as_the_run();
    later_lanes_change_nothing();
    what_left_is_right();
}
