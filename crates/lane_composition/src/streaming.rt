//! What a forward run that writes while it reads needs of verdicts, to use the laws of `forward`. These functions do
//! nothing: who leads such a run calls them for what they say.

ghost use Rattle.std.specs.Prelude.{◌≡◌, ◌≤◌, ℕ, List, length, map, take};
ghost use mathlib.Core.List.{IsPrefix};
ghost use Rattle.pcap_source.specs.Captured.{Captured};
ghost use Rattle.app_api.specs.App.{Meaning};
ghost use Rattle.app_api.specs.declared.reaction.Verdict.{Verdict};
ghost use Rattle.forest_versions.specs.declared.command.Command.{Command};
ghost use Rattle.lane_composition.specs.Share.{share as numbers_of_share};
ghost use Rattle.lane_composition.specs.Forwarded.{forwarded as forwarded_numbers};
ghost use Rattle.flow_table.specs.Key.{EndpointPair};
ghost use Rattle.lane_core.specs.Sight.{Arrival, arrivals};
ghost use Rattle.lane_core.specs.Run.{LaneEvent};
ghost use Rattle.lane_composition.specs.Judged.{forwarded};
ghost use Rattle.lane_composition.specs.Runs.{judged_part};
ghost use Rattle.run_outcome.specs.Whole.{verdicts_under};
ghost use Rattle.lane_composition.specs.Taken.{events_at, verdicts_in, AreOneRun, AreFrontsOfRun};
ghost use Rattle.lane_composition.specs.Streamed.{answers_to, answer_at, lane_in, AreNumbered, frame_bytes};

/// The right answers to packets, by their places in the list of verdicts. Those of a lane's first packets are the
/// answers to the lane's part of the verdicts, and what the first n packets leave by number is what their verdicts
/// leave.
pub fn a_lane_answers_its_part()
    ensures answers { (frame_of : ℕ → Captured) (lane : EndpointPair → ℕ) (js : List (Arrival × Verdict))
        (d : Arrival × Verdict) (l n : ℕ) → AreNumbered js → n ≤ length js
        → map (answer_at frame_of js d) (numbers_of_share (lane_in lane js d) l n)
        ≡ answers_to frame_of (judged_part lane l (take n js)) }
    ensures bytes { (frame_of : ℕ → Captured) (js : List (Arrival × Verdict)) (d : Arrival × Verdict) (n : ℕ)
        → AreNumbered js → n ≤ length js
        → forwarded_numbers (answer_at frame_of js d) n ≡ forwarded (frame_bytes frame_of) (take n js) }
{}

/// The answers of lanes, with each packet's verdict when it came: those of lanes that have run all of a capture's packets
/// are the right ones, by the run's verdicts, and those of lanes that have run fronts are the first of the right ones.
pub fn lanes_answer_as_the_run()
    ensures whole { (app : Meaning) (commands : List Command) (lane : EndpointPair → ℕ) (frames : List Captured)
        (lanes : List (List LaneEvent)) (vs : List ℕ) (frame_of : ℕ → Captured) (d : Arrival × Verdict) (l : ℕ)
        → AreOneRun app commands lane (arrivals 0 frames) lanes vs
        → let js = verdicts_under app commands vs (arrivals 0 frames) in
        answers_to frame_of (verdicts_in app (events_at lanes l))
        ≡ map (answer_at frame_of js d) (numbers_of_share (lane_in lane js d) l (length js)) }
    ensures fronts { (app : Meaning) (commands : List Command) (lane : EndpointPair → ℕ) (frames : List Captured)
        (lanes : List (List LaneEvent)) (vs : List ℕ) (frame_of : ℕ → Captured) (d : Arrival × Verdict) (l : ℕ)
        → AreFrontsOfRun app commands lane (arrivals 0 frames) lanes vs
        → let js = verdicts_under app commands vs (arrivals 0 frames) in
        IsPrefix (answers_to frame_of (verdicts_in app (events_at lanes l)))
        (map (answer_at frame_of js d) (numbers_of_share (lane_in lane js d) l (length js))) }
    ensures bytes { (app : Meaning) (commands : List Command) (frames : List Captured) (vs : List ℕ)
        (frame_of : ℕ → Captured) (d : Arrival × Verdict)
        → let js = verdicts_under app commands vs (arrivals 0 frames) in
        forwarded_numbers (answer_at frame_of js d) (length js) ≡ forwarded (frame_bytes frame_of) js }
{}
