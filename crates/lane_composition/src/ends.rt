//! A law on what lanes end with.

ghost use Rattle.std.specs.Prelude.{◌≡◌, ◌-◌, ◌^◌, min, ℕ, Bool, List, map};
ghost use Rattle.flow_table.specs.Key.{EndpointPair};
ghost use Rattle.app_api.specs.App.{Meaning};
ghost use Rattle.report_text.specs.declared.record.Record.{Record};
ghost use Rattle.forest_versions.specs.declared.command.Command.{Command};
ghost use Rattle.lane_core.specs.declared.end.KeptEnd.{KeptEnd};
ghost use Rattle.lane_core.specs.KeptEnd.{shown_as};
ghost use Rattle.lane_core.specs.Sight.{Arrival};
ghost use Rattle.lane_core.specs.Run.{LaneEvent};
ghost use Rattle.run_outcome.specs.Rising.{Rises};
ghost use Rattle.run_outcome.specs.Greatest.{greatest};
ghost use Rattle.lane_composition.specs.Merge.{lane_at, AreOfLanes, IsMerge, shown_name};
ghost use Rattle.run_outcome.specs.Whole.{run_under};
ghost use Rattle.lane_composition.specs.Taken.{AreOneRun};
ghost use Rattle.lane_composition.specs.Ends.{AreEnds, IsJoined, sum_of};

/// Where ends are those of the lanes of one run over all packets, their records are lists of lanes, which can be merged;
/// and the merged list, with what is counted at each end added up, is what that run comes to. This function does
/// nothing: who joins ends calls it for what it says.
pub fn ends_of_lanes_are_one_end()
    ensures mergeable { (keep : Bool) (app : Meaning) (commands : List Command) (lane : EndpointPair → ℕ)
        (packets : List Arrival) (lanes : List (List LaneEvent)) (vs : List ℕ) (ends : List KeptEnd)
        → AreOneRun app commands lane packets lanes vs → Rises (map (λ a. a.number) packets)
        → AreEnds keep app (greatest packets) lanes ends
        → AreOfLanes shown_name (lane_at lane packets) (map (λ end. shown_as app end.records) ends) }
    ensures joined { (keep : Bool) (app : Meaning) (commands : List Command) (lane : EndpointPair → ℕ)
        (packets : List Arrival) (lanes : List (List LaneEvent)) (vs : List ℕ) (ends : List KeptEnd)
        (merged : List Record) → AreOneRun app commands lane packets lanes vs
        → Rises (map (λ a. a.number) packets) → AreEnds keep app (greatest packets) lanes ends
        → IsMerge shown_name (lane_at lane packets) (map (λ end. shown_as app end.records) ends) merged
        → IsJoined keep app (run_under app commands vs packets) merged
        (min (sum_of (λ end. end.callbacks) ends) (2 ^ 64 - 1)) (min (sum_of (λ end. end.weight) ends) (2 ^ 64 - 1))
        (min (sum_of (λ end. end.drops) ends) (2 ^ 64 - 1)) }
{}
