//! Laws on the packets of a capture, and on the lanes that they go to. These functions do nothing: who deals packets to
//! lanes calls them for what they say.

ghost use Rattle.std.specs.Prelude.{◌≡◌, ◌≤◌, ◌<◌, ℕ, List, map, IsTrue};
ghost use Rattle.pcap_source.specs.Captured.{Captured};
ghost use Rattle.flow_table.specs.Lane.{lane_of_key};
ghost use Rattle.ip6_views.specs.Sight.{lane_of_sight};
ghost use Rattle.app_api.specs.App.{Meaning};
ghost use Rattle.forest_versions.specs.declared.command.Command.{Command};
ghost use Rattle.lane_core.specs.Sight.{Sight, arrivals, sight_of};
ghost use Rattle.lane_core.specs.Laws.{rise};
ghost use Rattle.run_outcome.specs.Lanes.{lane_of};
ghost use Rattle.run_outcome.specs.Rising.{Rises};
ghost use Rattle.run_outcome.specs.Whole.{packets_under};

/// The numbers of a capture's packets rise, and so do they in a run, whatever its versions.
pub fn packets_of_a_capture_rise()
    ensures numbers { (frames : List Captured) → Rises (map (λ a. a.number) (arrivals 0 frames)) }
    ensures run { (app : Meaning) (commands : List Command) (frames : List Captured) (vs : List ℕ)
        → IsTrue (rise 0 (packets_under app commands vs (arrivals 0 frames))) }
{}

/// Each packet goes to one of the lanes: that of its key, as `ip6_views` has it of what is seen of the frame.
pub fn packets_go_to_lanes()
    ensures below { (lanes : ℕ) (sight : Sight) → 1 ≤ lanes
        → lane_of (λ key. lane_of_key key lanes) sight < lanes }
    ensures frame { (lanes : ℕ) (frame : List ℕ)
        → lane_of (λ key. lane_of_key key lanes) (sight_of frame) ≡ lane_of_sight (sight_of frame) lanes }
{}
