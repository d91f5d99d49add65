//! Laws that tie what lanes come to with one run over all packets, in the words of `lane_core`. These functions do
//! nothing: who joins lanes calls them for what they say.

ghost use Rattle.std.specs.Prelude.{◌≡◌, ◌≤◌, ◌<◌, ◌+◌, ◌-◌, ◌^◌, ◌++◌, min, ℕ, Bool, List, [], length, map, true};
ghost use mathlib.Core.List.{IsPrefix};
ghost use Rattle.pcap_source.specs.Captured.{Captured};
ghost use Rattle.flow_table.specs.Key.{EndpointPair};
ghost use Rattle.app_api.specs.App.{Meaning};
ghost use Rattle.forest_versions.specs.declared.command.Command.{Command};
ghost use Rattle.lane_core.specs.Sight.{Arrival, arrivals};
ghost use Rattle.lane_core.specs.Records.{RecordSoFar, VersionedPacket, records, versioned, ended_at};
ghost use Rattle.lane_core.specs.Run.{LaneEvent, commands_of, versioned_from};
ghost use Rattle.lane_core.specs.Shown.{weight, callbacks_of, drop_count};
ghost use Rattle.lane_core.specs.Lane.{IsHeavy, IsHeavyAtEnd};
ghost use Rattle.run_outcome.specs.Rising.{Rises};
ghost use Rattle.run_outcome.specs.Greatest.{greatest};
ghost use Rattle.lane_composition.specs.Lanes.{share};
ghost use Rattle.lane_composition.specs.Allowed.{arrivals_of};
ghost use Rattle.lane_composition.specs.Judged.{judged};
ghost use Rattle.lane_composition.specs.Histories.{judge_by, over_under};
ghost use Rattle.lane_core.specs.Versions.{versions_in};
ghost use Rattle.lane_core.specs.Verdicts.{verdicts_from};
ghost use Rattle.run_outcome.specs.Whole.{in_force, packets_under, run_under, verdicts_under, IsAllowedRun};
ghost use Rattle.lane_composition.specs.Taken.{events_at, packets_at, verdicts_behind, HaveRun, HaveRunAll, AreOneRun, AreFrontsOfRun};
ghost use Rattle.lane_composition.specs.Streamed.{AreNumbered};

use lane_core::laws::{
    last_packet_is_added, later_commands_change_none, one_event_more, weight_never_falls,
};

/// Events of a lane and then others: their commands, their packets, each behind as many commands, and what became of
/// these when they came.
pub fn events_follow_events()
    ensures commands { (events more : List LaneEvent)
        → commands_of (events ++ more) ≡ commands_of events ++ commands_of more }
    ensures packets { (v : ℕ) (events more : List LaneEvent)
        → versioned_from v (events ++ more)
        ≡ versioned_from v events ++ versioned_from (v + length (commands_of events)) more }
    ensures verdicts { (app : Meaning) (before events more : List LaneEvent)
        → verdicts_behind app before (events ++ more)
        ≡ verdicts_behind app before events ++ verdicts_behind app (before ++ events) more }
{}

/// Lanes that have run their whole shares: under one list of versions, which is allowed, each lane's records and
/// verdicts are its part of those of one run over all packets.
pub fn lanes_are_one_run()
    ensures run { (app : Meaning) (commands : List Command) (least most : ℕ → ℕ) (lane : EndpointPair → ℕ)
        (packets : List Arrival) (lanes : List (List LaneEvent))
        → HaveRun least most commands lane packets lanes → HaveRunAll lane packets lanes
        → (vs : List ℕ) × IsAllowedRun app commands least most lane packets vs
        × AreOneRun app commands lane packets lanes vs }
{
    later_commands_change_none();
    one_event_more();
    last_packet_is_added();
}

/// Lanes of which some have run only fronts of their shares: under one list of versions, which is allowed, no lane
/// weighs more than one run over all packets, also not at the end where it has run its whole share, and each lane's
/// verdicts are the first ones of its part.
pub fn fronts_are_of_one_run()
    ensures run { (app : Meaning) (commands : List Command) (least most : ℕ → ℕ) (lane : EndpointPair → ℕ)
        (packets : List Arrival) (lanes : List (List LaneEvent))
        → ((n : ℕ) → least n ≤ most n) → ((n m : ℕ) → n ≤ m → most n ≤ most m) → Rises (map (λ a. a.number) packets)
        → HaveRun least most commands lane packets lanes
        → (vs : List ℕ) × IsAllowedRun app commands least most lane packets vs
        × AreFrontsOfRun app commands lane packets lanes vs }
{
    later_commands_change_none();
    one_event_more();
    last_packet_is_added();
    weight_never_falls();
}

/// Where the records of one lane weigh too much, so do those of a run over all packets under an allowed list of
/// versions: those of the packets that it has run, and where it has run its whole share, those at the end.
pub fn a_heavy_lane_makes_a_heavy_run()
    ensures run { (app : Meaning) (commands : List Command) (least most : ℕ → ℕ) (lane : EndpointPair → ℕ)
        (packets : List Arrival) (lanes : List (List LaneEvent)) (l : ℕ)
        → ((n : ℕ) → least n ≤ most n) → ((n m : ℕ) → n ≤ m → most n ≤ most m) → Rises (map (λ a. a.number) packets)
        → HaveRun least most commands lane packets lanes → IsHeavy app (events_at lanes l)
        → (vs : List ℕ) × IsAllowedRun app commands least most lane packets vs
        × (134217728 < weight (run_under app commands vs packets)) }
    ensures at_end { (app : Meaning) (commands : List Command) (least most : ℕ → ℕ) (lane : EndpointPair → ℕ)
        (packets : List Arrival) (lanes : List (List LaneEvent)) (l : ℕ)
        → ((n : ℕ) → least n ≤ most n) → ((n m : ℕ) → n ≤ m → most n ≤ most m) → Rises (map (λ a. a.number) packets)
        → HaveRun least most commands lane packets lanes → arrivals_of (packets_at lanes l) ≡ share lane l packets
        → IsHeavyAtEnd app (events_at lanes l) (greatest packets)
        → (vs : List ℕ) × IsAllowedRun app commands least most lane packets vs
        × (134217728 < weight (run_under app commands vs packets)) }
{
    fronts_are_of_one_run();
}

/// The versions of a run's records are those of the list, where it is allowed; and the run's packets are all packets.
pub fn a_run_has_its_versions()
    ensures versions { (app : Meaning) (commands : List Command) (least most : ℕ → ℕ)
        (lane : EndpointPair → ℕ)
        (packets : List Arrival) (vs : List ℕ)
        → IsAllowedRun app commands least most lane packets vs
        → map (λ r. r.version) (run_under app commands vs packets) ≡ vs }
    ensures packets { (app : Meaning) (commands : List Command) (packets : List Arrival) (vs : List ℕ)
        → arrivals_of (packets_under app commands vs packets) ≡ packets }
{}

/// The ceilings of first packets are an allowed list, whatever the lanes.
pub fn ceilings_are_allowed()
    ensures { (app : Meaning) (commands : List Command) (least most : ℕ → ℕ) (lane : EndpointPair → ℕ)
        (packets : List Arrival)
        → ((n : ℕ) → least n ≤ most n) → ((n m : ℕ) → n ≤ m → most n ≤ most m) → Rises (map (λ a. a.number) packets)
        → IsAllowedRun app commands least most lane packets
        (versions_in (records app (in_force app commands) (versioned most packets))) }
{}

/// Where each packet's floor is its ceiling, all allowed lists give one run, whatever the lanes: that in which each
/// packet has its ceiling as version.
pub fn without_live_commands_there_is_one_run()
    ensures records { (app : Meaning) (commands : List Command) (least most : ℕ → ℕ) (lane : EndpointPair → ℕ)
        (packets : List Arrival) (vs : List ℕ)
        → ((n : ℕ) → least n ≡ most n) → IsAllowedRun app commands least most lane packets vs
        → run_under app commands vs packets
        ≡ map (ended_at app (in_force app commands) (greatest packets))
        (records app (in_force app commands) (versioned most packets)) }
    ensures verdicts { (app : Meaning) (commands : List Command) (least most : ℕ → ℕ)
        (lane : EndpointPair → ℕ)
        (packets : List Arrival) (vs : List ℕ)
        → ((n : ℕ) → least n ≡ most n) → IsAllowedRun app commands least most lane packets vs
        → verdicts_under app commands vs packets ≡ verdicts_from app (in_force app commands) [] (versioned most packets) }
{}

/// The verdicts of a run are those by the packets of connections, of which the laws in `verdicts` and `streaming` speak.
/// There is one for each packet, in order; those of a capture's packets are numbered by their places; and those of the
/// first packets are the first ones.
pub fn verdicts_of_a_run()
    ensures verdicts { (app : Meaning) (commands : List Command) (packets : List Arrival) (vs : List ℕ)
        → verdicts_under app commands vs packets
        ≡ judged (over_under app commands) (judge_by app (in_force app commands)) (packets_under app commands vs packets) }
    ensures packets { (app : Meaning) (commands : List Command) (packets : List Arrival) (vs : List ℕ)
        → map (λ j. j.0) (verdicts_under app commands vs packets) ≡ packets }
    ensures numbered { (app : Meaning) (commands : List Command) (frames : List Captured) (vs : List ℕ)
        → AreNumbered (verdicts_under app commands vs (arrivals 0 frames)) }
    ensures front { (app : Meaning) (commands : List Command) (packets more : List Arrival) (vs : List ℕ)
        → IsPrefix (verdicts_under app commands vs packets) (verdicts_under app commands vs (packets ++ more)) }
{}

/// What is counted over a run fits into 64 bits: its callbacks where they aren't too heavy, and its dropped packets
/// where the capture has at most so many packets.
pub fn counts_of_a_run_fit()
    ensures callbacks { (run : List RecordSoFar) → weight run ≤ 134217728
        → min (callbacks_of run) (2 ^ 64 - 1) ≡ callbacks_of run }
    ensures drops { (app : Meaning) (commands : List Command) (packets : List Arrival) (vs : List ℕ)
        → length packets < 2 ^ 64
        → min (drop_count (run_under app commands vs packets)) (2 ^ 64 - 1) ≡ drop_count (run_under app commands vs packets) }
{}
