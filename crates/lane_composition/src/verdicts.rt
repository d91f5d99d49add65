//! Laws on the verdicts of packets. These functions do nothing: who joins lanes calls them for what they say.

ghost use Rattle.std.specs.Prelude.{◌≡◌, ◌++◌, ℕ, List};
ghost use mathlib.Core.List.{IsPrefix};
ghost use Rattle.flow_table.specs.Key.{EndpointPair};
ghost use Rattle.app_api.specs.declared.reaction.Verdict.{Verdict};
ghost use Rattle.lane_core.specs.Sight.{Arrival};
ghost use Rattle.lane_core.specs.Records.{VersionedPacket};
ghost use Rattle.lane_composition.specs.Members.{Endings};
ghost use Rattle.lane_composition.specs.Named.{named};
ghost use Rattle.lane_composition.specs.Judged.{judged, forwarded};
ghost use Rattle.lane_composition.specs.Runs.{judged_part, AreRuns};

/// A packet's verdict depends on the packets up to it alone: more packets behind change none. So what a front of the
/// packets leaves is a front of what all leave.
pub fn verdicts_stay()
    ensures verdicts { (endings : Endings) (judge : ℕ → List Arrival → Arrival → Verdict)
        (ps more : List VersionedPacket)
        → IsPrefix (judged endings judge ps) (judged endings judge (ps ++ more)) }
    ensures named { (endings : Endings) (judge : ℕ → List Arrival → Arrival → Verdict) (vs : List ℕ)
        (ps more : List Arrival)
        → IsPrefix (judged endings judge (named endings vs ps)) (judged endings judge (named endings vs (ps ++ more))) }
    ensures bytes { (bytes : Arrival → List ℕ) (some all : List (Arrival × Verdict)) → IsPrefix some all
        → IsPrefix (forwarded bytes some) (forwarded bytes all) }
{}

/// The verdicts of a front of a lane's share are a front of the lane's verdicts.
pub fn a_front_of_a_lane()
    ensures verdicts { (endings : Endings) (judge : ℕ → List Arrival → Arrival → Verdict)
        (lane : EndpointPair → ℕ)
        (packets : List Arrival) (parts more : ℕ → List VersionedPacket) (vs : List ℕ) (l : ℕ)
        → AreRuns endings lane packets (λ k. parts k ++ more k) vs
        → IsPrefix (judged endings judge (parts l)) (judged_part lane l (judged endings judge (named endings vs packets))) }
{}
