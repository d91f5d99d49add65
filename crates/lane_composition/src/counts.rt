//! Laws on what is counted over records: callbacks, dropped packets, weight. These functions do nothing: who joins
//! lanes calls them for what they say.

ghost use Rattle.std.specs.Prelude.{◌≡◌, ◌≤◌, ◌<◌, ◌++◌, ℕ, List};
ghost use Rattle.std.specs.List.{All};
ghost use Rattle.flow_table.specs.Key.{EndpointPair};
ghost use Rattle.lane_core.specs.Sight.{Arrival};
ghost use Rattle.lane_core.specs.Records.{VersionedPacket};
ghost use Rattle.lane_composition.specs.Members.{Endings, Members, joined_by, ended_by_silence, records};
ghost use Rattle.run_outcome.specs.Lanes.{lane_of};
ghost use Rattle.lane_composition.specs.Named.{records_under};
ghost use Rattle.lane_composition.specs.Counted.{total, total_of_lanes};
ghost use Rattle.lane_composition.specs.Runs.{AreRuns};

/// What is counted of each record adds up over the lanes.
pub fn counts_add_up()
    ensures total { (lane : EndpointPair → ℕ) (count : Members → ℕ) (lanes : ℕ) (ms : List Members)
        → All (λ m. lane_of lane m.first.sight < lanes) ms → total_of_lanes lane count lanes ms ≡ total count ms }
{}

/// What never falls as a record takes a packet or is ended by silence never falls with more packets; so what one lane ran
/// counts at most what all packets do.
pub fn more_packets_count_more()
    ensures packets { (endings : Endings) (count : Members → ℕ) (ps more : List VersionedPacket)
        → ((a : Arrival) (m : Members) → count m ≤ count (joined_by a m))
        → ((m : Members) → count m ≤ count (ended_by_silence m))
        → total count (records endings ps) ≤ total count (records endings (ps ++ more)) }
    ensures lanes { (endings : Endings) (count : Members → ℕ) (lane : EndpointPair → ℕ)
        (packets : List Arrival)
        (parts more : ℕ → List VersionedPacket) (vs : List ℕ) (l : ℕ)
        → ((a : Arrival) (m : Members) → count m ≤ count (joined_by a m))
        → ((m : Members) → count m ≤ count (ended_by_silence m))
        → AreRuns endings lane packets (λ k. parts k ++ more k) vs
        → total count (records endings (parts l)) ≤ total count (records_under endings vs packets) }
{}
