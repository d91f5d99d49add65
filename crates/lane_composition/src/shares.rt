//! Laws on the shares of lanes. These functions do nothing: who joins lanes calls them for what they say.

ghost use Rattle.std.specs.Prelude.{◌≡◌, ◌≢◌, ◌==◌, ℕ, Option, List, map, filter};
ghost use Rattle.std.specs.List.{All};
ghost use Rattle.flow_table.specs.Key.{EndpointPair};
ghost use Rattle.app_api.specs.App.{Meaning};
ghost use Rattle.app_api.specs.declared.reaction.Verdict.{Verdict};
ghost use Rattle.forest_versions.specs.State.{ControlState};
ghost use Rattle.report_text.specs.declared.record.Record.{Record};
ghost use Rattle.lane_core.specs.Sight.{Moment, Arrival};
ghost use Rattle.lane_core.specs.Records.{VersionedPacket, verdict_on, versioned, records as lane_records, ended_at};
ghost use Rattle.lane_composition.specs.Members.{Endings, Members, name_of, records};
ghost use Rattle.lane_composition.specs.Lanes.{share, part};
ghost use Rattle.run_outcome.specs.Lanes.{lane_of};
ghost use Rattle.lane_composition.specs.Named.{records_under};
ghost use Rattle.lane_composition.specs.Judged.{judged, verdict_of};
ghost use Rattle.run_outcome.specs.Rising.{Rises};
ghost use Rattle.lane_composition.specs.Allowed.{arrivals_of};
ghost use Rattle.lane_composition.specs.Runs.{judged_part, AreRuns};
ghost use Rattle.lane_composition.specs.Merge.{list_at, names_in, AreOfLanes, IsMerge, lane_at, shown_name};
ghost use Rattle.lane_composition.specs.Histories.{judge_by, over_by, with_history};

/// The records of a lane are those by their packets, each with the history of these; and what becomes of a packet after
/// them is what the packets of its connection say.
pub fn records_are_their_packets()
    ensures records { (app : Meaning) (control_at : ℕ → ControlState) (ps : List VersionedPacket)
        → lane_records app control_at ps ≡ map (with_history app control_at) (records (over_by app control_at) ps) }
    ensures verdicts { (app : Meaning) (control_at : ℕ → ControlState) (p : VersionedPacket) (ms : List Members)
        → verdict_on app control_at p (map (with_history app control_at) ms)
        ≡ verdict_of (over_by app control_at) (judge_by app control_at) p ms }
{}

/// Where two ways to give versions agree on the packets of a lane's share, what the share alone makes under the one is
/// its part of what all packets make under the other: its records, and the verdicts of its packets. So it is at the end,
/// where `last` is the greatest moment of all packets on both sides: a connection is silent by the packets of its key and
/// that one moment alone.
pub fn a_share_makes_its_part()
    ensures records { (endings : Endings) (lane : EndpointPair → ℕ) (l : ℕ) (u v : ℕ → ℕ)
        (ps : List Arrival)
        → All (λ a. u a.number ≡ v a.number) (share lane l ps)
        → records endings (versioned u (share lane l ps)) ≡ part lane l (records endings (versioned v ps)) }
    ensures verdicts { (endings : Endings) (judge : ℕ → List Arrival → Arrival → Verdict)
        (lane : EndpointPair → ℕ) (l : ℕ)
        (u v : ℕ → ℕ) (ps : List Arrival) → All (λ a. u a.number ≡ v a.number) (share lane l ps)
        → judged endings judge (versioned u (share lane l ps)) ≡ judged_part lane l (judged endings judge (versioned v ps)) }
    ensures histories { (app : Meaning) (control_at : ℕ → ControlState) (lane : EndpointPair → ℕ)
        (l : ℕ) (u v : ℕ → ℕ)
        (ps : List Arrival)
        → All (λ a. u a.number ≡ v a.number) (share lane l ps)
        → lane_records app control_at (versioned u (share lane l ps))
        ≡ filter (λ r. lane_of lane r.first.sight == l) (lane_records app control_at (versioned v ps)) }
    ensures at_end { (app : Meaning) (control_at : ℕ → ControlState) (last : Option Moment)
        (lane : EndpointPair → ℕ)
        (l : ℕ) (u v : ℕ → ℕ) (ps : List Arrival)
        → All (λ a. u a.number ≡ v a.number) (share lane l ps)
        → map (ended_at app control_at last) (lane_records app control_at (versioned u (share lane l ps)))
        ≡ filter (λ r. lane_of lane r.first.sight == l)
        (map (ended_at app control_at last) (lane_records app control_at (versioned v ps))) }
{}

/// Whatever versions lanes have for the packets of their shares, there is one list of versions under which the part of
/// each lane, of all records and of all verdicts, is what that lane made.
pub fn lanes_make_one_run()
    ensures list { (endings : Endings) (lane : EndpointPair → ℕ) (packets : List Arrival)
        (parts : ℕ → List VersionedPacket)
        → ((l : ℕ) → arrivals_of (parts l) ≡ share lane l packets) → (vs : List ℕ)
        × AreRuns endings lane packets parts vs }
{}

/// Where the numbers of packets rise, so do the names of their records; so records of different lanes have different
/// names.
pub fn names_differ()
    ensures rise { (endings : Endings) (ps : List VersionedPacket) → Rises (map (λ p. p.arrival.number) ps)
        → Rises (map name_of (records endings ps)) }
    ensures apart { (lane : EndpointPair → ℕ) (k l : ℕ) → k ≢ l → (ms : List Members)
        → Rises (map name_of ms)
        → All (λ i. All (λ j. i ≢ j) (map name_of (part lane k ms))) (map name_of (part lane l ms)) }
{}

/// A list of records whose names rise is known by its parts: two such lists with the same part for each lane are equal.
pub fn parts_make_the_whole()
    ensures records { (lane : EndpointPair → ℕ) (ms ns : List Members) → Rises (map name_of ms)
        → Rises (map name_of ns)
        → ((l : ℕ) → part lane l ms ≡ part lane l ns) → ms ≡ ns }
    ensures shown { (of : ℕ → ℕ) (rs ss : List Record) → Rises (names_in shown_name rs)
        → Rises (names_in shown_name ss)
        → ((l : ℕ) → filter (λ r. of r.name == l) rs ≡ filter (λ r. of r.name == l) ss) → rs ≡ ss }
{}

/// What a report shows of the lanes' records can be merged, and merged it is what the report shows of one run over all
/// packets. `shown` makes of a record what the report shows of it, under its name.
pub fn merged_lanes_are_one_run()
    ensures mergeable { (endings : Endings) (lane : EndpointPair → ℕ) (packets : List Arrival)
        (parts : ℕ → List VersionedPacket)
        (vs : List ℕ) (shown : Members → Record) (lists : List (List Record)) → AreRuns endings lane packets parts vs
        → Rises (map (λ a. a.number) packets) → ((m : Members) → (shown m).name ≡ name_of m)
        → ((l : ℕ) → list_at lists l ≡ map shown (records endings (parts l)))
        → AreOfLanes shown_name (lane_at lane packets) lists }
    ensures merged { (endings : Endings) (lane : EndpointPair → ℕ) (packets : List Arrival)
        (parts : ℕ → List VersionedPacket)
        (vs : List ℕ) (shown : Members → Record) (lists : List (List Record)) (merged : List Record)
        → AreRuns endings lane packets parts vs
        → Rises (map (λ a. a.number) packets) → ((m : Members) → (shown m).name ≡ name_of m)
        → ((l : ℕ) → list_at lists l ≡ map shown (records endings (parts l)))
        → IsMerge shown_name (lane_at lane packets) lists merged
        → merged ≡ map shown (records_under endings vs packets) }
{}
