//! Laws on the versions of records. These functions do nothing: who joins lanes calls them for what they say.

ghost use Rattle.std.specs.Prelude.{◌≡◌, ◌≤◌, ◌++◌, ℕ, List, length, map, false, not, IsTrue};
ghost use Rattle.std.specs.List.{All, list_all};
ghost use Rattle.flow_table.specs.Key.{EndpointPair};
ghost use Rattle.app_api.specs.declared.reaction.Verdict.{Verdict};
ghost use Rattle.forest_versions.specs.declared.command.Stamp.{Stamp};
ghost use Rattle.control_script.specs.declared.stamped.Stamped.{Stamped};
ghost use Rattle.control_script.specs.Order.{are_in_order};
ghost use Rattle.control_script.specs.Versions.{floor as script_floor, ceil as script_ceil, is_live as is_live_in};
ghost use Rattle.lane_core.specs.Sight.{Arrival};
ghost use Rattle.lane_core.specs.Records.{VersionedPacket, versioned};
ghost use Rattle.lane_composition.specs.Members.{Endings, records};
ghost use Rattle.lane_composition.specs.Lanes.{share};
ghost use Rattle.lane_composition.specs.Named.{named, records_under};
ghost use Rattle.lane_composition.specs.Judged.{judged};
ghost use Rattle.run_outcome.specs.Rising.{Rises, NeverFalls};
ghost use Rattle.lane_composition.specs.Allowed.{versions_of, arrivals_of, IsAllowed, AreStamped};
ghost use Rattle.lane_composition.specs.Runs.{AreRuns};
ghost use Rattle.lane_composition.specs.Stamps.{floor, ceil, named_packets, is_live};

/// The versions of records, listed in the order of their names, give the records again, and the verdicts.
pub fn versions_name_the_records()
    ensures records { (endings : Endings) (ps : List VersionedPacket)
        → records_under endings (versions_of (records endings ps)) (arrivals_of ps) ≡ records endings ps }
    ensures verdicts { (endings : Endings) (judge : ℕ → List Arrival → Arrival → Verdict)
        (ps : List VersionedPacket)
        → judged endings judge (named endings (versions_of (records endings ps)) (arrivals_of ps)) ≡ judged endings judge ps }
{}

/// Where each lane has, for each packet of its share, a version from the packet's floor to its ceiling, and these never
/// fall along the lane, the list of all records' versions is allowed.
pub fn lanes_give_an_allowed_list()
    ensures list { (least most : ℕ → ℕ) (endings : Endings) (lane : EndpointPair → ℕ)
        (packets : List Arrival)
        (parts : ℕ → List VersionedPacket) → ((l : ℕ) → arrivals_of (parts l) ≡ share lane l packets)
        → ((l : ℕ) → AreStamped least most (parts l))
        → (vs : List ℕ) × IsAllowed least most endings lane packets vs × AreRuns endings lane packets parts vs }
{}

/// Lanes that ran only fronts of their shares: with the ceiling for each packet that no lane has run, the versions so
/// far go on to an allowed list.
pub fn fronts_go_on_to_an_allowed_list()
    ensures list { (least most : ℕ → ℕ) (endings : Endings) (lane : EndpointPair → ℕ)
        (packets : List Arrival)
        (parts : ℕ → List VersionedPacket) (rest : ℕ → List Arrival)
        → ((n : ℕ) → least n ≤ most n) → ((n m : ℕ) → n ≤ m → most n ≤ most m) → Rises (map (λ a. a.number) packets)
        → ((l : ℕ) → arrivals_of (parts l) ++ rest l ≡ share lane l packets)
        → ((l : ℕ) → AreStamped least most (parts l))
        → (vs : List ℕ) × IsAllowed least most endings lane packets vs
        × AreRuns endings lane packets (λ l. parts l ++ versioned most (rest l)) vs }
    ensures ceilings { (least most : ℕ → ℕ) (endings : Endings) (lane : EndpointPair → ℕ)
        (packets : List Arrival)
        → ((n : ℕ) → least n ≤ most n) → ((n m : ℕ) → n ≤ m → most n ≤ most m) → Rises (map (λ a. a.number) packets)
        → IsAllowed least most endings lane packets (versions_of (records endings (versioned most packets))) }
{}

/// Where each packet's floor is its ceiling, one list of versions is allowed, whatever the lanes: that of the ceilings.
pub fn one_list_is_allowed()
    ensures records { (least most : ℕ → ℕ) (endings : Endings) (lane : EndpointPair → ℕ)
        (packets : List Arrival) (vs : List ℕ)
        → ((n : ℕ) → least n ≡ most n) → IsAllowed least most endings lane packets vs
        → records_under endings vs packets ≡ records endings (versioned most packets) }
    ensures list { (least most : ℕ → ℕ) (endings : Endings) (lane : EndpointPair → ℕ)
        (packets : List Arrival) (vs : List ℕ)
        → ((n : ℕ) → least n ≡ most n) → IsAllowed least most endings lane packets vs
        → vs ≡ versions_of (records endings (versioned most packets)) }
{}

/// Floors and ceilings of stamped commands, where the packets that stamps name never fall: no floor lies above its
/// ceiling, ceilings never fall, and where no command is live each floor is its ceiling.
pub fn stamps_give_floors_and_ceilings()
    ensures within { (stamps : List Stamp) (n : ℕ) → NeverFalls (named_packets stamps)
        → floor stamps n ≤ ceil stamps n }
    ensures rises { (stamps : List Stamp) (n m : ℕ) → n ≤ m → ceil stamps n ≤ ceil stamps m }
    ensures equal { (stamps : List Stamp) (n : ℕ) → NeverFalls (named_packets stamps)
        → All (λ s. is_live s ≡ false) stamps
        → floor stamps n ≡ ceil stamps n }
{}

/// The same of the floors and ceilings of a script, whose stamps are in order.
pub fn a_script_gives_floors_and_ceilings()
    ensures within { (script : List Stamped) (n : ℕ) → IsTrue (are_in_order script)
        → script_floor script n ≤ script_ceil script n }
    ensures rises { (script : List Stamped) (n m : ℕ) → n ≤ m → script_ceil script n ≤ script_ceil script m }
    ensures equal { (script : List Stamped) (n : ℕ) → IsTrue (are_in_order script)
        → IsTrue (list_all (λ s. not (is_live_in s.stamp)) script) → script_floor script n ≡ script_ceil script n }
    ensures count { (script : List Stamped) (n : ℕ) → script_ceil script n ≤ length script }
{}
