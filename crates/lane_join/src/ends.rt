//! Joins what lanes end with to what one run comes to.

ghost use Rattle.std.specs.Prelude.{◌≡◌, ◌-◌, ◌^◌, min, ℕ, Bool, List, map, IfOk};
ghost use Rattle.flow_table.specs.Key.{EndpointPair};
ghost use Rattle.app_api.specs.App.{Meaning};
ghost use Rattle.forest_versions.specs.declared.command.Command.{Command};
ghost use Rattle.lane_core.specs.KeptEnd.{shown_as};
ghost use Rattle.lane_core.specs.Sight.{Arrival};
ghost use Rattle.lane_core.specs.Run.{LaneEvent};
ghost use Rattle.run_outcome.specs.Rising.{Rises};
ghost use Rattle.run_outcome.specs.Greatest.{greatest};
ghost use Rattle.run_outcome.specs.Whole.{run_under};
ghost use Rattle.lane_composition.specs.Taken.{AreOneRun};
ghost use Rattle.lane_composition.specs.Ends.{AreEnds, IsJoined, sum_of};

use crate::merging::merge;
use lane_composition::ends::ends_of_lanes_are_one_end;
use lane_core::{KeptEnd, KeptRecords};
use std::alloc::{AllocError, Global};

/// What all lanes end with, as one.
#[derive(Drop)]
pub struct Joined {
    /// The connections and orphans of all lanes, in order of name.
    pub records: KeptRecords,
    /// The callbacks of all records.
    pub callbacks: u64,
    /// What these weigh: 32 each, and the bytes that they saw.
    pub weight: u64,
    /// The dropped packets of all records.
    pub drops: u64,
}

// What is counted over all lanes.
#[derive(Clone, Copy)]
struct Sums {
    callbacks: u64,
    weight: u64,
    drops: u64,
}

// Adds up what is counted at each end. A sum that 64 bits don't hold stays at their greatest number; no run counts as much.
fn sums_of(ends: &[KeptEnd]) -> Sums
    ensures callbacks { result.callbacks ≡ min (sum_of (λ end. end.callbacks) ends.now) (2 ^ 64 - 1) }
    ensures weight { result.weight ≡ min (sum_of (λ end. end.weight) ends.now) (2 ^ 64 - 1) }
    ensures drops { result.drops ≡ min (sum_of (λ end. end.drops) ends.now) (2 ^ 64 - 1) }
{
    let mut sums = Sums {
        callbacks: 0,
        weight: 0,
        drops: 0,
    };
    for end in ends {
        sums.callbacks = sums.callbacks.saturating_add(end.callbacks);
        sums.weight = sums.weight.saturating_add(end.weight);
        sums.drops = sums.drops.saturating_add(end.drops);
    }
    sums
}

/// Joins what lanes end with, lane by lane: where they are the lanes of one run over all packets, to what that run comes
/// to. Records move and aren't copied. A count stays at the greatest number of 64 bits.
pub fn join(alloc: Global, ends: Vec<KeptEnd>) -> Result<Joined, AllocError>
    ensures joined { IfOk result (λ joined. (keep : Bool) (app : Meaning) (commands : List Command)
        (lane : EndpointPair → ℕ) (packets : List Arrival) (lanes : List (List LaneEvent)) (vs : List ℕ)
        → AreOneRun app commands lane packets lanes vs → Rises (map (λ a. a.number) packets)
        → AreEnds keep app (greatest packets) lanes ends.items
        → IsJoined keep app (run_under app commands vs packets) (shown_as app joined.records)
        joined.callbacks joined.weight joined.drops) }
{
    ends_of_lanes_are_one_end();
    let sums = sums_of(ends.as_slice());
    let records = merge(alloc, ends)?;
    Ok(Joined {
        records,
        callbacks: sums.callbacks,
        weight: sums.weight,
        drops: sums.drops,
    })
}
