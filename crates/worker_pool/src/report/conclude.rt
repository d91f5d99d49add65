//! The end of a run on several lanes, from what its workers have done.

ghost use Rattle.std.specs.Prelude.{◌≡◌, ◌≤◌, ℕ, Bool, true, List, length, nat_lt};
ghost use Rattle.app_api.specs.App.{Meaning};
ghost use Rattle.pcap_source.specs.Captured.{Captured};
ghost use Rattle.control_script.specs.declared.stamped.Stamped.{Stamped};
ghost use Rattle.lane_rings.specs.declared.items.Batch.{Batch};
ghost use Rattle.lane_rings.specs.declared.ring.RingTx.{RingTx};
ghost use Rattle.lane_core.specs.KeptEnd.{shown_as};
ghost use Rattle.lane_core.specs.Sight.{arrivals};
ghost use Rattle.run_outcome.specs.Greatest.{greatest};
ghost use Rattle.lane_composition.specs.Ends.{IsJoined};
ghost use Rattle.lane_worker.specs.declared.worker.Worker.{Worker as Begun};
ghost use Rattle.run_outcome.specs.Allowed.{MayHave, run_of};
ghost use Rattle.worker_pool.specs.Team.{IsTeam, AllKeep, HaveServed};
ghost use Rattle.worker_pool.specs.Ending.{IsJoinedRun, Concludes};

use crate::job::{KeptLanes, PoolError};
use crate::team::Ran;
use crate::team::ends::{ends_of, lanes_have_come};
use crate::versions::versions_of;
use flow_timers::Moment;
use lane_composition::packets::packets_of_a_capture_rise;
use lane_composition::runs::{
    a_heavy_lane_makes_a_heavy_run, a_run_has_its_versions, counts_of_a_run_fit, lanes_are_one_run,
};
use lane_core::Reporter;
use lane_core::limits::WEIGHT as WEIGHT_LIMIT;
use lane_join::{Joined, join};
use lane_worker::{Worker, WorkerContext};
use report_text::Totals;
use std::alloc::Global;
use std::thread::Threads;

// What all lanes end with, as one.
fn joined_of<R: Threads + Sync, L: Reporter + Drop + Send, G>(
    context: &WorkerContext<'_, R, G>,
    workers: Vec<Worker<L>>,
    last: Option<Moment>,
) -> Result<Joined, PoolError>
    ensures joined { (keep : Bool) (app : Meaning) (frames : List Captured) (begins : List (Begun L))
        (packets : List (RingTx Batch))
        → length frames ≤ 1048576 → last ≡ greatest (arrivals 0 frames)
        → IsTeam L.Recorder app begins packets → AllKeep L.Recorder keep begins
        → HaveServed L.Recorder context.now.script.now begins frames workers.items
        → IsJoinedRun app context.now.script.now (length begins) frames keep result }
{
    lanes_have_come(context.script, workers.as_slice());
    packets_of_a_capture_rise();
    lanes_are_one_run();
    a_heavy_lane_makes_a_heavy_run();
    let ends = ends_of(context.rt, context.alloc, workers, last, context.natives)?;
    Ok(join(context.alloc, ends)?)
}

// Whether the callbacks of all records weigh more than a report may.
fn is_heavy(weight: u64) -> bool
    ensures { result ≡ nat_lt 134217728 weight }
{
    weight > WEIGHT_LIMIT
}

// The end of a run with these records, over a capture of so many packets and such a tail.
fn whole_of(alloc: Global, joined: Joined, packets: u64, tail: u32) -> Result<KeptLanes, PoolError>
    ensures whole { (app : Meaning) (script : List Stamped) (lanes : ℕ) (frames : List Captured) (vs : List ℕ)
        → MayHave app script lanes frames vs
        → IsJoined true app (run_of app script vs frames) (shown_as app joined.records)
        joined.callbacks joined.weight joined.drops
        → length frames ≡ packets → length frames ≤ 1048576
        → Concludes app script lanes frames tail result }
{
    a_run_has_its_versions();
    counts_of_a_run_fit();
    if is_heavy(joined.weight) {
        return Err(PoolError::Heavy);
    }
    let records = joined.records.as_slice();
    let versions = versions_of(alloc, records)?;
    let totals = Totals {
        packets,
        records: records.len() as u64,
        callbacks: joined.callbacks,
        drops: joined.drops,
        tail,
    };
    Ok(KeptLanes {
        records: joined.records,
        versions,
        totals,
    })
}

/// The end of a run whose workers have served a whole capture.
pub(crate) fn conclude<R: Threads + Sync, L: Reporter + Drop + Send, G>(
    context: &WorkerContext<'_, R, G>,
    ran: Ran<L>,
) -> Result<KeptLanes, PoolError>
    ensures ends { (app : Meaning) (frames : List Captured) (begins : List (Begun L)) (packets : List (RingTx Batch))
        → length frames ≡ ran.whole.packets → length frames ≤ 1048576 → ran.whole.last ≡ greatest (arrivals 0 frames)
        → IsTeam L.Recorder app begins packets → AllKeep L.Recorder true begins
        → HaveServed L.Recorder context.now.script.now begins frames ran.workers.items
        → Concludes app context.now.script.now (length begins) frames ran.whole.tail result }
{
    let Ran { workers, whole } = ran;
    let joined = joined_of(context, workers, whole.last)?;
    whole_of(context.alloc, joined, whole.packets, whole.tail)
}
