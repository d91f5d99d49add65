//! What the lanes of a team come to, and what they end with.

ghost use Rattle.std.specs.Prelude.{◌≡◌, ◌<◌, ◌≤◌, ◌⊎◌, ℕ, Bool, List, length, get_or, IfOk, IfErr};
ghost use Rattle.app_api.specs.App.{Meaning};
ghost use Rattle.pcap_source.specs.Captured.{Captured};
ghost use Rattle.control_script.specs.Versions.{floor, ceil};
ghost use Rattle.lane_rings.specs.declared.items.Batch.{Batch};
ghost use Rattle.lane_rings.specs.declared.ring.RingTx.{RingTx};
ghost use Rattle.lane_core.specs.Run.{LaneEvent};
ghost use Rattle.lane_worker.specs.declared.worker.Worker.{Worker as Begun};
ghost use Rattle.worker_pool.specs.Team.{IsTeam, AllKeep, HaveServed};
ghost use Rattle.worker_pool.specs.Ending.{CameTo, ComesTo, HaveCome, AreEnded, IsCause};
ghost use Rattle.worker_pool.specs.Answered.{HaveAnswered};

use crate::job::PoolError;
use control_script::Script;
use flow_timers::Moment;
use lane_composition::packets::packets_go_to_lanes;
use lane_composition::versions::a_script_gives_floors_and_ceilings;
use lane_core::{KeptEnd, Recorder, Reporter};
use lane_worker::Worker;
use native_filters::NativeBook;
use std::alloc::{AllocError, Global};
use std::thread;
use std::thread::Threads;

/// The lanes of workers that have served a capture share its packets, under the commands of the script, and have
/// answered them. This function does nothing: who ends the lanes calls it for what it says.
pub fn lanes_have_come<L: Recorder + Drop>(script: &Script, workers: &[Worker<L>])
    ensures came { (keep : Bool) (app : Meaning) (frames : List Captured) (begins : List (Begun L))
        (packets : List (RingTx Batch))
        → length frames ≤ 1048576 → IsTeam L.Recorder app begins packets → AllKeep L.Recorder keep begins
        → HaveServed L.Recorder script.now begins frames workers.now
        → (lanes : List (List LaneEvent)) × CameTo L.Recorder keep app script.now frames workers.now lanes
        × HaveAnswered L.Recorder app frames begins workers.now lanes }
    ensures floors { (n : ℕ) → floor script.now n ≤ ceil script.now n }
    ensures ceilings { (n m : ℕ) → n ≤ m → ceil script.now n ≤ ceil script.now m }
{
    let _commands = script.len();
    packets_go_to_lanes();
    a_script_gives_floors_and_ceilings();
}

// What the lane of a worker ends with.
fn end_of<L: Reporter + Drop>(
    alloc: Global,
    worker: Worker<L>,
    last: Option<Moment>,
    natives: &NativeBook,
) -> Result<KeptEnd, PoolError>
    ensures came { ComesTo L.Recorder last worker result }
{
    let Worker { lane, .. } = worker;
    Ok(lane.finish_kept(alloc, last, natives)?)
}

// What the lane of each worker comes to. Each is ended by a thread of its own, where one can be started.
fn each_end<R: Threads + Sync, L: Reporter + Drop + Send>(
    rt: &R,
    alloc: Global,
    workers: Vec<Worker<L>>,
    last: Option<Moment>,
    natives: &NativeBook,
) -> Result<Vec<Result<KeptEnd, PoolError>>, AllocError>
    ensures come { IfOk result (λ came. HaveCome L.Recorder last workers.items came.items) }
{
    let f = |worker: Worker<L>| -> Result<KeptEnd, PoolError>
        ensures came { ComesTo L.Recorder last worker result }
    { end_of(alloc, worker, last, natives) };
    thread::map_vec(rt, workers, &f)
}

/// What the lanes of workers end with, where `last` is the greatest moment of all packets. The first one that has no end
/// tells why.
pub fn ends_of<R: Threads + Sync, L: Reporter + Drop + Send>(
    rt: &R,
    alloc: Global,
    workers: Vec<Worker<L>>,
    last: Option<Moment>,
    natives: &NativeBook,
) -> Result<Vec<KeptEnd>, PoolError>
    ensures ended { IfOk result (λ ends. AreEnded L.Recorder last workers.items ends.items) }
    ensures failed { IfErr result (λ e. (e ≡ PoolError.NoMemory) ⊎ ((k : ℕ) × (k < length workers.items)
        × ((w : Begun L) → IsCause L.Recorder last (get_or workers.items k w) e))) }
{
    let mut ends = Vec::with_capacity(alloc, workers.len())?;
    for came in each_end(rt, alloc, workers, last, natives)? {
        ends.push(came?)?;
    }
    Ok(ends)
}
