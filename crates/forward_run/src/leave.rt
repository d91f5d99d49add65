//! The end of a forward run whose threads have ended.

ghost use Rattle.std.specs.Prelude.{◌≡◌, ◌≢◌, ◌≤◌, ◌⊎◌, [], List, Option, ℕ, Some, Err, IsOk, IfOk, IfErr, IsErrOf, length, false};
ghost use Rattle.app_api.specs.App.{Meaning};
ghost use Rattle.pcap_source.specs.Captured.{Captured};
ghost use Rattle.pcap_source.specs.Reading.{CaptureState, frames_at};
ghost use Rattle.lane_rings.specs.declared.items.Batch.{Batch};
ghost use Rattle.lane_rings.specs.declared.ring.RingTx.{RingTx};
ghost use Rattle.control_script.specs.declared.stamped.Stamped.{Stamped};
ghost use Rattle.control_script.specs.Order.{commands_of};
ghost use Rattle.lane_core.specs.Sight.{arrivals};
ghost use Rattle.lane_core.specs.Run.{LaneEvent};
ghost use Rattle.run_outcome.specs.Greatest.{greatest};
ghost use Rattle.lane_composition.specs.Taken.{AreOneRun};
ghost use Rattle.lane_worker.specs.declared.worker.Worker.{Worker as Begun};
ghost use Rattle.worker_pool.specs.Team.{IsTeam, AllKeep, HaveServed};
ghost use Rattle.forward_dispatch.specs.Streamed.{AreLaneAnswers, Streamed};
ghost use Rattle.run_outcome.specs.Allowed.{MayHave};
ghost use Rattle.worker_pool.specs.Ending.{by_key, CameTo};
ghost use Rattle.forward_run.specs.Explained.{AreGood};
ghost use Rattle.forward_run.specs.Forward.{ForwardsOver};

use crate::explain::lanes_have_answered;
use flow_timers::Moment;
use forward_dispatch::{LaneAnswers, compare};
use lane_composition::packets::packets_of_a_capture_rise;
use lane_composition::runs::a_run_has_its_versions;
use lane_core::Reporter;
use lane_join::join;
use lane_worker::{Worker, WorkerContext};
use std::thread::Threads;
use worker_pool::team::dispatch::Whole;
use worker_pool::team::ends::ends_of;
use worker_pool::{PoolError, VersionList, versions_of};

// The versions of the records of lanes that keep no entries.
fn versions_in<R: Threads + Sync, L: Reporter + Drop + Send, G>(
    context: &WorkerContext<'_, R, G>,
    workers: Vec<Worker<L>>,
    last: Option<Moment>,
) -> Result<VersionList, PoolError>
    ensures good { IsOk result → AreGood L.Recorder workers.items }
    ensures versions { (app : Meaning) (script : List Stamped) (frames : List Captured) (lanes : List (List LaneEvent))
        (vs : List ℕ)
        → last ≡ greatest (arrivals 0 frames)
        → CameTo L.Recorder false app script frames workers.items lanes
        → AreOneRun app (commands_of script) (by_key (length workers.items)) (arrivals 0 frames) lanes vs
        → MayHave app script (length workers.items) frames vs → IfOk result (λ versions. versions ≡ vs) }
    ensures kinds { IfErr result (λ e. (e ≡ PoolError.NoMemory) ⊎ (e ≡ PoolError.Heavy)) }
    ensures no_memory { (app : Meaning) (script : List Stamped) (frames : List Captured) (lanes : List (List LaneEvent))
        → CameTo L.Recorder false app script frames workers.items lanes → IfErr result (λ e. e ≡ PoolError.NoMemory) }
{
    packets_of_a_capture_rise();
    a_run_has_its_versions();
    let ends = ends_of(context.rt, context.alloc, workers, last, context.natives)?;
    let joined = join(context.alloc, ends)?;
    let versions = versions_of(context.alloc, joined.records.as_slice())?;
    Ok(versions)
}

/// Ends a forward run whose workers have ended, and answers the versions of the records. What leaves was written before.
///
/// `read` is what the dispatcher ended with; its error is told. Other errors are that a lane failed, or want of memory.
pub(crate) fn leave<R: Threads + Sync, L: Reporter + Drop + Send, G>(
    context: &WorkerContext<'_, R, G>,
    workers: Vec<Worker<L>>,
    all_answers: Vec<LaneAnswers>,
    read: Result<Whole, PoolError>,
) -> Result<VersionList, PoolError>
    requires served { (app : Meaning) × (frames : List Captured) × (begins : List (Begun L))
        × (packets : List (RingTx Batch))
        × IsTeam L.Recorder app begins packets × HaveServed L.Recorder context.now.script.now begins frames workers.items
        × AreLaneAnswers begins all_answers.items }
    ensures ends { (app : Meaning) (frames : List Captured) (begins : List (Begun L)) (packets : List (RingTx Batch))
        (start : CaptureState) (old new before after : Option (List ℕ)) (rest : List ℕ)
        → length frames ≤ 1048576 → IsTeam L.Recorder app begins packets → AllKeep L.Recorder false begins
        → HaveServed L.Recorder context.now.script.now begins frames workers.items
        → Streamed begins frames all_answers.items start old new before after read
        → old ≡ Some rest
        → ForwardsOver app context.now.script.now (length begins) (frames_at start rest) before after result }
    ensures never_heavy { (app : Meaning) (frames : List Captured) (begins : List (Begun L))
        (packets : List (RingTx Batch))
        (start : CaptureState) (old new before after : Option (List ℕ))
        → length frames ≤ 1048576 → IsTeam L.Recorder app begins packets → AllKeep L.Recorder false begins
        → HaveServed L.Recorder context.now.script.now begins frames workers.items
        → Streamed begins frames all_answers.items start old new before after read
        → IfErr result (λ e. e ≢ PoolError.Heavy) }
    ensures ok { IsOk result → IsOk read }
    ensures error { IfErr read (λ e. result ≡ Err e) }
    ensures read_fault { IsErrOf result PoolError.ReadFault → IsErrOf read PoolError.ReadFault }
    ensures write_fault { IsErrOf result PoolError.WriteFault → IsErrOf read PoolError.WriteFault }
{
    lanes_have_answered(context.script, workers.as_slice());
    let mut workers = workers;
    compare(&mut workers, all_answers);
    match read {
        Ok(whole) => versions_in(context, workers, whole.last),
        Err(error) => Err(error),
    }
}
