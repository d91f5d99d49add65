//! A run on several lanes.

ghost use Rattle.std.specs.Prelude.{◌≡◌, ◌≤◌, ◌⊎◌, ℕ, List, Some, Err, IsOk, IfOk, IsTrue, IsErrOf};
ghost use Rattle.pcap_source.specs.Captured.{Captured};
ghost use Rattle.pcap_source.specs.Reading.{Opened, frames_at};
ghost use Rattle.forest_versions.specs.Lawful.{are_lawful};
ghost use Rattle.forest_versions.specs.State.{start};
ghost use Rattle.control_script.specs.Order.{commands_of};
ghost use Rattle.worker_pool.specs.Run.{EndsOver, IsWhole, as_shown, shown_end};
ghost use Rattle.worker_pool.specs.Source.{IsReadWhole, ReadsOn};

use crate::job::{Job, KeptLanes, LanesEnd, PoolError};
use crate::report::conclude::conclude;
use crate::report::feed::read_team;
use crate::team::make::make_team;
use app_api::App;
use lane_core::records_of;
use lane_worker::{Gate, WorkerContext};
use mos_bytes::Source;
use native_filters::NativeBook;
use pcap_source::Capture;
use std::alloc::Global;
use std::sync::Wait;
use std::sync::atomic::AtomicBool;
use std::thread::Threads;

/// Runs an application over the packets of an opened capture, on several lanes: each has a thread of its own and the
/// packets of its keys, and all look at one store of trees. A further thread tells them of the script's commands while
/// the capture is read.
///
/// Its records stay as the lanes kept them. As the report shows them, they are those of one run over all packets under the
/// versions that it answers, whatever the order of the threads' steps. It asks a script that is lawful with the
/// application's presets, and 1 to 16 lanes. An error is that the capture is refused, that its source failed, that memory
/// was refused, or that the callbacks weigh too much. A lane for which no thread can be started is run in this one, which
/// is no error. It waits for its threads. Where memory is refused before the capture is read, capture and source are as
/// they were; else the capture is no longer live.
pub fn run_lanes_kept<
    R: Threads + Wait + Sync + Send + Copy + Drop + 'static,
    A: App + Copy + Send + Sync + Drop,
    S: Source,
    G: Gate + Sync,
>(
    rt: &R,
    alloc: Global,
    job: &Job<'_, A>,
    capture: &mut Capture,
    source: &mut S,
    natives: &NativeBook,
    gate: &G,
) -> Result<KeptLanes, PoolError>
    requires opened { Opened capture.old }
    requires some { 1 ≤ job.now.workers }
    requires most { job.now.workers ≤ 16 }
    requires lawful { IsTrue (are_lawful (start (A.meaning job.now.app).presets) (commands_of job.now.script.now)) }
    ensures ends { (rest : List ℕ) → S.left source.old ≡ Some rest
        → EndsOver (A.meaning job.now.app) job.now.script.now job.now.workers (frames_at capture.old rest)
        (shown_end (A.meaning job.now.app) result) }
    ensures whole { IfOk result (λ end. (frames : List Captured) × (tail : ℕ)
        × IsWhole (A.meaning job.now.app) job.now.script.now job.now.workers frames tail
        (as_shown (A.meaning job.now.app) end)) }
    ensures read { IsOk result → IsReadWhole (S.left source.old) (S.left source.new) }
    ensures no_write { IsErrOf result PoolError.WriteFault → ⊥ }

    // That a run weighs too much is told only where all of the capture was read.
    ensures reads { ReadsOn S.Source capture.old source.old source.new
        (IsOk result ⊎ IsErrOf result PoolError.Heavy) (IsErrOf result PoolError.ReadFault) }

    // The capture may be read on only where nothing of it was read.
    ensures stopped { IsTrue capture.new.is_live
        → (result ≡ Err PoolError.NoMemory) × (capture.new ≡ capture.old) × (source.new ≡ source.old) }
{
    let (team, used) = make_team(rt, alloc, job)?;
    let failed = AtomicBool::new(false);
    let context = WorkerContext {
        rt,
        alloc,
        script: job.script,
        natives,
        gate,
        failed: &failed,
    };
    let ran = read_team(&context, team, used, capture, source)?;
    conclude(&context, ran)
}

/// Runs an application over the packets of an opened capture, on several lanes, as [`run_lanes_kept`] does, and answers the
/// records as a report shows them. Memory may be refused for these too, once the capture was read.
pub fn run_lanes<
    R: Threads + Wait + Sync + Send + Copy + Drop + 'static,
    A: App + Copy + Send + Sync + Drop,
    S: Source,
    G: Gate + Sync,
>(
    rt: &R,
    alloc: Global,
    job: &Job<'_, A>,
    capture: &mut Capture,
    source: &mut S,
    natives: &NativeBook,
    gate: &G,
) -> Result<LanesEnd, PoolError>
    requires opened { Opened capture.old }
    requires some { 1 ≤ job.now.workers }
    requires most { job.now.workers ≤ 16 }
    requires lawful { IsTrue (are_lawful (start (A.meaning job.now.app).presets) (commands_of job.now.script.now)) }
    ensures ends { (rest : List ℕ) → S.left source.old ≡ Some rest
        → EndsOver (A.meaning job.now.app) job.now.script.now job.now.workers (frames_at capture.old rest) result }
    ensures whole { IfOk result (λ end. (frames : List Captured) × (tail : ℕ)
        × IsWhole (A.meaning job.now.app) job.now.script.now job.now.workers frames tail end) }
    ensures read { IsOk result → IsReadWhole (S.left source.old) (S.left source.new) }
    ensures no_write { IsErrOf result PoolError.WriteFault → ⊥ }

    // That a run weighs too much is told only where all of the capture was read.
    ensures reads { ReadsOn S.Source capture.old source.old source.new
        (IsOk result ⊎ IsErrOf result PoolError.Heavy) (IsErrOf result PoolError.ReadFault) }

    // The capture may be read on only where nothing of it was read.
    ensures stopped { IsTrue capture.new.is_live
        → (result ≡ Err PoolError.NoMemory) × (capture.new ≡ capture.old) × (source.new ≡ source.old) }
{
    let end = run_lanes_kept(rt, alloc, job, capture, source, natives, gate)?;
    let records = records_of(alloc, &job.app, end.records.items)?;
    Ok(LanesEnd {
        records,
        versions: end.versions,
        totals: end.totals,
    })
}
