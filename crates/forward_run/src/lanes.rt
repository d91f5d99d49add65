//! A forward run on several lanes.

ghost use Rattle.std.specs.Prelude.{◌≡◌, ◌≢◌, ◌≤◌, ◌⊎◌, ℕ, List, Option, Some, Err, IsOk, IsTrue, IsErrOf, IfOk, IfErr};
ghost use Rattle.mos_bytes.specs.Outside.{Writes};
ghost use Rattle.pcap_source.specs.Captured.{Captured};
ghost use Rattle.pcap_source.specs.Reading.{Opened, frames_at};
ghost use Rattle.app_api.specs.App.{Meaning};
ghost use Rattle.forest_versions.specs.Lawful.{are_lawful};
ghost use Rattle.forest_versions.specs.State.{start};
ghost use Rattle.control_script.specs.Order.{commands_of};
ghost use Rattle.worker_pool.specs.GoesOn.{GoesOn};
ghost use Rattle.worker_pool.specs.AtWork.{CanRun, Served};
ghost use Rattle.worker_pool.specs.Source.{IsReadWhole, ReadsOn};
ghost use Rattle.forward_dispatch.specs.Streamed.{ReadsAndWrites, Streamed};
ghost use Rattle.forward_run.specs.Forward.{ForwardsFront, ForwardsOver};
ghost use Rattle.forward_run.specs.Streaming.{MayStream};

use crate::feed::ForwardFeed;
use crate::leave::leave;
use crate::make::make_forward_team;
use app_api::App;
use control_script::Script;
use forward_dispatch::Dealing;
use lane_composition::packets::packets_of_a_capture_rise;
use lane_composition::runs::ceilings_are_allowed;
use lane_composition::versions::a_script_gives_floors_and_ceilings;
use lane_core::Recorder;
use lane_worker::{Gate, Worker, WorkerContext};
use mos_bytes::{Sink, Source};
use pcap_source::Capture;
use std::alloc::AllocError;
use std::sync::Wait;
use std::thread::Threads;
use worker_pool::team::dispatch::Whole;
use worker_pool::team::{Team, run_team};
use worker_pool::{PoolError, VersionList};

// A run that has written nothing has written a front of what it may write. This function does nothing: who ends a run
// before it has begun calls it for what it says.
fn nothing_is_a_front(script: &Script)
    ensures front { (app : Meaning) (lanes : ℕ) (frames : List Captured) (before : Option (List ℕ))
        → ForwardsFront app script.now lanes frames before before }
{
    let _commands = script.len();
    a_script_gives_floors_and_ceilings();
    packets_of_a_capture_rise();
    ceilings_are_allowed();
}

// Runs a team over an opened capture, reads that, and writes what the lanes let pass while it is read. Answers what the
// dispatcher ended with, and the workers. An error is want of memory, before anything was read.
fn stream_lent<
    'a,
    R: Threads + Wait + Sync + Send + Copy + Drop + 'static,
    L: Recorder + Drop + Send,
    S: Source,
    O: Sink,
    G: Gate + Sync,
>(
    context: &'a WorkerContext<'a, R, G>,
    team: Team<L>,
    dealing: &'a mut Dealing<L>,
    capture: &'a mut Capture,
    source: &'a mut S,
    out: &'a mut O,
) -> Result<(Result<Whole, PoolError>, Vec<Worker<L>>), AllocError>
    requires team { CanRun L.Recorder context.now.script.now team.workers.items team.packets.items }
    requires may { MayStream team.workers.items capture.old dealing.old (O.taken out.old) }
    ensures served { IfOk result (λ r. Served L.Recorder context.now.script.now team.workers.items r.1.items
        (λ frames. Streamed team.workers.items frames dealing.new.way.all_answers.items
        capture.old (S.left source.old) (S.left source.new) (O.taken out.old) (O.taken out.new) r.0)) }
    ensures outside { IfOk result (λ r. ReadsAndWrites S.Source O.Sink capture.old capture.new source.old source.new
        out.old out.new r.0) }
    ensures unchanged { IfErr result (λ _. (capture.new ≡ capture.old) × (source.new ≡ source.old)
        × (out.new ≡ out.old)) }
{
    let mut feed = ForwardFeed {
        context,
        dealing,
        capture,
        source,
        out,
    };
    let (read, workers) = run_team(context, team, &mut feed)?;
    Ok((read, workers))
}

// The same, with a context that lives as long as the rest is lent.
fn stream_team<
    R: Threads + Wait + Sync + Send + Copy + Drop + 'static,
    L: Recorder + Drop + Send,
    S: Source,
    O: Sink,
    G: Gate + Sync,
>(
    context: &WorkerContext<'_, R, G>,
    team: Team<L>,
    dealing: &mut Dealing<L>,
    capture: &mut Capture,
    source: &mut S,
    out: &mut O,
) -> Result<(Result<Whole, PoolError>, Vec<Worker<L>>), AllocError>
    requires team { CanRun L.Recorder context.now.script.now team.workers.items team.packets.items }
    requires may { MayStream team.workers.items capture.old dealing.old (O.taken out.old) }
    ensures served { IfOk result (λ r. Served L.Recorder context.now.script.now team.workers.items r.1.items
        (λ frames. Streamed team.workers.items frames dealing.new.way.all_answers.items
        capture.old (S.left source.old) (S.left source.new) (O.taken out.old) (O.taken out.new) r.0)) }
    ensures outside { IfOk result (λ r. ReadsAndWrites S.Source O.Sink capture.old capture.new source.old source.new
        out.old out.new r.0) }
    ensures unchanged { IfErr result (λ _. (capture.new ≡ capture.old) × (source.new ≡ source.old)
        × (out.new ≡ out.old)) }
{
    let shared = WorkerContext {
        rt: context.rt,
        alloc: context.alloc,
        script: context.script,
        natives: context.natives,
        gate: context.gate,
        failed: context.failed,
    };
    stream_lent(&shared, team, dealing, capture, source, out)
}

/// Runs an application over the packets of an opened capture, on several lanes, as `worker_pool::run_lanes` does, and
/// writes the records whose packets pass while the capture is read, in its order and each once. Answers the version of each
/// record, in order of name.
///
/// At most 4,096 packets are on their way between the capture and the output. At an error a front of what was to be
/// written was written; where that is a fault of writing or want of memory, the capture may still be live, and then
/// goes on behind the records that were read. It asks a script that is lawful with the application's presets, and 1 to
/// 16 lanes; the context's `failed` is lowered at first, and raised where a lane fails. It waits for its threads; a lane for
/// which no thread can be started is run in this one, which is no error.
pub fn forward_lanes<
    R: Threads + Wait + Sync + Send + Copy + Drop + 'static,
    A: App + Copy + Send + Sync + Drop,
    S: Source,
    O: Sink,
    G: Gate + Sync,
>(
    context: &WorkerContext<'_, R, G>,
    app: &A,
    workers: usize,
    capture: &mut Capture,
    source: &mut S,
    out: &mut O,
) -> Result<VersionList, PoolError>
    requires opened { Opened capture.old }
    requires some { 1 ≤ workers }
    requires most { workers ≤ 16 }
    requires lawful { IsTrue (are_lawful (start (A.meaning app.now).presets) (commands_of context.now.script.now)) }
    ensures forwards { (rest : List ℕ) → S.left source.old ≡ Some rest
        → ForwardsOver (A.meaning app.now) context.now.script.now workers (frames_at capture.old rest)
        (O.taken out.old) (O.taken out.new) result }
    ensures read { IsOk result → IsReadWhole (S.left source.old) (S.left source.new) }

    // It keeps no entries, so they never weigh too much.
    ensures never_heavy { IfErr result (λ e. e ≢ PoolError.Heavy) }
    ensures reads { ReadsOn S.Source capture.old source.old source.new (IsOk result)
        (IsErrOf result PoolError.ReadFault) }
    ensures writes { Writes O.Sink out.old out.new (IsErrOf result PoolError.WriteFault) }

    // The capture may be read on only where a write failed or memory was refused: then it goes on behind the records
    // read.
    ensures stopped { IsTrue capture.new.is_live
        → ((result ≡ Err PoolError.WriteFault) ⊎ (result ≡ Err PoolError.NoMemory))
        × GoesOn capture.old capture.new (S.left source.old) (S.left source.new) }
{
    nothing_is_a_front(context.script);
    let (team, all_answers, used) = make_forward_team(context, app, workers)?;
    let mut dealing = Dealing::new(context.alloc, all_answers, used)?;
    let (read, served) = stream_team(context, team, &mut dealing, capture, source, out)?;
    let Dealing { way, .. } = dealing;
    leave(context, served, way.all_answers, read)
}
