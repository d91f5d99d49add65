//! Makes the workers of a run.

ghost use Rattle.std.specs.Prelude.{◌≡◌, ◌+◌, ◌≤◌, Bool, true, length, IfOk, OnOk};
ghost use Rattle.app_api.specs.App.{Meaning};
ghost use Rattle.worker_pool.specs.Making.{Adds, IsFresh, AreBegun, JoinsBegun};
ghost use Rattle.worker_pool.specs.Team.{IsTeam, AllKeep};

use crate::job::Job;
use crate::team::Team;
use crate::team::lane_input::PACKETS_IN_BATCH;
use app_api::App;
use lane_core::{Lane, Recorder};
use lane_rings::{AnswerBatchTx, BatchRx, BatchTx, batch_ring, command_ring};
use lane_worker::Worker;
use shared_forest::{ForestStore, StoreUser};
use std::alloc::{AllocError, Global};
use std::sync::{Arc, Wait};

/// How many batches may wait for a lane, where no more are to be on their way.
const WAITING_BATCHES: usize = 256;

/// How many packets may be on their way to all lanes of a run that is reported.
const WAITING_IN_ALL: usize = 4096;

// How many batches may wait for each of so many lanes of a run that is reported, beside one that is still unsent and one
// that is worked off. The more, the seldomer the thread that reads and a worker wait for each other.
fn waiting_for_each(lanes: usize) -> usize
    requires some { 1 ≤ lanes }
    ensures some { 1 ≤ result }
{
    (WAITING_IN_ALL / lanes / PACKETS_IN_BATCH).max(3) - 2
}

// Adds a worker of a lane to a team, as `enlist` does; so many batches may wait for it.
fn enlist_with<L: Recorder + Drop>(
    alloc: Global,
    team: &mut Team<L>,
    lane: L,
    waiting: usize,
    places: usize,
    answers: Option<AnswerBatchTx>,
    used: Option<BatchTx>,
) -> Result<(), AllocError>
    requires waiting { 1 ≤ waiting }
    requires places { 1 ≤ places }
    ensures begun { OnOk result (JoinsBegun L.Recorder lane team.old.workers.items team.old.packets.items
        team.new.workers.items team.new.packets.items) }
    ensures added { OnOk result (Adds answers used team.old.workers.items team.new.workers.items) }
    ensures count { OnOk result (length team.new.workers.items ≡ length team.old.workers.items + 1) }
{
    let (packets_tx, packets) = batch_ring(alloc, waiting)?;
    let (commands_tx, commands) = command_ring(alloc, places)?;
    team.workers.push(Worker {
        number: team.workers.len(),
        lane,
        packets,
        commands,
        answers,
        used,
    })?;
    team.packets.push(packets_tx)?;
    team.commands.push(commands_tx)?;
    Ok(())
}

/// Adds a worker of a lane to a team, with rings of its own; its command ring has so many places. `answers` is where it
/// answers, `used` where it gives batches back. An error is want of memory; the team is then of no more use.
pub fn enlist<L: Recorder + Drop>(
    alloc: Global,
    team: &mut Team<L>,
    lane: L,
    places: usize,
    answers: Option<AnswerBatchTx>,
    used: Option<BatchTx>,
) -> Result<(), AllocError>
    requires places { 1 ≤ places }
    ensures begun { OnOk result (JoinsBegun L.Recorder lane team.old.workers.items team.old.packets.items
        team.new.workers.items team.new.packets.items) }
    ensures added { OnOk result (Adds answers used team.old.workers.items team.new.workers.items) }
    ensures count { OnOk result (length team.new.workers.items ≡ length team.old.workers.items + 1) }
{
    enlist_with(alloc, team, lane, WAITING_BATCHES, places, answers, used)
}

// The same, with a ring through which the worker gives batches back; its other end goes into `used`. It has as many
// places as batches may be on their way, so that all come back.
fn enlist_giving_back<L: Recorder + Drop>(
    alloc: Global,
    team: &mut Team<L>,
    used: &mut Vec<BatchRx>,
    lane: L,
    waiting: usize,
    places: usize,
) -> Result<(), AllocError>
    requires waiting { 1 ≤ waiting }
    requires places { 1 ≤ places }
    ensures begun { OnOk result (JoinsBegun L.Recorder lane team.old.workers.items team.old.packets.items
        team.new.workers.items team.new.packets.items) }
    ensures count { OnOk result (length team.new.workers.items ≡ length team.old.workers.items + 1) }
{
    let (used_tx, used_rx) = batch_ring(alloc, waiting.saturating_add(2))?;
    enlist_with(alloc, team, lane, waiting, places, None, Some(used_tx))?;
    used.push(used_rx)?;
    Ok(())
}

// A team of so many workers, of which nobody awaits answers, and the rings through which they give batches back. `make`
// makes their lanes.
fn team_of<L: Recorder + Drop, F: Fn() -> Result<L, AllocError>>(
    alloc: Global,
    count: usize,
    waiting: usize,
    places: usize,
    make: F,
) -> Result<(Team<L>, Vec<BatchRx>), AllocError>
    requires waiting { 1 ≤ waiting }
    requires places { 1 ≤ places }
    requires callable { F.IsAlwaysCallable make }
    ensures begun { IfOk result (λ r. (app : Meaning) (keep : Bool)
        → ((made : _) → F.post make made → IfOk made (λ lane. IsFresh L.Recorder app keep lane))
        → AreBegun L.Recorder app keep r.0.workers.items r.0.packets.items) }
    ensures count { IfOk result (λ r. length r.0.workers.items ≡ count) }
{
    let mut team = Team {
        workers: Vec::new(alloc),
        packets: Vec::new(alloc),
        commands: Vec::new(alloc),
    };
    let mut used = Vec::new(alloc);
    for _ in 0..count {
        enlist_giving_back(alloc, &mut team, &mut used, make()?, waiting, places)?;
    }
    Ok((team, used))
}

/// A lane that has begun nothing, over a store of trees; it keeps entries, or doesn't. An error is want of memory.
pub fn lane_over<R: Wait + Copy + Drop, A: App + Copy + Drop>(
    rt: &R,
    alloc: Global,
    app: &A,
    store: &Arc<ForestStore, Global>,
    keep: bool,
) -> Result<Lane<A, StoreUser<R>>, AllocError>
    ensures { IfOk result (λ lane. IsFresh ⟦<Lane<A, StoreUser<R>> as Recorder>⟧ (A.meaning app.now) keep lane) }
{
    let user = StoreUser::new(Arc::try_clone(store)?, *rt);
    Lane::new(alloc, *app, user, keep)
}

/// Makes a worker for each lane of a run that is reported, and the ring of each through which batches come back. All
/// look at one store of trees.
pub(crate) fn make_team<R: Wait + Copy + Drop, A: App + Copy + Drop>(
    rt: &R,
    alloc: Global,
    job: &Job<'_, A>,
) -> Result<(Team<Lane<A, StoreUser<R>>>, Vec<BatchRx>), AllocError>
    requires some { 1 ≤ job.now.workers }
    ensures team { IfOk result (λ r. IsTeam ⟦<Lane<A, StoreUser<R>> as Recorder>⟧
        (A.meaning job.now.app) r.0.workers.items r.0.packets.items) }
    ensures keep { IfOk result (λ r. AllKeep ⟦<Lane<A, StoreUser<R>> as Recorder>⟧ true r.0.workers.items) }
    ensures count { IfOk result (λ r. length r.0.workers.items ≡ job.now.workers) }
{
    let places = (job.script.len() as usize).max(1);
    let store = Arc::new(alloc, ForestStore::new(alloc)?)?;
    let waiting = waiting_for_each(job.workers);
    team_of(alloc, job.workers, waiting, places, || {
        lane_over(rt, alloc, &job.app, &store, true)
    })
}
