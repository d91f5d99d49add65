//! Makes the workers of a forward run, and what takes their answers.

ghost use Rattle.std.specs.Prelude.{◌≡◌, ◌≤◌, Bool, false, length, IfOk};
ghost use Rattle.app_api.specs.App.{Meaning};
ghost use Rattle.worker_pool.specs.Making.{IsFresh, AreBegun};
ghost use Rattle.worker_pool.specs.Team.{IsTeam, AllKeep};
ghost use Rattle.forward_dispatch.specs.Streamed.{AreUnused};

use app_api::App;
use forward_dispatch::{LaneAnswers, ON_THEIR_WAY};
use lane_core::{Lane, Recorder};
use lane_rings::{BatchRx, answer_batch_ring, batch_ring};
use lane_worker::WorkerContext;
use shared_forest::{ForestStore, StoreUser};
use std::alloc::{AllocError, Global};
use std::sync::{Arc, Wait};
use worker_pool::team::Team;
use worker_pool::team::make::{enlist, lane_over};

/// How many batches whose answers were given out may wait for a lane to be filled again. One that finds no place is let go.
const WAITING_AGAIN: usize = 64;

// A team of so many workers that answer, what takes the answers of each, and the rings through which batches come back whose
// answers were given out. `make` makes their lanes. The ring through which a worker answers has as many places as packets may be
// on their way.
fn answering_team_of<L: Recorder + Drop, F: Fn() -> Result<L, AllocError>>(
    alloc: Global,
    count: usize,
    places: usize,
    make: F,
) -> Result<(Team<L>, Vec<LaneAnswers>, Vec<BatchRx>), AllocError>
    requires places { 1 ≤ places }
    requires callable { F.IsAlwaysCallable make }
    ensures begun { IfOk result (λ r. (app : Meaning) (keep : Bool)
        → ((made : _) → F.post make made → IfOk made (λ lane. IsFresh L.Recorder app keep lane))
        → AreBegun L.Recorder app keep r.0.workers.items r.0.packets.items) }
    ensures all_answers { IfOk result (λ r. AreUnused r.0.workers.items r.1.items) }
    ensures count { IfOk result (λ r. length r.0.workers.items ≡ count) }
    ensures used { IfOk result (λ r. length r.2.items ≡ count) }
{
    let mut team = Team {
        workers: Vec::new(alloc),
        packets: Vec::new(alloc),
        commands: Vec::new(alloc),
    };
    let mut all_answers = Vec::new(alloc);
    let mut used = Vec::new(alloc);
    for _ in 0..count {
        let lane = make()?;
        let (answers_tx, answers) = answer_batch_ring(alloc, ON_THEIR_WAY)?;
        let (back_tx, back) = batch_ring(alloc, WAITING_AGAIN)?;
        enlist(alloc, &mut team, lane, places, Some(answers_tx), None)?;
        all_answers.push(LaneAnswers::new(alloc, answers, back_tx))?;
        used.push(back)?;
    }
    Ok((team, all_answers, used))
}

/// Makes a worker for each lane of a run that is forwarded, what takes the answers of each, and the ring of each through which
/// batches come back whose answers were given out. Their lanes keep no entries. All look at one store of trees.
pub(crate) fn make_forward_team<R: Wait + Copy + Drop, A: App + Copy + Drop, G>(
    context: &WorkerContext<'_, R, G>,
    app: &A,
    workers: usize,
) -> Result<(Team<Lane<A, StoreUser<R>>>, Vec<LaneAnswers>, Vec<BatchRx>), AllocError>
    requires some { 1 ≤ workers }
    ensures team { IfOk result (λ r. IsTeam ⟦<Lane<A, StoreUser<R>> as Recorder>⟧
        (A.meaning app.now) r.0.workers.items r.0.packets.items) }
    ensures keep { IfOk result (λ r. AllKeep ⟦<Lane<A, StoreUser<R>> as Recorder>⟧ false r.0.workers.items) }
    ensures all_answers { IfOk result (λ r. AreUnused r.0.workers.items r.1.items) }
    ensures count { IfOk result (λ r. length r.0.workers.items ≡ workers) }
    ensures used { IfOk result (λ r. length r.2.items ≡ workers) }
{
    let (rt, alloc) = (context.rt, context.alloc);
    let places = (context.script.len() as usize).max(1);
    let store = Arc::new(alloc, ForestStore::new(alloc)?)?;
    answering_team_of(
        alloc,
        workers,
        places,
        || lane_over(rt, alloc, app, &store, false),
    )
}
