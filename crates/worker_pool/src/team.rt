//! Workers that share a run: a thread for each of them, one for the script's commands, and the dispatcher in this one.

ghost use Rattle.std.specs.Prelude.{◌≡◌, ◌≤◌, [], ◌∷◌, None, length, IfOk, IfErr, IsTrue};
ghost use Rattle.std.specs.Vec.{vec_capacity};
ghost use Rattle.std.specs.Thread.{IsSync};
ghost use Rattle.forest_versions.specs.Lawful.{are_lawful};
ghost use Rattle.forest_versions.specs.State.{start};
ghost use Rattle.control_script.specs.Order.{commands_of};
ghost use Rattle.lane_worker.specs.Worked.{MayWork, WorkedOn};
ghost use Rattle.worker_pool.specs.AtWork.{CanRun, HasRoom, MayStart, Served};
ghost use Rattle.worker_pool.specs.Inputs.{IsPlaced, AreInputs};

use crate::job::PoolError;
use crate::team::context::WorkerRunner;
use crate::team::control::publish;
use crate::team::dispatch::Whole;
use crate::team::feed::Feed;
use crate::team::finish::finish_all;
use crate::team::lane_input::LaneInput;
use crate::team::worker_place::{WorkerPlace, Works, start_work};
use control_script::Script;
use lane_core::Recorder;
use lane_rings::{BatchTx, CommandTx, FlatBatch};
use lane_worker::{Gate, Worker, WorkerContext, context_of, keep_at_hand};
use native_filters::NativeBook;
use std::alloc::{AllocError, Global};
use std::collections::VecDeque;
use std::snapshot::Snapshot;
use std::sync::Wait;
use std::sync::atomic::{AtomicBool, Ordering};
use std::thread;
use std::thread::{JoinHandle, Scope, Threads};

mod context;
mod control;
pub mod dealing;
pub mod dispatch;
pub mod ends;
pub mod feed;
mod finish;
mod in_place;
pub mod lane_input;
pub mod make;
mod progress;
mod worker_place;

/// Workers that have begun nothing, with the sending ends of their rings: each list has one for each lane, in order.
#[derive(Drop)]
pub struct Team<L: Recorder + Drop> {
    pub workers: Vec<Worker<L>>,
    pub packets: Vec<BatchTx>,
    /// Each has room for all commands of the script.
    pub commands: Vec<CommandTx>,
}

/// Workers that have served a whole capture.
#[derive(Drop)]
pub(crate) struct Ran<L: Recorder + Drop> {
    pub(crate) workers: Vec<Worker<L>>,
    /// The capture.
    pub(crate) whole: Whole,
}

// Flags that aren't raised.
fn lowered_flags(alloc: Global, count: usize) -> Result<Vec<AtomicBool>, AllocError>
    ensures count { IfOk result (λ flags. length flags.items ≡ count) }
{
    let mut flags = Vec::with_capacity(alloc, count)?;
    for _ in 0..count {
        flags.push_reserved(AtomicBool::new(false));
    }
    Ok(flags)
}

// Takes the first item out of a row that has one.
fn take_first<T>(row: &mut VecDeque<T>) -> T
    requires some { 1 ≤ length row.old.items }
    ensures first { row.old.items ≡ result ∷ row.new.items }
{
    match row.pop_front() {
        Some(first) => first,
        None => unreachable!(),
    }
}

fn raise_all(flags: &[AtomicBool]) {
    for flag in flags {
        flag.store(true, Ordering::SeqCst);
    }
}

// Starts the control thread; where none can be started, does its work here.
fn start_control<'s, E: 's, F: FnOnce() + Send + 's>(
    scope: &Scope<'s, E>,
    f: F,
) -> Option<JoinHandle<()>>
    requires runs { F.pre f }
{
    match scope.spawn(f) {
        Ok(handle) => Some(handle),
        Err(refused) => {
            (refused.value)();
            None
        }
    }
}

fn join_control<R: Threads>(rt: &R, control: Option<JoinHandle<()>>) {
    if let Some(handle) = control {
        handle.join(rt);
    }
}

// Starts the thread in which a worker works until its flag is raised. Where none can be started, it works here.
fn take_on<'s, E: 's, L: Recorder + Drop + Send + 's, D: WorkerRunner<L> + Sync>(
    scope: &Scope<'s, E>,
    context: &'s D,
    script: &Script,
    stop: &'s AtomicBool,
    w: Worker<L>,
) -> WorkerPlace<L>
    requires shared { IsSync D.row }
    requires commands { D.commands context.now ≡ commands_of script.now }
    requires ready { MayWork L.Recorder (D.commands context.now) w }
    requires lawful { IsTrue (are_lawful (start (L.app w.lane).presets) (D.commands context.now)) }
    ensures placed { IsPlaced L.Recorder (commands_of script.now) w result }
{
    let promise = Works {
        start: Snapshot::of(&w),
        script: Snapshot::of(script),
    };
    let f = move |w: Worker<L>| -> Worker<L>
        requires ready { MayWork L.Recorder (D.commands context.now) w }
        requires lawful { IsTrue (are_lawful (start (L.app w.lane).presets) (D.commands context.now)) }
        ensures { WorkedOn L.Recorder (D.commands context.entry.now) w result }
    { context.run_worker(w, stop) };
    start_work(scope, promise, stop, w, f)
}

// Takes on each worker, in a thread of its own or here, and answers their inputs, in `room`: that is empty, and has a place for
// each.
fn start_all<'s, E: 's, L: Recorder + Drop + Send + 's, D: WorkerRunner<L> + Sync>(
    scope: &Scope<'s, E>,
    context: &'s D,
    script: &Script,
    stops: &'s [AtomicBool],
    workers: Vec<Worker<L>>,
    packets: Vec<BatchTx>,
    room: Vec<LaneInput<L>>,
) -> Vec<LaneInput<L>>
    requires shared { IsSync D.row }
    requires commands { D.commands context.now ≡ commands_of script.now }
    requires team { CanRun L.Recorder script.now workers.items packets.items }
    requires empty { room.items ≡ [] }
    requires places { length workers.items ≤ vec_capacity room }
    requires flags { length stops.now ≡ length workers.items }
    ensures inputs { AreInputs L.Recorder script.now workers.items [] result.items }
{
    let mut workers = VecDeque::from(workers);
    let mut packets = VecDeque::from(packets);
    let alloc = *room.allocator();
    let mut inputs = room;
    for stop in stops {
        let w = take_first(&mut workers);
        let packets = take_first(&mut packets);
        let place = take_on(scope, context, script, stop, w);
        inputs.push_reserved(LaneInput {
            packets,
            unsent: FlatBatch::new(alloc),
            place,
        });
    }
    inputs
}

// Starts the threads, has the feed send the packets of the capture, and waits for the threads. The feed is handed back.
fn run_threads<
    'c,
    R: Threads + Wait + Sync + Send + Copy + Drop + 'static,
    L: Recorder + Drop + Send,
    D: WorkerRunner<L> + Sync,
    E: Feed<L>,
    G: Gate + Sync,
>(
    context: &'c WorkerContext<'c, R, G>,
    team: Team<L>,
    inputs: Vec<LaneInput<L>>,
    back: Vec<Worker<L>>,
    stops: &'c [AtomicBool],
    runner: &'c D,
    feed: &'c mut E,
) -> (Result<Whole, PoolError>, Vec<Worker<L>>, &'c mut E)
    requires starts { MayStart L.Recorder context.now.script.now (D.commands runner.now) (E.script feed.old)
        team.workers.items team.packets.items }
    requires room { HasRoom (length team.workers.items) inputs.items (vec_capacity inputs) back.items
        (vec_capacity back) (length stops.now) }
    requires may { E.may feed.old team.workers.items }
    ensures served { Served L.Recorder context.now.script.now team.workers.items result.1.items
        (λ frames. E.did feed.old result.2.now team.workers.items frames result.0) }
    ensures same { result.2.ghost_name ≡ feed.entry.ghost_name }
{
    let (rt, alloc, script) = (context.rt, context.alloc, context.script);
    let (natives, gate, failed) = (context.natives, context.gate, context.failed);
    let Team {
        workers,
        packets,
        commands,
    } = team;
    let count = script.len();
    thread::scope(
        thread::scope_env(),
        rt,
        move |scope| -> (Result<Whole, PoolError>, Vec<Worker<L>>, &mut E)
            requires duty_shared { IsSync D.row }
            requires gate_shared { IsSync G.row }
            requires starts { MayStart L.Recorder script.now (D.commands runner.now) (E.script feed.now)
                workers.items packets.items }
            requires room { HasRoom (length workers.items) inputs.items (vec_capacity inputs) back.items
                (vec_capacity back) (length stops.now) }
            requires may { E.may feed.now workers.items }
            ensures served { Served L.Recorder script.entry.now workers.items result.1.items
                (λ frames. E.did feed.entry.now result.2.now workers.items frames result.0) }
            ensures same { result.2.ghost_name ≡ feed.entry.ghost_name }
        {
            let control = start_control(scope, move || {
                let mut commands = commands;
                publish(&mut commands, count, gate);
            });
            let mut inputs = start_all(scope, runner, script, stops, workers, packets, inputs);
            let read = feed.send_packets(&mut inputs);
            raise_all(stops);
            join_control(rt, control);
            let context = context_of(rt, alloc, script, natives, gate, failed);
            let workers = finish_all(&context, inputs, back);
            (read, workers, feed)
        },
    )
}

// The same, with the feed lent, and with a context that lives as long as the feed is lent.
fn run_lent_feed<
    R: Threads + Wait + Sync + Send + Copy + Drop + 'static,
    L: Recorder + Drop + Send,
    E: Feed<L>,
    G: Gate + Sync,
>(
    context: &WorkerContext<'_, R, G>,
    team: Team<L>,
    inputs: Vec<LaneInput<L>>,
    back: Vec<Worker<L>>,
    stops: &[AtomicBool],
    feed: &mut E,
) -> (Result<Whole, PoolError>, Vec<Worker<L>>)
    requires starts { MayStart L.Recorder context.now.script.now (commands_of context.now.script.now)
        (E.script feed.old) team.workers.items team.packets.items }
    requires room { HasRoom (length team.workers.items) inputs.items (vec_capacity inputs) back.items
        (vec_capacity back) (length stops.now) }
    requires may { E.may feed.old team.workers.items }
    ensures served { Served L.Recorder context.now.script.now team.workers.items result.1.items
        (λ frames. E.did feed.old feed.new team.workers.items frames result.0) }
{
    let WorkerContext {
        rt,
        alloc,
        script,
        natives,
        gate,
        failed,
    } = *context;
    let shared = WorkerContext {
        rt,
        alloc,
        script,
        natives,
        gate,
        failed,
    };
    let (read, workers, _feed) = run_threads(&shared, team, inputs, back, stops, &shared, feed);
    (read, workers)
}

/// Runs a team over the packets that a feed sends: each packet is taken by the worker of its lane, and each of the
/// script's commands is told to all. Answers what the feed ended with, and the workers. A lane for which no thread can be
/// started is run in this one. Where the thread of the commands can't be started, they are told first.
///
/// An error is want of memory, before the feed has begun; it is as it was then. The context's `failed` is raised where a
/// lane fails.
pub fn run_team<
    R: Threads + Wait + Sync + Send + Copy + Drop + 'static,
    L: Recorder + Drop + Send,
    E: Feed<L>,
    G: Gate + Sync,
>(
    context: &WorkerContext<'_, R, G>,
    team: Team<L>,
    feed: &mut E,
) -> Result<(Result<Whole, PoolError>, Vec<Worker<L>>), AllocError>
    requires script { E.script feed.old ≡ context.now.script.now }
    requires team { CanRun L.Recorder context.now.script.now team.workers.items team.packets.items }
    requires may { E.may feed.old team.workers.items }
    ensures served { IfOk result (λ r. Served L.Recorder context.now.script.now team.workers.items r.1.items
        (λ frames. E.did feed.old feed.new team.workers.items frames r.0)) }
    ensures unchanged { IfErr result (λ _. feed.new ≡ feed.old) }
{
    let alloc = context.alloc;
    keep_at_hand(alloc);
    let count = team.workers.len();
    let inputs = Vec::with_capacity(alloc, count)?;
    let back = Vec::with_capacity(alloc, count)?;
    let stops = lowered_flags(alloc, count)?;
    Ok(run_lent_feed(context, team, inputs, back, &stops, feed))
}
