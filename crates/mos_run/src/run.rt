//! The top call: words, a script and a capture come in; what was asked for, or the reason why it isn't there, goes out.

ghost use Rattle.std.specs.Prelude.{◌≡◌, ◌≤◌, map, Some, IfSome, string_bytes};
ghost use Rattle.capture_replay.specs.Outcome.{made_for};
ghost use Rattle.capture_replay.specs.Runs.{IsJob, RunsFor};
ghost use Rattle.mos_run.specs.Request.{Request, request_of, requested};
ghost use Rattle.mos_run.specs.Run.{FinishesUnder, MosRun, Promised, RunsUnder, outside};
ghost use Rattle.mos_run.specs.Runs.{Replays, RunsOverFile, RunsUnderSettings, wanted_by};

use crate::ended::{Ended, refuse};
use crate::explained::explain;
use crate::refusal::RunError;
use crate::script::script_of;
use app_api::App;
use capture_replay::laws::{
    what_one_worker_has_is_allowed, without_live_commands_all_versions_are_known,
};
use capture_replay::{Crew, ReplayError, Task, run_one_with, run_several_with, task_of};
use mos_bytes::{Shelf, Sink, Source};
use native_filters::NativeBook;
use pcapng_source::{AnySource, refused_files_begin_with_a_header};
use std::alloc::Global;
use std::sync::Wait;
use std::thread::Threads;
use words::{Settings, read_words};
use worker_pool::{Gate, VersionList};

/// What a run works with.
#[derive(Drop)]
pub struct Machine<'a, R, G> {
    /// Starts threads and waits for them.
    pub rt: &'a R,
    pub alloc: Global,
    /// Answers the native filters.
    pub natives: &'a NativeBook,
    /// Is told what threads are about to do; it is there for tests.
    pub gate: &'a G,
}

// The replay of a task: with one worker, or with several.
fn run_asked<
    R: Threads + Wait + Sync + Send + Copy + Drop + 'static,
    A: App + Copy + Send + Sync + Drop,
    S: Source,
    O: Sink,
    G: Gate + Sync,
>(
    machine: &Machine<'_, R, G>,
    task: &Task<'_, A>,
    capture: &mut S,
    out: &mut O,
) -> Result<VersionList, ReplayError>
    requires job { IsJob (A.meaning task.now.app) task.now.script.now task.now.workers }
    requires few { IfSome (made_for task.now.output) (λ n. n ≤ 100000) }
    ensures ran { RunsFor S.Source O.Sink (made_for task.now.output) task.now.output
        (Replays (wanted_by A.meaning task.now)) capture.old capture.new out.old out.new result }
{
    what_one_worker_has_is_allowed();
    // With its length a script tells that its commands are in order.
    let _ = task.script.len();
    if task.workers == 1 {
        return run_one_with(machine.alloc, task, capture, out, machine.natives);
    }
    let crew = Crew {
        rt: machine.rt,
        gate: machine.gate,
    };
    run_several_with(&crew, machine.alloc, task, capture, out, machine.natives)
}

// The run over a file of either form. Where a block of it is refused, that is told in place of the fault by which the
// source stops there.
fn run_file<
    R: Threads + Wait + Sync + Send + Copy + Drop + 'static,
    A: App + Copy + Send + Sync + Drop,
    S: Source,
    O: Sink,
    G: Gate + Sync,
>(
    machine: &Machine<'_, R, G>,
    task: &Task<'_, A>,
    capture: &mut S,
    out: &mut O,
) -> Result<VersionList, RunError>
    requires job { IsJob (A.meaning task.now.app) task.now.script.now task.now.workers }
    requires few { IfSome (made_for task.now.output) (λ n. n ≤ 100000) }
    ensures ran { RunsOverFile S.Source O.Sink (wanted_by A.meaning task.now)
        capture.old capture.new out.old out.new result }
{
    refused_files_begin_with_a_header();
    let mut source = AnySource::new(capture);
    let ran = run_asked(machine, task, &mut source, out);
    explain(source.fault(), ran)
}

// The run of an application under settings, up to its versions, or to why it stopped.
fn run<
    R: Threads + Wait + Sync + Send + Copy + Drop + 'static,
    A: App + Copy + Send + Sync + Drop,
    S: Source,
    H: Shelf,
    O: Sink,
    G: Gate + Sync,
>(
    machine: &Machine<'_, R, G>,
    app: A,
    settings: &Settings,
    capture: &mut S,
    shelf: &mut H,
    out: &mut O,
) -> Result<VersionList, RunError>
    requires workers { (1 ≤ settings.now.workers) × (settings.now.workers ≤ 16) }
    requires few { IfSome settings.now.make (λ n. n ≤ 100000) }
    ensures runs { (t : Request)
        → requested (A.meaning app) (Some settings.now) (H.content shelf.old) (S.left capture.old) ≡ Some t
        → RunsUnder t (O.taken out.old) (O.taken out.new) result }
    ensures ran { RunsUnderSettings S.Source H.Shelf O.Sink (A.meaning app) (Some settings.now)
        capture.old capture.new shelf.old shelf.new out.old out.new result }
{
    what_one_worker_has_is_allowed();
    let script = script_of(machine.alloc, &app, shelf, &settings.script)?;
    run_file(machine, &task_of(app, settings, &script), capture, out)
}

/// Runs an application under settings, and tells a refusal on `err`: all that `run_mos` does once its words are read.
pub(crate) fn run_chosen<
    R: Threads + Wait + Sync + Send + Copy + Drop + 'static,
    A: App + Copy + Send + Sync + Drop,
    S: Source,
    H: Shelf,
    O: Sink,
    E: Sink,
    G: Gate + Sync,
>(
    machine: &Machine<'_, R, G>,
    app: A,
    settings: &Settings,
    capture: &mut S,
    shelf: &mut H,
    out: &mut O,
    err: &mut E,
) -> Ended
    requires workers { (1 ≤ settings.now.workers) × (settings.now.workers ≤ 16) }
    requires few { IfSome settings.now.make (λ n. n ≤ 100000) }
    ensures ran { Promised S.Source H.Shelf O.Sink E.Sink (A.meaning app) (Some settings.now)
        (outside capture.old shelf.old out.old err.old) (outside capture.new shelf.new out.new err.new) result }
{
    what_one_worker_has_is_allowed();
    without_live_commands_all_versions_are_known();
    match run(machine, app, settings, capture, shelf, out) {
        Ok(versions) => Ended::done(versions),
        Err(error) => refuse(machine.alloc, err, error),
    }
}

/// Runs as the words say: fetches the script that they name, replays the capture, and writes what they ask for to `out`. The
/// capture is a classic one or a pcapng file, which is turned into a classic capture while it is read.
///
/// `words` are the words after the program's name. The script is fetched from `shelf` by its name, and `natives` answer the
/// native filters. On a refusal `err` gets the line that tells it. A fault of `err` changes no status.
///
/// Each record lives under a version: so many commands of the script are in force for it. With one worker it is the ceiling
/// of the record's first packet. With several, 2 to 16, each version lies from the floor of that packet to its ceiling, and
/// never falls along the records of one worker; and the text is what one thread would write under the versions that are
/// answered, whatever the order of the threads' steps. The call may wait for its threads. A thread that can't be started is
/// no refusal. `gate` is told what threads are about to do; it is there for tests.
///
/// | Status | Where |
/// |---|---|
/// | 0 | done: the capture was read to its end or to its tail, and all was written |
/// | 1 | the words are refused |
/// | 2 | the script has more than 262,144 bytes, or a line of it is refused |
/// | 3 | the capture is refused, other than for too many packets, blocks or interfaces |
/// | 4 | the capture's source failed, or the shelf |
/// | 5 | `out` failed |
/// | 6 | memory was refused |
/// | 7 | more than 1,048,576 packets, 4,194,304 blocks or 64 interfaces of a section; or callbacks that weigh over 134,217,728 |
///
/// Of causes that stand together the earlier one is told: the words, the fetch, the script, the capture from front to back,
/// the weight, writing. A forwarded capture is written while it is read, so a fault of `out` may come before.
pub fn run_mos<
    R: Threads + Wait + Sync + Send + Copy + Drop + 'static,
    S: Source,
    H: Shelf,
    O: Sink,
    E: Sink,
    G: Gate + Sync,
>(
    rt: &R,
    alloc: Global,
    words: &[String],
    capture: &mut S,
    shelf: &mut H,
    out: &mut O,
    err: &mut E,
    natives: &NativeBook,
    gate: &G,
) -> Ended
    // On status 0 exactly the text of the run's outcome was added to out, under the versions answered, which the run may have.
    ensures done { result.status ≡ 0
        → (t : Request) → request_of (map string_bytes words.now) (H.content shelf.old) (S.left capture.old) ≡ Some t
        → FinishesUnder t result.versions (O.taken out.old) (O.taken out.new) }
    // And all else that it promises.
    ensures ran { MosRun S.Source H.Shelf O.Sink E.Sink (map string_bytes words.now)
        (outside capture.old shelf.old out.old err.old) (outside capture.new shelf.new out.new err.new) result }
{
    let machine = Machine {
        rt,
        alloc,
        natives,
        gate,
    };
    what_one_worker_has_is_allowed();
    match read_words(alloc, words) {
        Ok(settings) => {
            let app = settings.app;
            run_chosen(&machine, app, &settings, capture, shelf, out, err)
        }
        Err(error) => refuse(alloc, err, RunError::from(error)),
    }
}
