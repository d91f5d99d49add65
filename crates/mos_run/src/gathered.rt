//! The top calls over an output of which each call costs much, as a file or a pipe.

ghost use Rattle.std.specs.Prelude.{◌≡◌, ◌≤◌, map, Some, IfSome, string_bytes};
ghost use Rattle.words.specs.Own.{own_settings};
ghost use Rattle.mos_run.specs.Request.{Request, request_for, request_of};
ghost use Rattle.mos_run.specs.Run.{FinishesUnder, MosRun, Promised, outside};

use crate::ended::{Ended, handed_on, refuse};
use crate::refusal::RunError;
use crate::run::{Machine, run_chosen};
use app_api::App;
use capture_replay::laws::{
    what_one_worker_has_is_allowed, without_live_commands_all_versions_are_known,
};
use mos_bytes::{GatheringSink, Shelf, Sink, Source};
use native_filters::NativeBook;
use std::alloc::{AllocFailed, Global};
use std::sync::Wait;
use std::thread::Threads;
use words::{Settings, read_own_words, read_words};
use worker_pool::Gate;

/// How a run ended, and the output that it was given.
#[derive(Drop)]
pub struct GatheredRun<O> {
    pub ended: Ended,
    pub out: O,
}

// Runs as `run_chosen` does, over an output that is gathered for.
fn gather_chosen<
    R: Threads + Wait + Sync + Send + Copy + Drop + 'static,
    A: App + Copy + Send + Sync + Drop,
    S: Source,
    H: Shelf,
    O: Sink,
    E: Sink,
    G: Gate + Sync,
>(
    machine: &Machine<'_, R, G>,
    app: A,
    settings: &Settings,
    capture: &mut S,
    shelf: &mut H,
    out: O,
    err: &mut E,
) -> GatheredRun<O>
    requires workers { (1 ≤ settings.now.workers) × (settings.now.workers ≤ 16) }
    requires few { IfSome settings.now.make (λ n. n ≤ 100000) }
    ensures ran { Promised S.Source H.Shelf O.Sink E.Sink (A.meaning app) (Some settings.now)
        (outside capture.old shelf.old out err.old) (outside capture.new shelf.new result.out err.new) result.ended }
{
    what_one_worker_has_is_allowed();
    without_live_commands_all_versions_are_known();
    let alloc = machine.alloc;
    let mut gathering = match GatheringSink::new(alloc, out) {
        Ok(gathering) => gathering,
        Err(AllocFailed { value: out }) => {
            let ended = refuse(alloc, err, RunError::NoMemory);
            return GatheredRun { ended, out };
        }
    };
    let ended = run_chosen(machine, app, settings, capture, shelf, &mut gathering, err);
    let handed = gathering.finish();
    let ended = handed_on(alloc, ended, handed, err);
    let out = gathering.into_inner();
    GatheredRun { ended, out }
}

/// Runs as `run_mos` does, and gives the output back. What is written is gathered, so that `out` is called once for some 65,536
/// bytes. The packets of a forwarded capture are handed on at the latest before more of the capture is asked of the outside.
///
/// Its clauses are those of `run_mos`, and speak of `out` itself: at status 0 it has taken all, and nothing is held back. With
/// another status what was gathered is handed on too. Where that fails in the last call, it is status 5 in place of 0; any other
/// status stays. Memory for what is gathered may be refused: status 6. It may wait for its threads, as `run_mos` does.
pub fn run_gathered<
    R: Threads + Wait + Sync + Send + Copy + Drop + 'static,
    S: Source,
    H: Shelf,
    O: Sink,
    E: Sink,
    G: Gate + Sync,
>(
    rt: &R,
    alloc: Global,
    words: &[String],
    capture: &mut S,
    shelf: &mut H,
    out: O,
    err: &mut E,
    natives: &NativeBook,
    gate: &G,
) -> GatheredRun<O>
    // On status 0 exactly the text of the run's outcome was added to out, under the versions answered, which the run may have.
    ensures done { result.ended.status ≡ 0
        → (t : Request) → request_of (map string_bytes words.now) (H.content shelf.old) (S.left capture.old) ≡ Some t
        → FinishesUnder t result.ended.versions (O.taken out) (O.taken result.out) }
    // And all else that `run_mos` promises.
    ensures ran { MosRun S.Source H.Shelf O.Sink E.Sink (map string_bytes words.now)
        (outside capture.old shelf.old out err.old) (outside capture.new shelf.new result.out err.new) result.ended }
{
    let machine = Machine {
        rt,
        alloc,
        natives,
        gate,
    };
    what_one_worker_has_is_allowed();
    match read_words(alloc, words) {
        Ok(settings) => {
            let app = settings.app;
            gather_chosen(&machine, app, &settings, capture, shelf, out, err)
        }
        Err(error) => {
            let ended = refuse(alloc, err, RunError::from(error));
            GatheredRun { ended, out }
        }
    }
}

/// Runs an application of anybody's as `run_gathered` runs those that the words of mos name. The words are those of mos without
/// `--app`, and all that `run_mos` promises is promised of this application's meaning.
///
/// A refusal of the words is told by the line of mos, which names `--app`.
pub fn run_application<
    R: Threads + Wait + Sync + Send + Copy + Drop + 'static,
    A: App + Copy + Send + Sync + Drop,
    S: Source,
    H: Shelf,
    O: Sink,
    E: Sink,
    G: Gate + Sync,
>(
    machine: &Machine<'_, R, G>,
    app: A,
    words: &[String],
    capture: &mut S,
    shelf: &mut H,
    out: O,
    err: &mut E,
) -> GatheredRun<O>
    // On status 0 exactly the text of the run's outcome was added to out, under the versions answered, which the run may have.
    ensures done { result.ended.status ≡ 0 → (t : Request)
        → request_for (A.meaning app) (map string_bytes words.now) (H.content shelf.old) (S.left capture.old) ≡ Some t
        → FinishesUnder t result.ended.versions (O.taken out) (O.taken result.out) }
    // And all else that `run_mos` promises.
    ensures ran { Promised S.Source H.Shelf O.Sink E.Sink (A.meaning app) (own_settings (map string_bytes words.now))
        (outside capture.old shelf.old out err.old) (outside capture.new shelf.new result.out err.new) result.ended }
{
    what_one_worker_has_is_allowed();
    match read_own_words(machine.alloc, words) {
        Ok(settings) => gather_chosen(machine, app, &settings, capture, shelf, out, err),
        Err(error) => {
            let ended = refuse(machine.alloc, err, RunError::from(error));
            GatheredRun { ended, out }
        }
    }
}
