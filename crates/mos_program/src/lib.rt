//! The program `mos` but for its streams: `run_program` makes the book of native filters (`own_natives`), calls `run_gathered` over
//! any words, streams and shelf, and gives the exit code; `run_process` hands it the words of the process and the current folder.
//! `run_own_program` and `run_own_process` are the same with an application of one's own.
//!
//! Contract: the clauses of `run_gathered`, and the exit code is the status. Words that can't be read end it with status 1 or
//! 6, and nothing but the error output is touched.
//! Begin with `run_program` in this file.
//! Tests: `whole_runs`.
#![tactic(auto)]

ghost use Rattle.std.specs.Prelude.{◌≡◌, ◌⊎◌, map, Some, IfOk, IsErr, string_bytes};
ghost use Rattle.std.specs.Process.{exit_status};
ghost use Rattle.words.specs.Own.{own_settings};
ghost use Rattle.mos_run.specs.Request.{Request, request_for, request_of};
ghost use Rattle.mos_run.specs.Run.{FinishesUnder, MosRun, Promised, RefusesWords, outside};

use app_api::App;
use mos_bytes::{FolderShelf, ReadSource, Shelf, Sink, Source, WriteSink};
use mos_run::{
    Ended, GatheredRun, Machine, OpenGate, RunError, refuse, run_application, run_gathered,
};
use std::env::{self, Env};
use std::io::{self, Read, Write};
use std::process::ExitCode;
use std::rt::Files;
use std::sync::Wait;
use std::thread::Threads;

// Words that can't be read: one that is no text is a refused word, and else memory was refused.
fn words_refusal(error: &io::Error) -> RunError
    ensures { (result ≡ RunError.Usage) ⊎ (result ≡ RunError.NoMemory) }
{
    match error.kind() {
        io::ErrorKind::OutOfMemory => RunError::NoMemory,
        _ => RunError::Usage,
    }
}

/// What a run of the program came to.
#[derive(Drop)]
pub struct ProgramRun<O> {
    /// How the run ended.
    pub ended: Ended,
    /// What the process ends with: the status.
    pub code: ExitCode,
    /// The output that was handed in.
    pub out: O,
}

// What the program does with what a run came to.
fn finished<O>(run: GatheredRun<O>) -> ProgramRun<O>
    ensures code { exit_status result.code ≡ run.ended.status }
    ensures ended { result.ended ≡ run.ended }
    ensures out { result.out ≡ run.out }
{
    let code = ExitCode::from(run.ended.status);
    ProgramRun {
        ended: run.ended,
        code,
        out: run.out,
    }
}

/// The book of the functions of `native_filters` itself. It is a macro, since a function can't give away functions that it
/// names itself.
#[macro_export]
macro_rules! own_natives {
    () => {
        native_filters::NativeBook::new(
            native_filters::Native::new(0, native_filters::is_opening),
            native_filters::Native::new(1, native_filters::has_system_port),
            native_filters::Native::new(2, native_filters::is_private_traffic),
            native_filters::Native::new(3, native_filters::is_keep_alive),
            native_filters::Native::new(4, native_filters::is_ending),
            native_filters::Native::new(5, native_filters::has_differing_bytes),
        )
    };
}

/// Replays `capture` as the words say, writes what they ask for to `out`, and tells a refusal on `err`. The words name a script
/// by its name on `shelf`. It is `run_gathered` with the six native filters, and may wait for its threads as that does.
///
/// Words that can't be read are refused: status 1 where one of them is no text, and else status 6.
pub fn run_program<
    R: AllocGlobal + Threads + Wait + Sync + Send + Copy + Drop + 'static,
    S: Source,
    H: Shelf,
    O: Sink,
    E: Sink,
>(
    rt: &R,
    words: io::Result<Vec<String>>,
    capture: &mut S,
    shelf: &mut H,
    out: O,
    err: &mut E,
) -> ProgramRun<O>
    ensures code { exit_status result.code ≡ result.ended.status }
    // Where the words can be read, all is as `run_mos` promises.
    ensures done { IfOk words (λ words. result.ended.status ≡ 0
        → (t : Request) → request_of (map string_bytes words.items) (H.content shelf.old) (S.left capture.old) ≡ Some t
        → FinishesUnder t result.ended.versions (O.taken out) (O.taken result.out)) }
    ensures ran { IfOk words (λ words. MosRun S.Source H.Shelf O.Sink E.Sink (map string_bytes words.items)
        (outside capture.old shelf.old out err.old) (outside capture.new shelf.new result.out err.new) result.ended) }
    // Else nothing but `err` is touched.
    ensures unread { IsErr words → RefusesWords S.Source H.Shelf O.Sink E.Sink
        (outside capture.old shelf.old out err.old) (outside capture.new shelf.new result.out err.new) result.ended.status }
{
    let alloc = rt.alloc();
    let natives = own_natives!();
    match words {
        Ok(words) => finished(run_gathered(
            rt,
            alloc,
            words.as_slice(),
            capture,
            shelf,
            out,
            err,
            &natives,
            &OpenGate,
        )),
        Err(error) => {
            let ended = refuse(alloc, err, words_refusal(&error));
            finished(GatheredRun { ended, out })
        }
    }
}

/// Replays `capture` with an application of anybody's, as the words say, which are those of mos without `--app`. Else it is as
/// `run_program`: a program of one's own calls it with the words of its process and its streams.
pub fn run_own_program<
    R: AllocGlobal + Threads + Wait + Sync + Send + Copy + Drop + 'static,
    A: App + Copy + Send + Sync + Drop,
    S: Source,
    H: Shelf,
    O: Sink,
    E: Sink,
>(
    rt: &R,
    app: A,
    words: io::Result<Vec<String>>,
    capture: &mut S,
    shelf: &mut H,
    out: O,
    err: &mut E,
) -> ProgramRun<O>
    ensures code { exit_status result.code ≡ result.ended.status }
    // Where the words can be read, all is as `run_mos` promises, with this application's meaning.
    ensures done { IfOk words (λ words. result.ended.status ≡ 0 → (t : Request)
        → request_for (A.meaning app) (map string_bytes words.items) (H.content shelf.old) (S.left capture.old) ≡ Some t
        → FinishesUnder t result.ended.versions (O.taken out) (O.taken result.out)) }
    ensures ran { IfOk words (λ words. Promised S.Source H.Shelf O.Sink E.Sink (A.meaning app)
        (own_settings (map string_bytes words.items))
        (outside capture.old shelf.old out err.old) (outside capture.new shelf.new result.out err.new) result.ended) }
    // Else nothing but `err` is touched.
    ensures unread { IsErr words → RefusesWords S.Source H.Shelf O.Sink E.Sink
        (outside capture.old shelf.old out err.old) (outside capture.new shelf.new result.out err.new) result.ended.status }
{
    let alloc = rt.alloc();
    let natives = own_natives!();
    let machine = Machine {
        rt,
        alloc,
        natives: &natives,
        gate: &OpenGate,
    };
    match words {
        Ok(words) => finished(run_application(
            &machine,
            app,
            words.as_slice(),
            capture,
            shelf,
            out,
            err,
        )),
        Err(error) => {
            let ended = refuse(alloc, err, words_refusal(&error));
            finished(GatheredRun { ended, out })
        }
    }
}

/// The words after the program's name.
pub fn words_given(rt: &(impl Env + AllocGlobal)) -> io::Result<Vec<String>> {
    let mut words = env::args(rt)?;
    let _ = words.next();
    words.collect(rt.alloc()).map_err(io::Error::from)
}

/// The program over the words that the process was given, these streams and the files of the current folder. The exit status is
/// the run's.
pub fn run_process<
    R: AllocGlobal + Env + Files + Threads + Wait + Sync + Send + Copy + Drop + 'static,
    I: Read + Drop,
    O: Write + Drop,
    E: Write + Drop,
>(rt: R, input: I, out: O, err: E) -> ExitCode {
    let words = words_given(&rt);
    let mut capture = ReadSource::new(input);
    let mut shelf = FolderShelf::new(rt);
    let mut err = WriteSink::new(err);
    let out = WriteSink::new(out);
    run_program(&rt, words, &mut capture, &mut shelf, out, &mut err).code
}

/// The same with an application of anybody's: all that the `main` of a program of one's own has to call.
pub fn run_own_process<
    R: AllocGlobal + Env + Files + Threads + Wait + Sync + Send + Copy + Drop + 'static,
    A: App + Copy + Send + Sync + Drop,
    I: Read + Drop,
    O: Write + Drop,
    E: Write + Drop,
>(rt: R, app: A, input: I, out: O, err: E) -> ExitCode {
    let words = words_given(&rt);
    let mut capture = ReadSource::new(input);
    let mut shelf = FolderShelf::new(rt);
    let mut err = WriteSink::new(err);
    let out = WriteSink::new(out);
    run_own_program(&rt, app, words, &mut capture, &mut shelf, out, &mut err).code
}
