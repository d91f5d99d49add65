//! The run of one worker.

ghost use Rattle.std.specs.Prelude.{◌≤◌, IfSome};
ghost use Rattle.applications.specs.Apps.{meaning_of};
ghost use Rattle.capture_replay.specs.Outcome.{made_for, output_of};
ghost use Rattle.capture_replay.specs.Runs.{MayRun, RunsAlone, RunsFor, RunsUnderSettings};
ghost use Rattle.capture_replay.specs.Typed.{WritesTyped};

use crate::plan::Task;
use crate::replay::replay;
use crate::task::task_of;
use crate::{Output, ReplayError, VersionList};
use app_api::App;
use capture_maker::Maker;
use control_script::Script;
use mos_bytes::{Sink, Source};
use native_filters::NativeBook;
use std::alloc::Global;
use words::Settings;

/// Replays a capture, or the one that is made, with one worker, and writes what the task asks for. Answers the version of each
/// record, in order of name: before each packet the commands up to its ceiling are given. How many workers the task names
/// doesn't matter.
///
/// It asks a script that is lawful with the presets of the task's application, and at most 100,000 connections to make. With a
/// capture that is made, `capture` isn't read. At an `Err` `out` has gained a prefix of what was to be written; a report and a
/// summary are written when the capture was read whole, a forwarded capture while it is read. The numbers and bytes of a report
/// that is written whole are in the ranges of their types.
pub fn run_one_with<A: App + Copy + Drop, S: Source, O: Sink>(
    alloc: Global,
    task: &Task<'_, A>,
    capture: &mut S,
    out: &mut O,
    natives: &NativeBook,
) -> Result<VersionList, ReplayError>
    requires lawful { MayRun (A.meaning task.now.app) task.now.script.now }
    requires few { IfSome (made_for task.now.output) (λ n. n ≤ 100000) }
    ensures ran { RunsFor S.Source O.Sink (made_for task.now.output) task.now.output
        (RunsAlone (A.meaning task.now.app) task.now.script.now task.now.output)
        capture.old capture.new out.old out.new result }
    ensures typed { WritesTyped (A.meaning task.now.app) task.now.script.now task.now.output
        (S.left capture.old) result }
{
    let plan = task.plan(alloc, natives);
    match task.output {
        Output::Summary(n) => replay(task.app, &plan, &mut Maker::new(n), out),
        Output::Report | Output::Forward => replay(task.app, &plan, capture, out),
    }
}

/// Does what `run_one_with` does, with the application and the output that settings choose.
pub fn run_one<S: Source, O: Sink>(
    alloc: Global,
    settings: &Settings,
    capture: &mut S,
    script: &Script,
    out: &mut O,
    natives: &NativeBook,
) -> Result<VersionList, ReplayError>
    requires lawful { MayRun (meaning_of settings.now.app) script.now }
    requires few { IfSome settings.now.make (λ n. n ≤ 100000) }
    ensures ran { RunsUnderSettings S.Source O.Sink settings.now
        (RunsAlone (meaning_of settings.now.app) script.now (output_of settings.now))
        capture.old capture.new out.old out.new result }
    ensures typed { WritesTyped (meaning_of settings.now.app) script.now (output_of settings.now)
        (S.left capture.old) result }
{
    let task = task_of(settings.app, settings, script);
    run_one_with(alloc, &task, capture, out, natives)
}
