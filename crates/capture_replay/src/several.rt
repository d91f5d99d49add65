//! The run of several workers.

ghost use Rattle.std.specs.Prelude.{◌≡◌, ◌≤◌, ◌⊎◌, true, false, IfSome, IfErr, IsErrOf, IsOk, IsTrue};
ghost use Rattle.control_script.specs.Order.{are_in_order};
ghost use Rattle.mos_bytes.specs.Outside.{Writes};
ghost use Rattle.mos_bytes.specs.Writes.{WriteAdds};
ghost use Rattle.report_text.specs.Ranges.{HaveTypes};
ghost use Rattle.lane_core.specs.KeptEnd.{shown_as};
ghost use Rattle.applications.specs.Apps.{meaning_of};
ghost use Rattle.capture_replay.specs.Lanes.{RunsWith};
ghost use Rattle.capture_replay.specs.Outcome.{closing, is_forward, made_for, output_of};
ghost use Rattle.capture_replay.specs.Runs.{IsJob, Runs, RunsFor, RunsUnderSettings};
ghost use Rattle.capture_replay.specs.Typed.{WritesTyped};

use crate::laws::what_one_worker_has_is_allowed;
use crate::plan::{Crew, Plan, Task};
use crate::summary::write_summary;
use crate::task::task_of;
use crate::{Output, ReplayError, VersionList};
use app_api::App;
use capture_maker::Maker;
use control_script::Script;
use forward_run::forward_lanes;
use lane_composition::runs::a_run_has_its_versions;
use lane_core::RecordUnderWay;
use mos_bytes::{Sink, Source};
use native_filters::NativeBook;
use parallel_report::write_report_by;
use pcap_source::Capture;
use report_text::Totals;
use std::alloc::Global;
use std::sync::Wait;
use std::sync::atomic::AtomicBool;
use std::thread::Threads;
use words::Settings;
use worker_pool::{Gate, Job, WorkerContext, run_lanes_kept};

impl<R: Threads + Wait + Sync + Send + Copy + Drop + 'static, G: Gate + Sync> Crew<'_, R, G> {
    // Writes what is written at the end. As many threads as there were workers share the making of a report's text.
    fn write_end<A: App + Sync, O: Sink>(
        &self,
        app: &A,
        plan: &Plan<'_>,
        records: &[RecordUnderWay],
        totals: &Totals,
        out: &mut O,
    ) -> Result<(), ReplayError>
        requires some { 1 ≤ plan.now.workers }
        ensures text { WriteAdds (O.taken out.old) (O.taken out.new) result
            (closing plan.now.output (shown_as (A.meaning app.now) records.now) totals.now) }
        ensures typed { plan.now.output ≡ Output.Report → IsOk result
            → HaveTypes (shown_as (A.meaning app.now) records.now) totals.now }
        ensures silent { is_forward plan.now.output ≡ true → out.new ≡ out.old }
        ensures only { IfErr result
            (λ e. ((e ≡ ReplayError.WriteFault) × (is_forward plan.now.output ≡ false)) ⊎ (e ≡ ReplayError.NoMemory)) }
        ensures to { Writes O.Sink out.old out.new (IsErrOf result ReplayError.WriteFault) }
    {
        match plan.output {
            Output::Report => {
                write_report_by(self.rt, plan.alloc, plan.workers, app, out, records, totals)?;
                Ok(())
            }
            Output::Forward => Ok(()),
            Output::Summary(n) => write_summary(plan.alloc, out, n, totals),
        }
    }

    // Runs over a capture on the plan's lanes. The capture without its dropped packets is written meanwhile, and what else is
    // written at the end.
    fn run<A: App + Copy + Send + Sync + Drop, S: Source, O: Sink>(
        &self,
        app: A,
        plan: &Plan<'_>,
        source: &mut S,
        out: &mut O,
    ) -> Result<VersionList, ReplayError>
        requires job { IsJob (A.meaning app) plan.now.script.now plan.now.workers }
        requires order { IsTrue (are_in_order plan.now.script.now) }
        ensures ran { Runs S.Source O.Sink plan.now.output
            (RunsWith (A.meaning app) plan.now.script.now plan.now.workers plan.now.output)
            source.old source.new out.old out.new result }
        ensures typed { WritesTyped (A.meaning app) plan.now.script.now plan.now.output (S.left source.old) result }
    {
        a_run_has_its_versions();
        what_one_worker_has_is_allowed();
        let mut capture = Capture::open(source)?;
        if plan.output.is_forward() {
            capture.write_header(out)?;
            let failed = AtomicBool::new(false);
            let context = WorkerContext {
                rt: self.rt,
                alloc: plan.alloc,
                script: plan.script,
                natives: plan.natives,
                gate: self.gate,
                failed: &failed,
            };
            let versions = forward_lanes(&context, &app, plan.workers, &mut capture, source, out)?;
            return Ok(versions);
        }
        let job = Job {
            app,
            script: plan.script,
            workers: plan.workers,
        };
        let end = run_lanes_kept(
            self.rt,
            plan.alloc,
            &job,
            &mut capture,
            source,
            plan.natives,
            self.gate,
        )?;
        let records = end.records.as_slice();
        self.write_end(&app, plan, records, &end.totals, out)?;
        Ok(end.versions)
    }
}

/// Replays a capture, or the one that is made, with the task's workers, 1 to 16, each in a thread of its own, and writes what
/// the task asks for. Answers the version of each record, in order of name.
///
/// It asks a script that is lawful with the presets of the task's application, and at most 100,000 connections to make. With a
/// capture that is made, `capture` isn't read. At an `Err` `out` has gained a prefix of what was to be written; a report and a
/// summary are written when the capture was read whole, a forwarded capture while it is read. The numbers and bytes of a report
/// that is written whole are in the ranges of their types. It waits for its threads.
pub fn run_several_with<
    R: Threads + Wait + Sync + Send + Copy + Drop + 'static,
    A: App + Copy + Send + Sync + Drop,
    S: Source,
    O: Sink,
    G: Gate + Sync,
>(
    crew: &Crew<'_, R, G>,
    alloc: Global,
    task: &Task<'_, A>,
    capture: &mut S,
    out: &mut O,
    natives: &NativeBook,
) -> Result<VersionList, ReplayError>
    requires job { IsJob (A.meaning task.now.app) task.now.script.now task.now.workers }
    requires few { IfSome (made_for task.now.output) (λ n. n ≤ 100000) }
    ensures ran { RunsFor S.Source O.Sink (made_for task.now.output) task.now.output
        (RunsWith (A.meaning task.now.app) task.now.script.now task.now.workers task.now.output)
        capture.old capture.new out.old out.new result }
    ensures typed { WritesTyped (A.meaning task.now.app) task.now.script.now task.now.output
        (S.left capture.old) result }
{
    let plan = task.plan(alloc, natives);
    // With its length a script tells that its commands are in order.
    let _ = task.script.len();
    match task.output {
        Output::Summary(n) => crew.run(task.app, &plan, &mut Maker::new(n), out),
        Output::Report | Output::Forward => crew.run(task.app, &plan, capture, out),
    }
}

/// Does what `run_several_with` does, with the application and the task that settings choose.
pub fn run_several<
    R: Threads + Wait + Sync + Send + Copy + Drop + 'static,
    S: Source,
    O: Sink,
    G: Gate + Sync,
>(
    crew: &Crew<'_, R, G>,
    alloc: Global,
    settings: &Settings,
    capture: &mut S,
    script: &Script,
    out: &mut O,
    natives: &NativeBook,
) -> Result<VersionList, ReplayError>
    requires job { IsJob (meaning_of settings.now.app) script.now settings.now.workers }
    requires few { IfSome settings.now.make (λ n. n ≤ 100000) }
    ensures ran { RunsUnderSettings S.Source O.Sink settings.now
        (RunsWith (meaning_of settings.now.app) script.now settings.now.workers (output_of settings.now))
        capture.old capture.new out.old out.new result }
    ensures typed { WritesTyped (meaning_of settings.now.app) script.now (output_of settings.now)
        (S.left capture.old) result }
{
    let task = task_of(settings.app, settings, script);
    run_several_with(crew, alloc, &task, capture, out, natives)
}
