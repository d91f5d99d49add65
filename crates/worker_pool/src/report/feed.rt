//! A run that is reported: this thread reads the capture, and sends its packets to the workers.

ghost use Rattle.std.specs.Prelude.{◌≡◌, ◌≢◌, Err, IsOk, IfErr, IsErrOf, IsTrue};
ghost use Rattle.pcap_source.specs.Reading.{Opened};
ghost use Rattle.app_api.specs.App.{Meaning};
ghost use Rattle.forest_versions.specs.Lawful.{are_lawful};
ghost use Rattle.forest_versions.specs.State.{start};
ghost use Rattle.control_script.specs.Order.{commands_of};
ghost use Rattle.worker_pool.specs.Source.{ReadsOn};
ghost use Rattle.worker_pool.specs.Team.{IsTeam, TeamRan};

use crate::job::PoolError;
use crate::team::dispatch::{Whole, dispatch};
use crate::team::feed::Feed;
use crate::team::lane_input::LaneInput;
use crate::team::{Ran, Team, run_team};
use lane_core::Recorder;
use lane_rings::BatchRx;
use lane_worker::{Gate, WorkerContext};
use mos_bytes::Source;
use pcap_source::Capture;
use std::sync::Wait;
use std::thread::Threads;

/// Reads a capture for a report.
#[derive(Drop)]
pub(crate) struct ReportFeed<'a, R, S, G> {
    context: &'a WorkerContext<'a, R, G>,
    capture: &'a mut Capture,
    source: &'a mut S,
    /// Through which each lane gives batches back.
    used: &'a mut Vec<BatchRx>,
}

impl<'a, R: Wait, L: Recorder + Drop, S: Source, G: Gate> Feed<L> for ReportFeed<'a, R, S, G> {
    ghost use Rattle.std.specs.Prelude.{◌≡◌, IsOk, IsErrOf, false};
    ghost use Rattle.pcap_source.specs.Reading.{Opened};
    ghost use Rattle.worker_pool.specs.declared.job.PoolError.TheVariants.{ReadFault};
    ghost use Rattle.worker_pool.specs.Source.{ReadsOn};
    ghost use Rattle.worker_pool.specs.Team.{ReadsWhole};

    ghost script = { λ d. d.context.now.script.now };

    ghost may = { λ d begins. Opened d.capture.now };

    ghost did = { λ d e begins frames result. ReadsWhole frames d.capture.now (S.left d.source.now)
        (S.left e.source.now) result
        × ReadsOn S.Source d.capture.now d.source.now e.source.now (IsOk result) (IsErrOf result ReadFault)
        × (e.capture.ghost_name ≡ d.capture.ghost_name) × (e.source.ghost_name ≡ d.source.ghost_name)
        × (e.capture.now.is_live ≡ false) };

    fn send_packets(&mut self, inputs: &mut Vec<LaneInput<L>>) -> Result<Whole, PoolError> {
        let whole = dispatch(self.context, inputs, self.capture, self.source, self.used)?;
        Ok(whole)
    }
}

/// Runs a team over an opened capture, and reads that. Through `used` each lane gives back the batches that it is done
/// with.
///
/// The capture is read to its end or its tail, also where a lane failed, or to where it is refused. An error is that
/// refusal, a fault of the source, or want of memory. The capture may be read on only where memory was refused before
/// anything of it was read.
pub(crate) fn read_team<
    R: Threads + Wait + Sync + Send + Copy + Drop + 'static,
    L: Recorder + Drop + Send,
    S: Source,
    G: Gate + Sync,
>(
    context: &WorkerContext<'_, R, G>,
    team: Team<L>,
    used: Vec<BatchRx>,
    capture: &mut Capture,
    source: &mut S,
) -> Result<Ran<L>, PoolError>
    requires opened { Opened capture.old }
    requires team { (app : Meaning) × IsTeam L.Recorder app team.workers.items team.packets.items
        × IsTrue (are_lawful (start app.presets) (commands_of context.now.script.now)) }
    ensures ran { TeamRan L.Recorder context.now.script.now team.workers.items capture.old (S.left source.old)
        (S.left source.new) result }
    ensures light { IfErr result (λ e. e ≢ PoolError.Heavy) }
    ensures reads { ReadsOn S.Source capture.old source.old source.new (IsOk result)
        (IsErrOf result PoolError.ReadFault) }
    ensures stopped { IsTrue capture.new.is_live
        → (result ≡ Err PoolError.NoMemory) × (capture.new ≡ capture.old) × (source.new ≡ source.old) }
{
    let mut used = used;
    let mut feed = ReportFeed {
        context,
        capture,
        source,
        used: &mut used,
    };
    let (read, workers) = run_team(context, team, &mut feed)?;
    let whole = read?;
    Ok(Ran { workers, whole })
}
