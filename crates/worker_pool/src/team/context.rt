//! What each worker does, in a thread of its own or in the one that deals the packets.

ghost use Rattle.std.specs.Prelude.{◌≡◌, None, IsTrue};
ghost use Rattle.forest_versions.specs.Lawful.{are_lawful};
ghost use Rattle.forest_versions.specs.State.{start};
ghost use Rattle.lane_worker.specs.Worked.{MayWork, WorkedOn};

use lane_core::Recorder;
use lane_worker::{Gate, Worker, WorkerContext, work_in};
use std::sync::Wait;
use std::sync::atomic::AtomicBool;

/// Runs workers. It is shared by their threads, so that a thread takes one reference for all that it needs.
pub(crate) trait WorkerRunner<L: Recorder + Drop> {
    ghost use Rattle.std.specs.Prelude.{List};
    ghost use Rattle.forest_versions.specs.declared.command.Command.{Command};

    /// The commands of the script.
    ghost commands: { Self → List Command };

    /// Has a worker work until its flag is raised and its packet ring then shows no packet.
    fn run_worker(&self, worker: Worker<L>, stop: &AtomicBool) -> Worker<L>
        requires ready { MayWork L.Recorder (Self.commands self.now) worker }
        requires lawful { IsTrue (are_lawful (start (L.app worker.lane).presets) (Self.commands self.now)) }
        ensures worked { WorkedOn L.Recorder (Self.commands self.now) worker result };
}

impl<'a, R: Wait, L: Recorder + Drop, G: Gate> WorkerRunner<L> for WorkerContext<'a, R, G> {
    ghost use Rattle.control_script.specs.Order.{commands_of};

    ghost commands = { λ s. commands_of s.script.now };

    fn run_worker(&self, worker: Worker<L>, stop: &AtomicBool) -> Worker<L>
        requires ready { MayWork L.Recorder (commands_of self.now.script.now) worker }
        requires lawful { IsTrue (are_lawful (start (L.app worker.lane).presets) (commands_of self.now.script.now)) }
        ensures worked { WorkedOn L.Recorder (commands_of self.now.script.now) worker result }
    {
        work_in(self, worker, stop)
    }
}
