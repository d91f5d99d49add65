//! What this thread does while the workers of a run are at work.

ghost use Rattle.std.specs.Prelude.{◌≤◌, [], List, length};
ghost use Rattle.lane_worker.specs.declared.worker.Worker.{Worker as Begun};
ghost use Rattle.worker_pool.specs.Inputs.{AreInputs, Dealt};

use crate::job::PoolError;
use crate::team::dispatch::Whole;
use crate::team::lane_input::LaneInput;
use lane_core::Recorder;

/// Reads a capture, and sends its packets to the workers.
pub trait Feed<L: Recorder + Drop> {
    ghost use Rattle.std.specs.Prelude.{List, Result};
    ghost use Rattle.pcap_source.specs.Captured.{Captured};
    ghost use Rattle.control_script.specs.declared.stamped.Stamped.{Stamped};
    ghost use Rattle.lane_worker.specs.declared.worker.Worker.{Worker as Begun};
    ghost use Rattle.worker_pool.specs.declared.team.dispatch.Whole.{Whole};
    ghost use Rattle.worker_pool.specs.declared.job.PoolError.{PoolError};

    /// The script of the run.
    ghost script: { Self → List Stamped };

    /// Whether it may send to workers that began so.
    ghost may: { Self → List (Begun L) → Type 0 };

    /// What it comes to from a moment to a later one, with workers that began so: it sent the packets of these frames,
    /// and ended with this.
    ghost did: { Self → Self → List (Begun L) → List Captured → Result Whole PoolError → Type 0 };

    /// Sends the packets of the capture to the inputs of their lanes. It ends with the capture, or with why it stopped
    /// before.
    fn send_packets(&mut self, inputs: &mut Vec<LaneInput<L>>) -> Result<Whole, PoolError>
        requires some { 1 ≤ length inputs.old.items }
        requires begins { (begins : List (Begun L))
            × AreInputs L.Recorder (Self.script self.old) begins [] inputs.old.items × Self.may self.old begins }
        ensures dealt { (begins : List (Begun L))
            → AreInputs L.Recorder (Self.script self.old) begins [] inputs.old.items → Self.may self.old begins
            → Dealt L.Recorder (Self.script self.old) begins inputs.new.items
            (λ frames. Self.did self.old self.new begins frames result) };
}
