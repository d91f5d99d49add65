//! What is left in the ring of a worker whose thread has ended.

ghost use Rattle.std.specs.Prelude.{◌≡◌, IsTrue, None};
ghost use Rattle.forest_versions.specs.Lawful.{are_lawful};
ghost use Rattle.forest_versions.specs.State.{start};
ghost use Rattle.control_script.specs.Order.{commands_of};
ghost use Rattle.lane_rings.specs.Ring.{sent, taken, AreEnds, SameTx};
ghost use Rattle.lane_worker.specs.Worked.{MayWork, Worked};

use crate::context::WorkerContext;
use crate::gate::Gate;
use crate::worker::{Worker, work_in};
use lane_core::Recorder;
use lane_rings::BatchTx;
use std::sync::Wait;
use std::sync::atomic::AtomicBool;

/// Works off, in place, what is left in the packet ring of a worker that is held beside the ring's sending end. At the
/// end all packets that were sent were taken.
///
/// It waits for the places that a packet needs, so all commands have to be told of before.
pub fn work_off<R: Wait, L: Recorder + Drop, G: Gate>(
    context: &WorkerContext<'_, R, G>,
    w: Worker<L>,
    packets: &mut BatchTx,
) -> Worker<L>
    requires ends { AreEnds packets.old w.packets }
    requires ready { MayWork L.Recorder (commands_of context.now.script.now) w }
    requires lawful { IsTrue (are_lawful (start (L.app w.lane).presets) (commands_of context.now.script.now)) }
    ensures worked { Worked L.Recorder (commands_of context.now.script.now) w result }
    ensures ready { MayWork L.Recorder (commands_of context.now.script.now) result }
    ensures ends { AreEnds packets.new result.packets }
    ensures ring { SameTx packets.old packets.new }
    ensures sent { sent packets.new ≡ sent packets.old }
    ensures all { taken result.packets ≡ sent packets.new }
{
    let stop = AtomicBool::new(true);
    let mut w = w;
    for _ in context.rt.forever() {
        if w.packets.beside(packets) == 0 {
            return w;
        }
        w = work_in(context, w, &stop);
    }
    unreachable!()
}
