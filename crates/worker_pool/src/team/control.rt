//! The control thread: it tells the lanes of the script's commands.

ghost use Rattle.std.specs.List.{AllZip};
ghost use Rattle.worker_pool.specs.Telling.{Tells, HasTold};

use lane_rings::CommandTx;
use lane_worker::Gate;

// Sends a place into each ring that has room.
fn tell_all(lanes: &mut [CommandTx], place: u32)
    ensures { AllZip (Tells place) lanes.old lanes.new }
{
    for lane in lanes.iter_mut() {
        let _ = lane.send(place);
    }
}

/// Tells all lanes of each of so many commands, in order, while the capture is read. Where a lane's ring has room for all of
/// them, none is left out. It never waits but at the gate.
pub(crate) fn publish<G: Gate>(lanes: &mut [CommandTx], count: u32, gate: &G)
    ensures { AllZip (HasTold count) lanes.old lanes.new }
{
    for place in 0..count {
        tell_all(lanes, place);
        gate.published(place as usize + 1);
    }
}
