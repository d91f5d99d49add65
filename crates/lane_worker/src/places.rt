//! Places of a command ring: for each, the lane takes the script's next command.

ghost use Rattle.std.specs.Prelude.{◌≡◌, ◌+◌, ◌<◌, ◌≤◌, min, length, None, Some, IsTrue, OnOk, IfErr, true, false};
ghost use Rattle.forest_versions.specs.Lawful.{are_lawful};
ghost use Rattle.forest_versions.specs.State.{start};
ghost use Rattle.control_script.specs.Order.{commands_of};
ghost use Rattle.lane_rings.specs.Ring.{known};
ghost use Rattle.lane_worker.specs.Given.{IsUnder};
ghost use Rattle.lane_worker.specs.Turning.{Advanced};

use crate::backoff::Backoff;
use crate::commands::give_next;
use crate::context::WorkerContext;
use crate::ends::take_from;
use lane_core::{LaneError, Recorder};
use lane_rings::CommandRx;
use std::sync::Wait;

// Whether a lane has all the commands that a packet of this ceiling may see.
fn has_all<L: Recorder>(lane: &L, ceil: u32) -> bool
    ensures yes { result ≡ true → ceil ≤ L.given lane.now }
    ensures no { result ≡ false → L.given lane.now < ceil }
{
    lane.version() >= ceil
}

/// Takes places until the lane's version is at least `floor`, and goes on while the ring shows one and the version is
/// below `ceil`. For each place the lane takes the script's next command; an error is the lane's.
pub(crate) fn take_places<R: Wait, L: Recorder, G>(
    context: &WorkerContext<'_, R, G>,
    lane: &mut L,
    commands: &mut CommandRx,
    floor: u32,
    ceil: u32,
) -> Result<(), LaneError>
    requires good { L.failed lane.old ≡ None }
    requires lawful { IsTrue (are_lawful (start (L.app lane.old).presets) (commands_of context.now.script.now)) }
    requires under { IsUnder L.Recorder (commands_of context.now.script.now) lane.old }
    requires order { floor ≤ ceil }
    requires within { ceil ≤ length context.now.script.now }
    requires few { ceil ≤ 4096 }
    requires before { L.given lane.old ≤ ceil }
    ensures advanced { Advanced L.Recorder (commands_of context.now.script.now) lane.old lane.new commands.old commands.new }
    ensures ok { OnOk result (L.failed lane.new ≡ None) }
    ensures under { OnOk result (IsUnder L.Recorder (commands_of context.now.script.now) lane.new) }
    ensures floor { OnOk result (floor ≤ L.given lane.new) }
    ensures ceil { OnOk result (L.given lane.new ≤ ceil) }
    ensures known { OnOk result (min ceil (L.given lane.old + length (known commands.old)) ≤ L.given lane.new) }
    ensures fails { IfErr result (λ e. L.failed lane.new ≡ Some e) }
{
    let mut backoff = Backoff::eager();
    for _ in context.rt.forever() {
        if has_all(lane, ceil) {
            return Ok(());
        }
        match take_from(commands) {
            Some(_) => give_next(context.alloc, lane, context.script)?,
            None => {
                if lane.version() >= floor {
                    return Ok(());
                }
                backoff.pause(context.rt);
            }
        }
    }
    unreachable!()
}
