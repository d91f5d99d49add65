//! A packet's turn: whether it fits, the places for it, and the packet.

ghost use Rattle.std.specs.Prelude.{◌≡◌, ◌+◌, ◌≤◌, length, true, None, Some, IsTrue, OnOk, IfErr};
ghost use Rattle.forest_versions.specs.Lawful.{are_lawful};
ghost use Rattle.forest_versions.specs.State.{start};
ghost use Rattle.control_script.specs.Order.{commands_of};
ghost use Rattle.lane_rings.specs.Places.{lent};
ghost use Rattle.lane_worker.specs.Given.{IsUnder};
ghost use Rattle.lane_worker.specs.Steps.{fits, is_behind};
ghost use Rattle.lane_worker.specs.Turning.{Turned};

use crate::context::WorkerContext;
use crate::places::take_places;
use app_api::Verdict;
use control_script::Script;
use flow_timers::Moment;
use lane_core::{LaneError, Recorder};
use lane_rings::{CommandRx, LentPacket};
use pcap_source::RECORD_LIMIT;
use std::sync::Wait;

// Whether an index is above that of the lane's last packet.
fn may_follow(last: Option<u64>, index: u64) -> bool
    ensures { result ≡ is_behind last index }
{
    match last {
        Some(last) => last < index,
        None => true,
    }
}

/// Whether a packet may be handed to a lane.
pub(crate) fn is_fit<L: Recorder>(lane: &L, script: &Script, packet: &LentPacket<'_>) -> bool
    ensures fits { result ≡ fits (length (commands_of script.now)) (L.last lane.now) (L.given lane.now) (lent packet.now) }
    ensures few { IsTrue result → packet.now.ceil ≤ 4096 }
{
    may_follow(lane.newest(), packet.index)
        && packet.index < u64::from(RECORD_LIMIT)
        && packet.floor <= packet.ceil
        && packet.ceil <= script.len()
        && lane.version() <= packet.ceil
}

/// Takes the places for a packet that fits, and hands it to the lane. An error is the lane's.
pub(crate) fn hand_over<R: Wait, L: Recorder, G>(
    context: &WorkerContext<'_, R, G>,
    lane: &mut L,
    commands: &mut CommandRx,
    packet: &LentPacket<'_>,
) -> Result<Verdict, LaneError>
    requires good { L.failed lane.old ≡ None }
    requires lawful { IsTrue (are_lawful (start (L.app lane.old).presets) (commands_of context.now.script.now)) }
    requires under { IsUnder L.Recorder (commands_of context.now.script.now) lane.old }
    requires fits { fits (length (commands_of context.now.script.now)) (L.last lane.old) (L.given lane.old) (lent packet.now) ≡ true }
    requires few { packet.now.ceil ≤ 4096 }
    ensures turned { Turned L.Recorder
        (commands_of context.now.script.now) lane.old lane.new commands.old commands.new (lent packet.now) result }
    ensures ok { OnOk result (L.failed lane.new ≡ None) }
    ensures under { OnOk result (IsUnder L.Recorder (commands_of context.now.script.now) lane.new) }
    ensures fails { IfErr result (λ e. L.failed lane.new ≡ Some e) }
    ensures app { L.app lane.new ≡ L.app lane.old }
    ensures keeps { L.keeps lane.new ≡ L.keeps lane.old }
{
    take_places(context, lane, commands, packet.floor, packet.ceil)?;
    let moment = Moment {
        seconds: packet.seconds,
        fraction: packet.fraction,
    };
    lane.packet_at(
        context.alloc,
        packet.index,
        moment,
        packet.bytes,
        context.natives,
    )
}
