//! A lane under a script: before each packet it takes the commands that the packet may see.

ghost use Rattle.std.specs.Prelude.{◌≡◌, ◌≢◌, ◌+◌, ◌<◌, ◌≤◌, [], ◌∷◌, ◌++◌, List, length, true, None, Err, OnOk, IfOk};
ghost use Rattle.lane_core.specs.Records.{VersionedPacket, records, verdict_on};
ghost use Rattle.lane_core.specs.Sight.{arrival_at};
ghost use Rattle.control_script.specs.Versions.{ceil};
ghost use Rattle.capture_replay.specs.Records.{control_at};
ghost use Rattle.capture_replay.specs.Reading.{LaneIsReady, LaneFollows, IsOver, MayTake, SameLane, packet_at};

use app_api::Verdict;
use control_script::Script;
use flow_timers::Moment;
use lane_core::laws::{later_commands_change_none, one_event_more};
use lane_core::{LaneError, Recorder};
use lane_worker::give_commands;
use native_filters::NativeBook;
use std::alloc::Global;

// How many commands a packet may see. Where the lane has the whole script, nothing is looked up.
#[inline(always)]
fn ceiling_of<L: Recorder>(lane: &L, script: &Script, number: u64) -> u32
    requires before { L.given lane.now ≤ ceil script.now number }
    ensures ceil { result ≡ ceil script.now number }
    ensures within { result ≤ length script.now }
    ensures most { result ≤ 4096 }
{
    let given = lane.version();
    if given >= script.len() {
        return given;
    }
    script.ceil(number)
}

/// One packet more, by its time and its captured bytes, behind the commands up to its ceiling.
///
/// An error is want of memory, or that the lane keeps entries and they weigh too much with this packet.
#[inline(always)]
pub(crate) fn advance<L: Recorder>(
    alloc: Global,
    natives: &NativeBook,
    script: &Script,
    lane: &mut L,
    number: u64,
    moment: Moment,
    bytes: &[u8],
) -> Result<Verdict, LaneError>
    requires good { L.failed lane.old ≡ None }
    requires may { MayTake L.Recorder script.now lane.old number }
    requires bound { number < 1048576 }
    ensures ok { OnOk result (L.failed lane.new ≡ None) }
    ensures failed { result ≡ Err LaneError.Heavy → L.failed lane.new ≢ None }
    ensures follows { OnOk result ((ps : List VersionedPacket) → LaneFollows L.Recorder script.now lane.old ps
        → LaneFollows L.Recorder script.now lane.new (ps ++ packet_at script.now number (arrival_at number moment bytes.now) ∷ [])) }
    ensures verdict { IfOk result (λ verdict. (ps : List VersionedPacket)
        → LaneFollows L.Recorder script.now lane.old ps
        → verdict ≡ verdict_on (L.app lane.old) (control_at (L.app lane.old) script.now)
        (packet_at script.now number (arrival_at number moment bytes.now))
        (records (L.app lane.old) (control_at (L.app lane.old) script.now) ps)) }
    ensures light { OnOk result (L.keeps lane.old ≡ true → (ps : List VersionedPacket)
        → LaneFollows L.Recorder script.now lane.old ps
        → IsOver (L.app lane.old) script.now (ps ++ packet_at script.now number (arrival_at number moment bytes.now) ∷ []) → ⊥) }
    ensures heavy { result ≡ Err LaneError.Heavy → (L.keeps lane.old ≡ true) × ((ps : List VersionedPacket)
        → LaneFollows L.Recorder script.now lane.old ps
        → IsOver (L.app lane.old) script.now (ps ++ packet_at script.now number (arrival_at number moment bytes.now) ∷ [])) }
    ensures ready { result ≢ Err LaneError.NoMemory → LaneIsReady L.Recorder script.now lane.new (number + 1) }
    ensures same { SameLane L.Recorder lane.old lane.new }
{
    one_event_more();
    later_commands_change_none();
    let ceiling = ceiling_of(lane, script, number);
    give_commands(alloc, lane, script, ceiling)?;
    lane.packet_at(alloc, number, moment, bytes, natives)
}
