//! Lanes under packets and commands: what a record lives under, and what is kept of it.

ghost use Rattle.std.specs.Prelude.{IsTrue};
ghost use Rattle.lane_core.specs.Lane.{IsAfter};

use crate::frames::{ACK, ARP, SYN, SYN_ACK, captured, higher};
use crate::plain::{natives, script};
use app_api::{LogApp, Verdict};
use control_script::Script;
use lane_core::{Lane, LaneEnd, Recorder};
use shared_forest::Table;
use std::alloc::Global;

// A packet: its number, its frame, and how much the client's port is higher.
pub type Packet = (u64, &'static [u8; 54], u8);

// A name, whether entries are kept, the script, packets, and then the versions of their records and how many callbacks these
// have.
type Row = (
    &'static str,
    bool,
    &'static str,
    &'static [Packet],
    &'static [(u64, u32)],
    u64,
);

const ROWS: &[Row] = &[
    (
        "a record lives under the commands before its first packet",
        true,
        "at 5 reg 16 start snd",
        &[(3, &ARP, 0), (4, &SYN, 0), (5, &SYN, 1), (6, &SYN_ACK, 0)],
        &[(3, 0), (4, 0), (5, 1)],
        8,
    ),
    (
        "callbacks are counted where no entries are kept",
        false,
        "",
        &[(0, &SYN, 0), (1, &SYN_ACK, 0), (2, &ACK, 0)],
        &[(0, 0)],
        6,
    ),
];

// Whether a packet of this number may come next.
pub fn may_come<L: Recorder>(lane: &L, number: u64) -> bool
    ensures { IsTrue result → IsAfter (L.last lane.now) number }
{
    match lane.newest() {
        Some(last) => last < number,
        None => true,
    }
}

// Gives a lane the script's commands up to the ceiling of a packet.
fn hears<L: Recorder>(alloc: Global, lane: &mut L, script: &Script, number: u64) -> bool {
    for place in lane.version()..script.ceil(number) {
        let Some(command) = script.command(place) else {
            return false;
        };
        if lane.version() >= 4096 || !lane.in_force().is_lawful(command) {
            return false;
        }
        if lane.command(alloc, command).is_err() {
            return false;
        }
    }
    true
}

// Gives a lane one packet more, which passes.
fn takes<L: Recorder>(alloc: Global, lane: &mut L, (number, like, by): Packet) -> bool {
    let Ok(frame) = captured(alloc, &higher(like, by)) else {
        return false;
    };
    if number >= 1_048_576 || !may_come(lane, number) {
        return false;
    }
    lane.packet(alloc, number, &frame, &natives()) == Ok(Verdict::Pass)
}

// Gives a lane these packets, each behind the commands that it sees.
pub fn follows<L: Recorder>(
    alloc: Global,
    lane: &mut L,
    script: &Script,
    packets: &[Packet],
) -> bool {
    for packet in packets {
        if !hears(alloc, lane, script, packet.0) || !takes(alloc, lane, *packet) {
            return false;
        }
    }
    !lane.has_failed()
}

// How many entries the records of a lane have.
fn entries_in(end: &LaneEnd) -> u64 {
    let mut entries = 0u64;
    for record in end.records.as_slice() {
        entries = entries.wrapping_add(record.entries.as_slice().len() as u64);
    }
    entries
}

// Whether a lane ends so, and without a dropped packet.
fn ends<L: Recorder + Drop>(
    alloc: Global,
    lane: L,
    keep: bool,
    versions: &[(u64, u32)],
    callbacks: u64,
) -> bool {
    let Ok(end) = lane.finish(alloc, None, &natives()) else {
        return false;
    };
    end.versions.as_slice() == versions
        && (end.callbacks, end.drops) == (callbacks, 0)
        && entries_in(&end) == if keep { callbacks } else { 0 }
}

// Asks that a type may be handed to a thread.
fn handed<T: Send>(value: T) -> T {
    value
}

// A lane whose application and store may be handed to a thread may be handed itself.
fn lane_is_handed(lane: Lane<LogApp, Table>) -> Lane<LogApp, Table> {
    handed(lane)
}

// So may what a lane ends with.
fn end_is_handed(end: LaneEnd) -> LaneEnd {
    handed(end)
}

fn leaves(alloc: Global, row: &Row) -> bool {
    let (_, keep, text, packets, versions, callbacks) = *row;
    let Some(script) = script(alloc, text) else {
        return false;
    };
    let Ok(mut lane) = Lane::new(alloc, LogApp, Table::new(alloc), keep) else {
        return false;
    };
    follows(alloc, &mut lane, &script, packets)
        && lane.newest() == packets.last().map(|packet| packet.0)
        && lane.version() == script.len()
        && ends(alloc, lane, keep, versions, callbacks)
}

#[test]
fn each_lane_ends_with_its_records(rt: HostRuntime) {
    for row in ROWS {
        assert!(rt; leaves(rt.alloc(), row), "{}", row.0);
    }
}

// A handshake in a lane that was handed over, of which the end is handed back.
fn goes_over(alloc: Global) -> bool {
    let Some(script) = script(alloc, "") else {
        return false;
    };
    let Ok(lane) = Lane::new(alloc, LogApp, Table::new(alloc), true) else {
        return false;
    };
    let mut lane = lane_is_handed(lane);
    follows(alloc, &mut lane, &script, ROWS[1].3)
        && match lane.finish(alloc, None, &natives()) {
            Ok(end) => end_is_handed(end).callbacks == 6,
            Err(_) => false,
        }
}

#[test]
fn a_lane_goes_to_a_thread_and_its_end_comes_back(rt: HostRuntime) {
    assert!(rt; goes_over(rt.alloc()));
}
