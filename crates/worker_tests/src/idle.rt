//! Connections that end by idleness, in a lane of its own: a limit of 10 seconds, and a registration of `timer`.

use crate::frames::{ACK, ARP, SYN, SYN_ACK, captured};
use crate::lanes::may_come;
use crate::plain::natives;
use app_api::{LogApp, Reg, TIMER, Verdict};
use flow_timers::Moment;
use forest_versions::Command;
use lane_core::{Lane, Recorder};
use native_filters::Hook;
use shared_forest::Table;
use std::alloc::Global;

// A packet: its second, and its frame. Its number is its place.
type Packet = (u32, &'static [u8; 54]);

// A name, packets, the greatest second of all packets, the names of their records, and how many callbacks these have. A
// packet of a connection has two, one of none has one, and so has the end of a connection by idleness.
type Row = (&'static str, &'static [Packet], u32, &'static [u64], u64);

const ROWS: &[Row] = &[
    (
        "a packet after more than the limit begins a connection",
        &[(0, &SYN), (0, &SYN_ACK), (0, &ACK), (11, &SYN)],
        11,
        &[0, 3],
        9,
    ),
    (
        "a packet at the limit belongs to the connection",
        &[(0, &SYN), (0, &SYN_ACK), (0, &ACK), (10, &SYN)],
        10,
        &[0],
        8,
    ),
    (
        "the end of the capture ends a connection",
        &[(0, &SYN), (0, &SYN_ACK), (0, &ACK), (11, &ARP)],
        11,
        &[0, 3],
        8,
    ),
    (
        "the end is that of all packets, also of those of other lanes",
        &[(0, &SYN), (0, &SYN_ACK), (0, &ACK)],
        11,
        &[0],
        7,
    ),
    (
        "a later packet of another key ends none, as moments may fall",
        &[(0, &SYN), (0, &SYN_ACK), (0, &ACK), (11, &ARP), (5, &ACK)],
        11,
        &[0, 3],
        9,
    ),
    (
        "an end is for good, though the next moment is within the limit",
        &[(0, &SYN), (0, &SYN_ACK), (0, &ACK), (11, &ACK), (5, &ACK)],
        11,
        &[0, 3, 4],
        9,
    ),
];

// Gives a lane one command more.
fn hears<L: Recorder>(alloc: Global, lane: &mut L, command: &Command) -> bool {
    lane.version() < 4096
        && lane.in_force().is_lawful(command)
        && lane.command(alloc, command).is_ok()
}

// Gives a lane one packet more, which passes.
fn takes<L: Recorder>(alloc: Global, lane: &mut L, number: u64, (second, like): Packet) -> bool {
    let Ok(mut frame) = captured(alloc, like) else {
        return false;
    };
    frame.seconds = second;
    if number >= 1_048_576 || !may_come(lane, number) {
        return false;
    }
    lane.packet(alloc, number, &frame, &natives()) == Ok(Verdict::Pass)
}

// Whether a lane ends with records of these names, and so many callbacks.
fn ends<L: Recorder + Drop>(
    alloc: Global,
    lane: L,
    greatest: u32,
    names: &[u64],
    callbacks: u64,
) -> bool {
    let greatest = Moment {
        seconds: greatest,
        fraction: 0,
    };
    let Ok(end) = lane.finish(alloc, Some(greatest), &natives()) else {
        return false;
    };
    let mut same = end.versions.as_slice().len() == names.len() && end.callbacks == callbacks;
    for (place, (name, _)) in end.versions.as_slice().iter().enumerate() {
        same = same && names.get(place) == Some(name);
    }
    same
}

fn leaves(alloc: Global, row: &Row) -> bool {
    let (_, packets, greatest, names, callbacks) = *row;
    let Ok(mut lane) = Lane::new(alloc, LogApp, Table::new(alloc), true) else {
        return false;
    };
    let limit = Command::Idle(10);
    let call = Command::Register(Reg::preset(16, TIMER, Hook::Rcv, true));
    let mut all = hears(alloc, &mut lane, &limit) && hears(alloc, &mut lane, &call);
    for (number, packet) in packets.iter().enumerate() {
        all = all && takes(alloc, &mut lane, number as u64, *packet);
    }
    all && ends(alloc, lane, greatest, names, callbacks)
}

#[test]
fn each_ends_where_it_was_silent_for_too_long(rt: HostRuntime) {
    for row in ROWS {
        assert!(rt; leaves(rt.alloc(), row), "{}", row.0);
    }
}
