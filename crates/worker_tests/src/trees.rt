//! Which trees a lane makes, and that it looks at them.

use crate::counting::Counting;
use crate::frames::{ACK, SYN, SYN_ACK};
use crate::lanes::follows;
use crate::plain::{natives, script};
use app_api::LogApp;
use control_script::Script;
use flow_table::{Endpoint, Key};
use lane_core::{Lane, Recorder};
use shared_forest::Table;
use std::alloc::Global;

// Each connection switches two of its registrations on.
const SWITCHING: &str = "\
unreg 1
unreg 2
reg 16 pkt_in snd do on 17 on 18
reg 17 start snd off
reg 18 pkt_in rcv off";

const HANDSHAKE: &[&[u8; 54]] = &[&SYN, &SYN_ACK, &ACK];

// Gives a lane the handshake of a port this much higher: three packets, numbered from three times that on.
fn opens<L: Recorder>(alloc: Global, lane: &mut L, script: &Script, by: u8) -> bool {
    let mut number = 3 * u64::from(by);
    for like in HANDSHAKE {
        if !follows(alloc, lane, script, &[(number, *like, by)]) {
            return false;
        }
        number = number.wrapping_add(1);
    }
    true
}

// Whether 99 handshakes after the first add no row to the store.
fn add_none(alloc: Global, lane: &mut Lane<LogApp, Table>, script: &Script) -> bool {
    let mut all = opens(alloc, lane, script, 0);
    let rows = lane.forests().rows();
    for by in 1..100 {
        all = all && opens(alloc, lane, script, by);
    }
    all && lane.forests().rows() == rows
}

// Whether a lane ends with so many records and callbacks.
fn ends<L: Recorder + Drop>(alloc: Global, lane: L, records: usize, callbacks: u64) -> bool {
    lane.finish(alloc, None, &natives()).is_ok_and(|end| {
        (end.records.as_slice().len(), end.callbacks) == (records, callbacks)
    })
}

fn share(alloc: Global, script: &Script) -> bool {
    match Lane::new(alloc, LogApp, Table::new(alloc), true) {
        Ok(mut lane) => { add_none(alloc, &mut lane, script) && ends(alloc, lane, 100, 600) }
        Err(_) => false,
    }
}

// Row by row the same trees: connections that change their registrations alike share what the change made.
#[test]
fn connections_share_their_trees(rt: HostRuntime) {
    let alloc = rt.alloc();
    let script = script(alloc, SWITCHING);
    assert!(rt; script.is_some_and(|script| share(alloc, &script)));
}

// The registrations of the tree by which the connection of two endpoints is called, after a handshake from port 1000.
fn called(alloc: Global, script: &Script, port: u16) -> Option<usize> {
    let mut lane = Lane::new(alloc, LogApp, Table::new(alloc), true).ok()?;
    if !opens(alloc, &mut lane, script, 0) {
        return None;
    }
    let client = Endpoint::V4 {
        addr: 0x0a00_0001,
        port,
    };
    let server = Endpoint::V4 {
        addr: 0x0a00_0002,
        port: 80,
    };
    let tree = lane.tree_of(&Key::between(client, server))?;
    Some(tree.slots().len())
}

// The log application has three presets.
#[test]
fn an_open_connection_has_its_tree(rt: HostRuntime) {
    let alloc = rt.alloc();
    let rows = [
        ("the open connection", 1000, Some(3)),
        ("no connection", 1001, None),
    ];
    for (name, port, want) in rows {
        let script = script(alloc, "");
        let called = script.and_then(|script| called(alloc, &script, port));
        assert!(rt; called == want, "{name}");
    }
}

// How often a store was looked at after each packet of a handshake.
fn looks(alloc: Global, script: &Script) -> Option<[u64; 3]> {
    let mut lane = Lane::new(alloc, LogApp, Counting::new(alloc), true).ok()?;
    let mut looks = [0; 3];
    for (place, like) in HANDSHAKE.iter().enumerate() {
        if !follows(alloc, &mut lane, script, &[(place as u64, *like, 0)]) {
            return None;
        }
        looks[place % 3] = lane.forests().looks();
    }
    Some(looks)
}

// Callbacks are found by walks over the store's trees.
#[test]
fn each_packet_looks_at_a_tree(rt: HostRuntime) {
    let alloc = rt.alloc();
    let script = script(alloc, "");
    let looks = script.and_then(|script| looks(alloc, &script));
    assert!(rt;
        looks.is_some_and(|[first, second, third]| 0 < first && first < second && second < third)
    );
}
