//! Connections under short scripts: what their callbacks see, which packets are dropped, and the record that they leave.

ghost use Rattle.std.specs.Prelude.{◌≡◌, IfOk};
ghost use Rattle.shared_forest.specs.Rows.{HasRow, tree_at};
ghost use Rattle.connection_core.specs.Trees.{IsForestInForce, HasPresentForest};

use crate::masters::{Presets, master_after};
use crate::natives::natives;
use app_api::{DropList, FieldList, LogApp, Tally, Verdict};
use builtin_events::raised_by_orphan;
use connection_core::laws::first_tree_names_the_first_list;
use connection_core::{Arrived, Flow, InForce, Ledger, Notes, Terms, orphan};
use flow_table::Endpoint;
use forest_versions::Master;
use mos_bytes::MemSink;
use packet_views::{ACK, Class, Head, SYN};
use report_text::{Record, RecordKind, Totals, is_tidy, write_report};
use shared_forest::{ForestView, Forests, Table};
use std::alloc::{AllocError, Global};
use tcp_emulation::Side::{self, Client, Server};

/// A packet as it is sent: by its sender, flags, sequence and acknowledgement number.
#[derive(Clone, Copy)]
struct Packet(Side, u8, u32, u32, &'static [u8]);

/// What comes after the commands: a handshake and these packets of a connection, or a packet of none.
#[derive(Clone, Copy)]
enum Traffic {
    Connection(&'static [Packet]),
    Orphan,
}

/// More data follows at once (RFC 9293, section 3.1).
const PSH: u8 = 8;

/// A handshake with the numbers 100 and 300.
const OPEN: [Packet; 3] = [
    Packet(Client, SYN, 100, 0, b""),
    Packet(Server, SYN | ACK, 300, 101, b""),
    Packet(Client, ACK, 101, 301, b""),
];

/// The second piece of a stream before the first, which overlap: the same for two policies.
const OVERLAP: [Packet; 2] = [
    Packet(Client, PSH | ACK, 103, 301, b"AAAA"),
    Packet(Client, PSH | ACK, 101, 301, b"BBBB"),
];

/// What traffic leaves after a script.
#[derive(Clone, Copy)]
struct Case {
    name: &'static str,
    presets: Presets,
    script: &'static str,
    traffic: Traffic,
    report: &'static str,
}

const CASES: &[Case] = &[
    Case {
        name: "pieces around a gap",
        presets: Presets::Log,
        script: "unreg 1\n\
            unreg 2\n\
            event 1 under pkt_in len > 0\n\
            reg 16 1 rcv peekat 0 8",
        traffic: Traffic::Connection(&[
            Packet(Client, PSH | ACK, 105, 301, b"EFGH"),
            Packet(Client, PSH | ACK, 101, 301, b"ABCD"),
        ]),
        report: "conn 0 10.0.0.1:1000 > 10.0.0.2:80 v 4\n\
            cb 3 rcv 1 16 at 0 4:45464748\n\
            cb 4 rcv 1 16 at 0 0:4142434445464748\n\
            end packets 5 records 1 callbacks 2 drops 0 tail 0\n",
    },
    Case {
        name: "next bytes by the first policy",
        presets: Presets::Log,
        script: "unreg 1\n\
            unreg 2\n\
            reg 16 new_data rcv peek 6",
        traffic: Traffic::Connection(&OVERLAP),
        report: "conn 0 10.0.0.1:1000 > 10.0.0.2:80 v 3\n\
            cb 4 rcv new_data 16 peek 0 0 424241414141\n\
            end packets 5 records 1 callbacks 1 drops 0 tail 0\n",
    },
    Case {
        name: "next bytes by the last policy",
        presets: Presets::Log,
        script: "unreg 1\n\
            unreg 2\n\
            reg 16 new_data rcv peek 6\n\
            policy last",
        traffic: Traffic::Connection(&OVERLAP),
        report: "conn 0 10.0.0.1:1000 > 10.0.0.2:80 v 4\n\
            cb 4 rcv new_data 16 peek 0 0 424242424141\n\
            end packets 5 records 1 callbacks 1 drops 0 tail 0\n",
    },
    Case {
        name: "bytes stay below next",
        presets: Presets::Rexmit,
        script: "policy last\n\
            event 1 under rexmit rexlen = 4 && rexdiff = 2\n\
            reg 16 1 rcv peekat 0 4",
        traffic: Traffic::Connection(&[
            Packet(Client, PSH | ACK, 101, 301, b"ABCD"),
            Packet(Client, PSH | ACK, 101, 301, b"AXCY"),
        ]),
        report: "conn 0 10.0.0.1:1000 > 10.0.0.2:80 v 3\n\
            cb 4 rcv rexmit 1\n\
            cb 4 rcv 1 16 at 0 0:41424344\n\
            end packets 5 records 1 callbacks 2 drops 0 tail 0\n",
    },
    Case {
        name: "missed bytes",
        presets: Presets::Log,
        script: "unreg 1\n\
            unreg 2\n\
            rbuf 4\n\
            event 1 under new_data next >= 8\n\
            reg 16 1 rcv peek 16",
        traffic: Traffic::Connection(&[
            Packet(Client, PSH | ACK, 101, 301, b"ABCD"),
            Packet(Client, PSH | ACK, 105, 301, b"EFGH"),
        ]),
        report: "conn 0 10.0.0.1:1000 > 10.0.0.2:80 v 5\n\
            cb 4 rcv 1 16 peek 4 4 45464748\n\
            end packets 5 records 1 callbacks 1 drops 0 tail 0\n",
    },
    Case {
        name: "on for later raises",
        presets: Presets::Log,
        script: "unreg 1\n\
            unreg 2\n\
            reg 16 pkt_in snd do on 17 on 18\n\
            reg 17 start snd off\n\
            reg 18 pkt_in rcv off",
        traffic: Traffic::Connection(&[]),
        report: "conn 0 10.0.0.1:1000 > 10.0.0.2:80 v 5\n\
            cb 0 snd pkt_in 16\n\
            cb 0 rcv pkt_in 18\n\
            cb 1 snd pkt_in 16\n\
            cb 1 rcv pkt_in 18\n\
            cb 2 snd pkt_in 16\n\
            cb 2 rcv pkt_in 18\n\
            end packets 3 records 1 callbacks 6 drops 0 tail 0\n",
    },
    Case {
        name: "on in the same phase",
        presets: Presets::Log,
        script: "unreg 1\n\
            unreg 2\n\
            reg 16 pkt_in snd do on 17\n\
            reg 17 state snd off",
        traffic: Traffic::Connection(&[]),
        report: "conn 0 10.0.0.1:1000 > 10.0.0.2:80 v 4\n\
            cb 0 snd pkt_in 16\n\
            cb 0 snd state 17\n\
            cb 1 snd pkt_in 16\n\
            cb 2 snd pkt_in 16\n\
            end packets 3 records 1 callbacks 4 drops 0 tail 0\n",
    },
    Case {
        name: "dropped before its receiver",
        presets: Presets::Log,
        script: "event 1 under pkt_in len > 0\n\
            reg 16 1 snd do drop",
        traffic: Traffic::Connection(&[Packet(Client, PSH | ACK, 101, 301, b"ABCD")]),
        report: "conn 0 10.0.0.1:1000 > 10.0.0.2:80 v 2\n\
            cb 0 snd pkt_in 1\n\
            cb 0 rcv pkt_in 2\n\
            cb 1 snd pkt_in 1\n\
            cb 1 rcv pkt_in 2\n\
            cb 2 snd pkt_in 1\n\
            cb 2 rcv pkt_in 2\n\
            cb 3 snd pkt_in 1\n\
            cb 3 snd 1 16\n\
            drop 3 reg 16\n\
            end packets 4 records 1 callbacks 8 drops 1 tail 0\n",
    },
    Case {
        name: "orphan that is dropped",
        presets: Presets::Log,
        script: "reg 16 orphan snd do drop",
        traffic: Traffic::Orphan,
        report: "orphan 0 other v 1\n\
            cb 0 snd orphan 3\n\
            cb 0 snd orphan 16\n\
            drop 0 reg 16\n\
            end packets 1 records 1 callbacks 2 drops 1 tail 0\n",
    },
];

/// What is kept of the connection, and which of its packets were dropped.
#[derive(Drop)]
struct Played {
    flow: Flow,
    notes: Notes,
    ledger: Ledger,
    drops: DropList,
}

// A connection that begins now.
fn opened(alloc: Global, table: &mut Table, lent: &InForce) -> Result<Played, AllocError>
    requires present { lent.now.version ≡ lent.now.master.now.version }
    requires answered { HasRow table.old lent.now.master.now.forest }
    requires forest { HasPresentForest (tree_at table.old) lent.now.master.now }
    ensures answered { IfOk result (λ p. HasRow table.new p.flow.forest) }
    ensures forest { IfOk result (λ p. IsForestInForce lent.now (tree_at table.new p.flow.forest)) }
{
    let forest = table.again(alloc, lent.master.forest())?;
    lent.master.tells_the_present();
    first_tree_names_the_first_list(lent, table.tree_of(&forest));
    Ok(Played {
        flow: Flow::new(alloc, lent, forest),
        notes: Notes::new(alloc, Tally::zeros()),
        ledger: Ledger::new(alloc),
        drops: DropList {
            items: Vec::new(alloc),
        },
    })
}

// Notes what becomes of a packet.
fn note(drops: &mut DropList, number: u64, verdict: Verdict) -> bool {
    match verdict {
        Verdict::Drop(reason) => drops.items.push((number, reason)).is_ok(),
        Verdict::Pass => true,
    }
}

// One packet more.
fn follow(terms: &Terms<LogApp>, table: &mut Table, played: &mut Played, packet: &Packet) -> bool
    requires answered { HasRow table.old played.old.flow.forest }
    requires forest { IsForestInForce terms.now.in_force (tree_at table.old played.old.flow.forest) }
    ensures answered { HasRow table.new played.new.flow.forest }
    ensures forest { IsForestInForce terms.now.in_force (tree_at table.new played.new.flow.forest) }
{
    let Packet(from, flags, seq, ack, payload) = *packet;
    let number = played.flow.count;
    let counts = played.ledger.counts;
    if payload.len() > 65535
        || number >= 1 << 30
        || counts.callbacks >= 1 << 60
        || counts.weight >= 1 << 60
    {
        return false;
    }
    let head = Head {
        src: 0x0a00_0001,
        dst: 0x0a00_0002,
        sport: 1000,
        dport: 80,
        seq,
        ack,
        flags,
        win: 65535,
        len: payload.len() as u32,
        ttl: 64,
    };
    let arrived = Arrived {
        number,
        from,
        head: &head,
        scale: None,
        payload,
    };
    match played.flow.step(
        terms,
        table,
        &arrived,
        &mut played.notes,
        &mut played.ledger,
    ) {
        Ok(step) => note(&mut played.drops, number, step.verdict),
        Err(_) => false,
    }
}

// These packets more.
fn follow_all(
    terms: &Terms<LogApp>,
    table: &mut Table,
    played: &mut Played,
    packets: &[Packet],
) -> bool
    requires answered { HasRow table.old played.old.flow.forest }
    requires forest { IsForestInForce terms.now.in_force (tree_at table.old played.old.flow.forest) }
    ensures answered { HasRow table.new played.new.flow.forest }
    ensures forest { IsForestInForce terms.now.in_force (tree_at table.new played.new.flow.forest) }
{
    for packet in packets {
        if !follow(terms, table, played, packet) {
            return false;
        }
    }
    true
}

// The callbacks of a packet of no connection, number 0, over the tree of one that begins.
fn follow_orphan(terms: &Terms<LogApp>, table: &Table, played: &mut Played) -> bool
    requires answered { HasRow table.now played.old.flow.forest }
    requires forest { IsForestInForce terms.now.in_force (tree_at table.now played.old.flow.forest) }
{
    let counts = played.ledger.counts;
    if counts.callbacks >= 1 << 60 || counts.weight >= 1 << 60 {
        return false;
    }
    let flow = &played.flow;
    match orphan(
        terms,
        table,
        &flow.forest,
        0,
        raised_by_orphan(Class::Other, None),
        &mut played.notes,
        &mut played.ledger,
    ) {
        Ok(verdict) => note(&mut played.drops, 0, verdict),
        Err(_) => false,
    }
}

const CONNECTION: RecordKind = RecordKind::Conn {
    client: Endpoint::V4 {
        addr: 0x0a00_0001,
        port: 1000,
    },
    server: Endpoint::V4 {
        addr: 0x0a00_0002,
        port: 80,
    },
};

// Whether the report of a record and these totals is this text.
fn is_report(alloc: Global, record: Record, totals: &Totals, report: &str) -> bool {
    let Ok(room) = vec![in alloc; 0; 512] else {
        return false;
    };
    let mut out = MemSink::new(room, Vec::new(alloc));
    let records = [record];
    is_tidy(&records)
        && write_report(alloc, &mut out, &records, totals).is_ok()
        && out.bytes() == report.as_bytes()
}

// Whether the record of what was played is told so.
fn is_told(
    alloc: Global,
    played: Played,
    kind: RecordKind,
    version: u32,
    packets: u64,
    report: &str,
) -> bool {
    let Played {
        notes,
        ledger,
        drops,
        ..
    } = played;
    let totals = Totals {
        packets,
        records: 1,
        callbacks: ledger.counts.callbacks,
        drops: drops.items.len() as u64,
        tail: 0,
    };
    let Ok(entries) = notes.entries.into_list(alloc) else {
        return false;
    };
    let record = Record {
        name: 0,
        kind,
        version,
        entries,
        drops,
        fields: FieldList {
            items: Vec::new(alloc),
        },
    };
    is_report(alloc, record, &totals, report)
}

// Whether traffic leaves this report under these terms.
fn plays(
    alloc: Global,
    terms: &Terms<LogApp>,
    table: &mut Table,
    traffic: Traffic,
    report: &str,
) -> bool
    requires present { terms.now.in_force.version ≡ terms.now.in_force.master.now.version }
    requires answered { HasRow table.old terms.now.in_force.master.now.forest }
    requires forest { HasPresentForest (tree_at table.old) terms.now.in_force.master.now }
{
    let Ok(mut played) = opened(alloc, table, &terms.in_force) else {
        return false;
    };
    let version = terms.in_force.version;
    match traffic {
        Traffic::Connection(packets) => {
            let has_followed = follow_all(terms, table, &mut played, &OPEN)
                && follow_all(terms, table, &mut played, packets);
            let count = played.flow.count;
            has_followed && is_told(alloc, played, CONNECTION, version, count, report)
        }
        Traffic::Orphan => {
            let kind = RecordKind::Orphan {
                class: Class::Other,
            };
            follow_orphan(terms, table, &mut played)
                && is_told(alloc, played, kind, version, 1, report)
        }
    }
}

// The same after a script, where the native filters are the plain functions.
fn leaves(alloc: Global, presets: Presets, script: &str, traffic: Traffic, report: &str) -> bool {
    let mut table = Table::new(alloc);
    let Some(master) = master_after(alloc, &mut table, presets, script) else {
        return false;
    };
    let terms = Terms {
        alloc,
        app: &LogApp,
        in_force: InForce {
            master: &master,
            version: master.version(),
        },
        natives: &natives(),
        keep: true,
    };
    plays(alloc, &terms, &mut table, traffic, report)
}

#[test]
fn each_leaves_its_report(rt: HostRuntime) {
    for case in CASES {
        let Case {
            name,
            presets,
            script,
            traffic,
            report,
        } = *case;
        assert!(rt;
            leaves(rt.alloc(), presets, script, traffic, report),
            "{name}"
        );
    }
}
