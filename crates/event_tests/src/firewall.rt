//! The firewall: what its rules decide, and what it makes of calls.

use app_api::{App, Call, ORPHAN, PKT_IN, Reason, Reg, Rule, Tally};
use app_firewall::{FirewallApp, decide};
use native_filters::Facts;
use native_filters::Hook::{self, Rcv, Snd};

const CLIENT: u64 = 0x0a00_0001;

const SERVER: u64 = 0x0a00_0002;

/// An address beside the net of the client.
const STRANGER: u64 = 0x0b00_0001;

/// The rule `20 allow any any any`.
const REST: Rule = Rule {
    number: 20,
    allow: true,
    src: 0,
    src_len: 0,
    dst: 0,
    dst_len: 0,
    low: 0,
    high: 65535,
};

/// The rule `10 deny 10.0.0.0/8 any 23`.
const NO_TELNET: Rule = Rule {
    number: 10,
    allow: false,
    src: 0x0a00_0000,
    src_len: 8,
    dst: 0,
    dst_len: 0,
    low: 23,
    high: 23,
};

/// The rule `1 allow any any 80`.
const WEB: Rule = Rule {
    number: 1,
    allow: true,
    src: 0,
    src_len: 0,
    dst: 0,
    dst_len: 0,
    low: 80,
    high: 80,
};

// A packet: its direction, source and destination.
type PacketRow = (u64, (u64, u64), (u64, u64));

// The facts of a packet.
fn facts_of(row: PacketRow) -> Facts {
    let (dir, (src, sport), (dst, dport)) = row;
    Facts {
        dir,
        src,
        dst,
        sport,
        dport,
        ..Facts::none()
    }
}

// A packet, what telnet's rule and that for the rest decide on it, and what the rule for the web does.
const DECIDED: &[(&str, PacketRow, (bool, u8), (bool, u8))] = &[
    (
        "telnet up",
        (0, (CLIENT, 1000), (SERVER, 23)),
        (false, 10),
        (false, 0),
    ),
    (
        "web up",
        (0, (CLIENT, 1001), (SERVER, 80)),
        (true, 20),
        (true, 1),
    ),
    (
        "telnet of a stranger",
        (0, (STRANGER, 1000), (SERVER, 23)),
        (true, 20),
        (false, 0),
    ),
    (
        "telnet down",
        (1, (SERVER, 23), (CLIENT, 1000)),
        (false, 10),
        (false, 0),
    ),
    (
        "web down",
        (1, (SERVER, 80), (CLIENT, 1000)),
        (true, 20),
        (true, 1),
    ),
    (
        "telnet down to a stranger",
        (1, (SERVER, 23), (STRANGER, 80)),
        (true, 20),
        (false, 0),
    ),
    (
        "telnet of a server outside",
        (1, (STRANGER, 23), (CLIENT, 80)),
        (false, 10),
        (false, 0),
    ),
];

// Whether rules decide so on a packet, and none of them nothing.
fn is_decided(row: PacketRow, telnet: (bool, u8), web: (bool, u8)) -> bool {
    let facts = facts_of(row);
    decide(&[NO_TELNET, REST], &facts) == telnet
        && decide(&[WEB], &facts) == web
        && decide(&[], &facts) == (false, 0)
}

#[test]
fn least_matching_number_decides_in_both_directions(rt: HostRuntime) {
    for &(name, row, telnet, web) in DECIDED {
        assert!(rt; is_decided(row, telnet, web), "{name}");
    }
}

// A net's length and address, and whether an address is within.
const NETS: &[(&str, u8, u32, u64, bool)] = &[
    ("/0, least", 0, 0xc0a8_0101, 0x0000_0000, true),
    ("/0, greatest", 0, 0xc0a8_0101, 0xffff_ffff, true),
    ("/1, first of its half", 1, 0xc0a8_0101, 0x8000_0000, true),
    ("/1, last of the other", 1, 0xc0a8_0101, 0x7fff_ffff, false),
    ("/24, first", 24, 0xc0a8_01ff, 0xc0a8_0100, true),
    ("/24, behind", 24, 0xc0a8_01ff, 0xc0a8_0200, false),
    ("/31, first", 31, 0xc0a8_0101, 0xc0a8_0100, true),
    ("/31, behind", 31, 0xc0a8_0101, 0xc0a8_0102, false),
    ("/32, the address", 32, 0xc0a8_0101, 0xc0a8_0101, true),
    ("/32, another", 32, 0xc0a8_0101, 0xc0a8_0100, false),
    ("/33, the address", 33, 0xc0a8_0101, 0xc0a8_0101, true),
    ("/255, another", 255, 0xc0a8_0101, 0xc0a8_0100, false),
];

// Whether a rule for clients of a net, and one for its servers, match an address or not.
fn is_in_net(length: u8, net: u32, address: u64, within: bool) -> bool {
    let clients = Rule {
        src: net,
        src_len: length,
        ..REST
    };
    let servers = Rule {
        dst: net,
        dst_len: length,
        ..REST
    };
    let from = facts_of((0, (address, 1000), (SERVER, 80)));
    let to = facts_of((0, (CLIENT, 1000), (address, 80)));
    decide(&[clients], &from).0 == within && decide(&[servers], &to).0 == within
}

#[test]
fn nets_of_every_length(rt: HostRuntime) {
    for &(name, length, net, address, within) in NETS {
        assert!(rt; is_in_net(length, net, address, within), "{name}");
    }
}

/// The ports 1000 to 2000.
const PORTS: Rule = Rule {
    low: 1000,
    high: 2000,
    ..REST
};

// A server's port, and whether it is in the range.
const RANGE: &[(&str, u64, bool)] = &[
    ("before the first", 999, false),
    ("first", 1000, true),
    ("last", 2000, true),
    ("behind the last", 2001, false),
];

#[test]
fn both_ends_of_a_port_range(rt: HostRuntime) {
    for &(name, port, within) in RANGE {
        let facts = facts_of((0, (CLIENT, 1500), (SERVER, port)));
        assert!(rt; decide(&[PORTS], &facts).0 == within, "{name}");
    }
}

// The call of a preset with these facts.
fn call(reg: u8, hook: Hook, event: u16, facts: Facts) -> Call {
    Call {
        reg,
        hook,
        event,
        facts,
        got: 0,
    }
}

const TELNET: PacketRow = (0, (CLIENT, 1000), (SERVER, 23));

const TO_WEB: PacketRow = (0, (CLIENT, 1001), (SERVER, 80));

// Calls one after the other: a registration, its hook and packet, the rule that drops it, and the fields after it.
const COUNTED: &[(&str, u8, Hook, PacketRow, Option<Reason>, [u64; 3])] = &[
    ("telnet", 1, Snd, TELNET, Some(Reason::Rule(10)), [0, 1, 10]),
    (
        "telnet again",
        1,
        Snd,
        TELNET,
        Some(Reason::Rule(10)),
        [0, 2, 10],
    ),
    (
        "registration of a script",
        16,
        Snd,
        TELNET,
        None,
        [0, 2, 10],
    ),
    ("web", 1, Snd, TO_WEB, None, [1, 2, 20]),
    ("web, as it arrives", 2, Rcv, TO_WEB, None, [1, 2, 20]),
];

// Whether a tally has these fields, and no others.
fn has_fields(tally: &Tally, fields: [u64; 3]) -> bool {
    let [passed, dropped, rule] = fields;
    FirewallApp.field(0, tally) == Some(("passed", passed))
        && FirewallApp.field(1, tally) == Some(("dropped", dropped))
        && FirewallApp.field(2, tally) == Some(("rule", rule))
        && FirewallApp.field(3, tally).is_none()
}

#[test]
fn packets_of_a_connection_are_counted(rt: HostRuntime) {
    let mut tally = FirewallApp.fresh();
    for &(name, reg, hook, row, drop, fields) in COUNTED {
        let call = call(reg, hook, PKT_IN, facts_of(row));
        let reaction = FirewallApp.react(&mut tally, &call, &[NO_TELNET, REST]);
        let is_so = reaction.drop == drop && reaction.changes.as_slice().is_empty();
        assert!(rt; is_so && has_fields(&tally, fields), "{name}");
    }
}

// A class of orphans, and why these are dropped.
const ORPHANS: &[(&str, u64, Option<Reason>)] = &[
    ("tcp", 0, Some(Reason::Rule(0))),
    ("other", 1, None),
    ("fragment", 2, Some(Reason::Rule(0))),
    ("cut", 3, Some(Reason::Rule(0))),
    ("bad", 4, Some(Reason::Rule(0))),
];

// Whether an orphan of a class is dropped so, and not counted.
fn is_judged(class: u64, drop: Option<Reason>) -> bool {
    let facts = Facts {
        class,
        ..Facts::none()
    };
    let mut tally = FirewallApp.fresh();
    let reaction = FirewallApp.react(&mut tally, &call(3, Snd, ORPHAN, facts), &[REST]);
    reaction.drop == drop && tally == FirewallApp.fresh()
}

#[test]
fn orphans_but_those_of_class_other_are_dropped(rt: HostRuntime) {
    for &(name, class, drop) in ORPHANS {
        assert!(rt; is_judged(class, drop), "{name}");
    }
}

// Numbers of presets, with the event and hook of those that there are.
const PRESETS: &[(&str, u8, Option<(u16, Hook)>)] = &[
    ("none at 0", 0, None),
    ("packets sent", 1, Some((PKT_IN, Snd))),
    ("packets that arrive", 2, Some((PKT_IN, Rcv))),
    ("orphans", 3, Some((ORPHAN, Snd))),
    ("none at 4", 4, None),
];

fn has_preset(number: u8, wanted: Option<(u16, Hook)>) -> bool {
    match wanted {
        Some((event, hook)) => {
            FirewallApp.preset(number) == Some(Reg::preset(number, event, hook, true))
        }
        None => FirewallApp.preset(number).is_none(),
    }
}

#[test]
fn presets_are_on_without_peeks(rt: HostRuntime) {
    for &(name, number, wanted) in PRESETS {
        assert!(rt; has_preset(number, wanted), "{name}");
    }
}
