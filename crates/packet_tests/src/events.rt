//! Which events a packet raises at its sender and at its receiver, or the silence after it, and their facts.

use Side::{Client, Server};
use State::{Closed, Established, Listen, SynRcvd, SynSent};
use app_api::{END, ERROR, NEW_DATA, ORPHAN, PKT_IN, REXMIT, START, STATE};
use builtin_events::{
    Raise, RaiseList, Raised, orphan_raise, phase_r, phase_s, raised_at_receiver, raised_at_sender,
    raised_by_orphan, raised_by_silence,
};
use flow_socket::{Got, Sent};
use flow_table::Endpoint;
use native_filters::{Facts, Hook};
use packet_views::{Class, Head};
use reassembly::Placed;
use tcp_emulation::{Change, Side, State};

const NOTHING: Placed = Placed {
    new: 0,
    old: 0,
    differ: 0,
    over: 0,
};

const QUIET: Got = Got {
    change: Change {
        old: Established,
        new: Established,
    },
    placed: NOTHING,
    fault: 0,
    rose: false,
    next: 8,
    over: false,
};

// A packet of the handshake's client, port 1000 to port 80.
const HEAD: Head = Head {
    src: 0x0a00_0001,
    dst: 0x0a00_0002,
    sport: 1000,
    dport: 80,
    seq: 101,
    ack: 301,
    flags: 0x18,
    win: 0xffff,
    len: 4,
    ttl: 64,
};

const SYN: Head = Head {
    seq: 100,
    flags: 0x02,
    len: 0,
    ..HEAD
};

const ORPHANED: Head = Head {
    flags: 0x10,
    len: 0,
    ..HEAD
};

fn has_raised(raises: &RaiseList, hook: Hook, events: &[u16]) -> bool {
    let raises = raises.as_slice();
    if raises.len() != events.len() {
        return false;
    }
    for i in 0..events.len() {
        if raises[i].hook != hook || raises[i].event != events[i] {
            return false;
        }
    }
    true
}

// The sender, the packet's place in its connection, and the sender's state before and after.
const SENT: &[(&str, Side, u64, State, State, &[u16])] = &[
    ("SYN", Client, 0, Closed, SynSent, &[START, PKT_IN, STATE]),
    // The server's state changed where it received the SYN.
    ("SYN and ACK", Server, 1, SynRcvd, SynRcvd, &[PKT_IN]),
    ("ACK", Client, 2, Established, Established, &[PKT_IN]),
    ("RST", Client, 3, Established, Closed, &[PKT_IN, STATE]),
];

#[test]
fn raises_at_the_sender(rt: HostRuntime) {
    for &(name, from, nth, old, new, events) in SENT {
        let sent = Sent {
            change: Change { old, new },
            next: 0,
        };
        let raises = phase_s(&SYN, from, nth, nth == 0, &sent);
        assert!(rt; has_raised(&raises, Hook::Snd, events), "{name}");
    }
}

// The four bytes came again, and two of them differ.
const CAME_AGAIN: Got = Got {
    placed: Placed {
        old: 4,
        differ: 2,
        ..NOTHING
    },
    ..QUIET
};

// Four bytes are new and let `next` rise.
const CAME_NEXT: Got = Got {
    placed: Placed { new: 4, ..NOTHING },
    rose: true,
    ..QUIET
};

const RECEIVED: &[(&str, Got, &[u16])] = &[
    (
        "SYN",
        Got {
            change: Change {
                old: Listen,
                new: SynRcvd,
            },
            ..QUIET
        },
        &[PKT_IN, STATE],
    ),
    (
        "SYN and ACK",
        Got {
            change: Change {
                old: SynSent,
                new: Established,
            },
            ..QUIET
        },
        &[PKT_IN, STATE],
    ),
    (
        "ACK",
        Got {
            change: Change {
                old: SynRcvd,
                new: Established,
            },
            ..QUIET
        },
        &[PKT_IN, STATE],
    ),
    ("bytes again", CAME_AGAIN, &[PKT_IN, REXMIT]),
    ("the next bytes", CAME_NEXT, &[PKT_IN, NEW_DATA]),
    (
        "bytes behind a hole",
        Got {
            rose: false,
            ..CAME_NEXT
        },
        &[PKT_IN],
    ),
    (
        "bytes past the window",
        Got {
            placed: Placed {
                new: 4,
                over: 4,
                ..NOTHING
            },
            fault: 1,
            ..CAME_NEXT
        },
        &[PKT_IN, NEW_DATA, ERROR],
    ),
    (
        "RST, which ends the connection",
        Got {
            change: Change {
                old: Established,
                new: Closed,
            },
            over: true,
            ..QUIET
        },
        &[PKT_IN, STATE, END],
    ),
];

#[test]
fn raises_at_the_receiver(rt: HostRuntime) {
    let head = Head { len: 8, ..HEAD };
    for &(name, got, events) in RECEIVED {
        let raises = phase_r(&head, Client, 3, &got);
        assert!(rt; has_raised(&raises, Hook::Rcv, events), "{name}");
    }
}

const NONE: Facts = Facts {
    dir: 0,
    nth: 0,
    src: 0,
    dst: 0,
    sport: 0,
    dport: 0,
    seq: 0,
    ack: 0,
    flags: 0,
    win: 0,
    len: 0,
    ttl: 0,
    old: 0,
    new: 0,
    fresh: 0,
    rexlen: 0,
    rexdiff: 0,
    fault: 0,
    next: 0,
    class: 0,
};

// What the headers of the packet tell.
const HEADER: Facts = Facts {
    src: 0x0a00_0001,
    dst: 0x0a00_0002,
    sport: 1000,
    dport: 80,
    seq: 101,
    ack: 301,
    flags: 0x18,
    win: 0xffff,
    len: 4,
    ttl: 64,
    ..NONE
};

// The packet's facts as the fifth of its connection, sent by the server, where its bytes came again.
const AGAIN: Facts = Facts {
    dir: 1,
    nth: 4,
    old: 4,
    new: 4,
    rexlen: 4,
    rexdiff: 2,
    next: 8,
    ..HEADER
};

#[test]
fn facts_of_a_retransmission(rt: HostRuntime) {
    let pkt_in = Raise {
        hook: Hook::Rcv,
        event: PKT_IN,
        facts: AGAIN,
    };
    let rexmit = Raise {
        event: REXMIT,
        ..pkt_in
    };
    let raises = phase_r(&HEAD, Server, 4, &CAME_AGAIN);
    assert!(rt; raises.as_slice() == [pkt_in, rexmit].as_slice());
}

// Whether these events are raised at one side.
fn has_events(raised: &Raised, hook: Hook, events: &[u16]) -> bool {
    raised.hook == hook && raised.events.as_slice() == events
}

#[test]
fn facts_are_kept_once(rt: HostRuntime) {
    let first = Sent {
        change: Change {
            old: Closed,
            new: SynSent,
        },
        next: 0,
    };
    let raised = raised_at_sender(&SYN, Client, 0, true, &first);
    let Facts {
        flags,
        old,
        new,
        ..
    } = raised.facts;
    assert!(rt;
        has_events(&raised, Hook::Snd, &[256, 257, 261]) && (flags, old, new) == (0x02, 0, 2),
        "sender"
    );
    let raised = raised_at_receiver(&HEAD, Server, 4, &CAME_AGAIN);
    assert!(rt;
        has_events(&raised, Hook::Rcv, &[257, 258]) && raised.facts.rexlen == 4,
        "receiver"
    );
    let raised = raised_by_orphan(Class::Cut, None);
    assert!(rt;
        has_events(&raised, Hook::Snd, &[263]) && raised.facts.class == 3,
        "orphan"
    );
}

// Both endpoints of a connection, the number of its packets, and the facts of its silence.
const SILENCES: &[(&str, Endpoint, Endpoint, u64, Facts)] = &[
    (
        "over IPv4",
        Endpoint::V4 {
            addr: 0x0a00_0001,
            port: 1000,
        },
        Endpoint::V4 {
            addr: 0x0a00_0002,
            port: 80,
        },
        3,
        Facts {
            nth: 3,
            src: 0x0a00_0001,
            dst: 0x0a00_0002,
            sport: 1000,
            dport: 80,
            ..NONE
        },
    ),
    (
        "over IPv6",
        Endpoint::V6 {
            addr: 0x2001_0db8_0000_0000_0000_0000_0000_0001,
            port: 1000,
        },
        Endpoint::V6 {
            addr: 0x2001_0db8_0000_0000_0000_0000_0000_0002,
            port: 80,
        },
        u64::MAX,
        Facts {
            nth: u64::MAX,
            sport: 1000,
            dport: 80,
            ..NONE
        },
    ),
];

#[test]
fn a_connection_that_ended_by_idleness(rt: HostRuntime) {
    for &(name, client, server, members, facts) in SILENCES {
        let raised = raised_by_silence(client, server, members);
        assert!(rt;
            has_events(&raised, Hook::Rcv, &[264]) && raised.facts == facts,
            "{name}"
        );
    }
}

const ORPHANS: &[(&str, Class, Facts)] = &[
    (
        "tcp",
        Class::Tcp,
        Facts {
            flags: 0x10,
            len: 0,
            ..HEADER
        },
    ),
    ("other", Class::Other, Facts { class: 1, ..NONE }),
    ("fragment", Class::Fragment, Facts { class: 2, ..NONE }),
    ("cut", Class::Cut, Facts { class: 3, ..NONE }),
    ("bad", Class::Bad, Facts { class: 4, ..NONE }),
];

#[test]
fn orphan_of_each_class(rt: HostRuntime) {
    for &(name, class, facts) in ORPHANS {
        let raises = orphan_raise(class, Some(&ORPHANED));
        let orphan = Raise {
            hook: Hook::Snd,
            event: ORPHAN,
            facts,
        };
        assert!(rt; raises.as_slice() == [orphan].as_slice(), "{name}");
    }
}
