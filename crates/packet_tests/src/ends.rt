//! Segments that open, close and reset a connection, by the states that they leave its two ends in.

use Side::{Client, Server};
use State::*;
use Step::{Receive, Send};
use tcp_emulation::{Change, End, Ends, SegFacts, Side, State, is_over, recv_step, send_step};

const PLAIN: SegFacts = SegFacts {
    syn: false,
    ack: false,
    fin: false,
    rst: false,
    acks_syn: false,
    acks_fin: false,
    in_window: true,
    fin_reached: false,
};

const SYN: SegFacts = SegFacts { syn: true, ..PLAIN };

const ACK: SegFacts = SegFacts {
    ack: true,
    acks_syn: true,
    ..PLAIN
};

const SYN_ACK: SegFacts = SegFacts { syn: true, ..ACK };

const FIN: SegFacts = SegFacts {
    fin: true,
    fin_reached: true,
    ..ACK
};

const FIN_ACK: SegFacts = SegFacts {
    acks_fin: true,
    ..FIN
};

const ACK_OF_FIN: SegFacts = SegFacts {
    acks_fin: true,
    ..ACK
};

const LAST_ACK: SegFacts = SegFacts {
    fin_reached: true,
    ..ACK_OF_FIN
};

const RST: SegFacts = SegFacts { rst: true, ..PLAIN };

const LATE_RST: SegFacts = SegFacts {
    in_window: false,
    ..RST
};

const SYN_RST: SegFacts = SegFacts { syn: true, ..RST };

#[derive(Clone, Copy)]
enum Step {
    Send(Side, SegFacts),
    Receive(Side, SegFacts),
}

const HANDSHAKE: [Step; 6] = [
    Send(Client, SYN),
    Receive(Server, SYN),
    Send(Server, SYN_ACK),
    Receive(Client, SYN_ACK),
    Send(Client, ACK),
    Receive(Server, ACK),
];

// The server's SYN without ACK moves nothing: it is in LISTEN or SYN_RCVD.
const BOTH_OPEN: [Step; 8] = [
    Send(Client, SYN),
    Receive(Server, SYN),
    Send(Server, SYN),
    Receive(Client, SYN),
    Send(Client, SYN_ACK),
    Receive(Server, SYN_ACK),
    Send(Server, SYN_ACK),
    Receive(Client, SYN_ACK),
];

// A SYN that was sent with RST is this end's first SYN.
const SYN_AFTER_RESET: [Step; 2] = [Send(Client, SYN_RST), Send(Client, SYN)];

const CLIENT_CLOSES: [Step; 8] = [
    Send(Client, FIN),
    Receive(Server, FIN),
    Send(Server, ACK_OF_FIN),
    Receive(Client, ACK_OF_FIN),
    Send(Server, FIN_ACK),
    Receive(Client, FIN_ACK),
    Send(Client, LAST_ACK),
    Receive(Server, LAST_ACK),
];

const BOTH_CLOSE: [Step; 8] = [
    Send(Client, FIN),
    Send(Server, FIN),
    Receive(Server, FIN),
    Receive(Client, FIN),
    Send(Client, LAST_ACK),
    Receive(Server, LAST_ACK),
    Send(Server, LAST_ACK),
    Receive(Client, LAST_ACK),
];

// The states and whether the ends are over, after some of the steps.
type After = (State, State, bool);

const OPENED: &[(&str, &[Step], usize, After)] = &[
    (
        "handshake",
        &HANDSHAKE,
        6,
        (Established, Established, false),
    ),
    (
        "first SYN of a handshake",
        &HANDSHAKE,
        2,
        (SynSent, SynRcvd, false),
    ),
    (
        "both open at once",
        &BOTH_OPEN,
        8,
        (Established, Established, false),
    ),
    (
        "SYN after a SYN with RST",
        &SYN_AFTER_RESET,
        2,
        (Closed, Listen, false),
    ),
];

const CLOSED: &[(&str, &[Step], usize, After)] = &[
    (
        "FIN of the client",
        &CLIENT_CLOSES,
        2,
        (FinWait1, CloseWait, false),
    ),
    (
        "its acknowledgement",
        &CLIENT_CLOSES,
        4,
        (FinWait2, CloseWait, false),
    ),
    (
        "FIN of the server",
        &CLIENT_CLOSES,
        6,
        (TimeWait, LastAck, false),
    ),
    ("client closes", &CLIENT_CLOSES, 8, (TimeWait, Closed, true)),
    ("FINs that cross", &BOTH_CLOSE, 4, (Closing, Closing, false)),
    (
        "both close at once",
        &BOTH_CLOSE,
        8,
        (TimeWait, TimeWait, true),
    ),
];

const STATES: &[(&str, u64, State)] = &[
    ("CLOSED", 0, Closed),
    ("LISTEN", 1, Listen),
    ("SYN_SENT", 2, SynSent),
    ("SYN_RCVD", 3, SynRcvd),
    ("ESTABLISHED", 4, Established),
    ("FIN_WAIT_1", 5, FinWait1),
    ("FIN_WAIT_2", 6, FinWait2),
    ("CLOSE_WAIT", 7, CloseWait),
    ("CLOSING", 8, Closing),
    ("LAST_ACK", 9, LastAck),
    ("TIME_WAIT", 10, TimeWait),
];

fn ends_at(client: State, server: State) -> Ends {
    Ends {
        client: End {
            state: client,
            has_sent_syn: true,
        },
        server: End {
            state: server,
            has_sent_syn: true,
        },
    }
}

fn take(ends: &mut Ends, step: Step) -> Change {
    match step {
        Send(side, facts) => send_step(ends, side, &facts),
        Receive(side, facts) => recv_step(ends, side, &facts),
    }
}

fn after(mut ends: Ends, steps: &[Step], count: usize) -> After {
    for step in steps.iter().take(count) {
        let _ = take(&mut ends, *step);
    }
    (ends.state(Client), ends.state(Server), is_over(&ends))
}

#[test]
fn opens_and_closes(rt: HostRuntime) {
    for (ends, walks) in [
        (Ends::new(), OPENED),
        (ends_at(Established, Established), CLOSED),
    ] {
        for &(name, steps, count, wanted) in walks {
            assert!(rt; after(ends, steps, count) == wanted, "{name}");
        }
    }
}

// One phase takes two rules: the FIN is acknowledged and the peer's is reached.
#[test]
fn one_phase_takes_two_rules(rt: HostRuntime) {
    let mut ends = ends_at(FinWait1, LastAck);
    let both = take(&mut ends, Receive(Client, FIN_ACK));
    assert!(rt; (both.old.number(), both.new.number()) == (5, 10));
}

// An RST closes its sender, and its receiver where it is in the window.
fn is_reset(state: State) -> bool {
    let ends = ends_at(state, Established);
    after(ends, &[Send(Client, LATE_RST)], 1) == (Closed, Established, false)
        && after(ends, &[Receive(Client, RST)], 1) == (Closed, Established, false)
        && after(ends, &[Receive(Client, LATE_RST)], 1) == (state, Established, false)
}

#[test]
fn resets(rt: HostRuntime) {
    for &(name, number, state) in STATES {
        assert!(rt; state.number() == number && is_reset(state), "{name}");
    }
}

#[test]
fn each_end_has_a_peer(rt: HostRuntime) {
    assert!(rt; Client.other() == Server && Server.other() == Client);
}
