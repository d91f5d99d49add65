//! Each read, write and fetch that fails in turn: what had left by then.

use crate::runs::{Asked, Finished, NEVER, ended_so, run, run_gathering, sink, source};
use crate::traffic::{
    EXCHANGE, HANDSHAKE, LITTLE_WITH_TAIL, TWO_CLIENTS, Traffic, WEB_REQUEST, capture_of,
};
use mos_run::OpenGate;
use std::process::Abort;
use std::sync::Wait;
use std::thread::Threads;

const HANDSHAKE_REPORT: &str = "conn 0 10.0.0.1:1000 > 10.0.0.2:80 v 0\n\
    cb 0 snd pkt_in 1\n\
    cb 0 rcv pkt_in 2\n\
    cb 1 snd pkt_in 1\n\
    cb 1 rcv pkt_in 2\n\
    cb 2 snd pkt_in 1\n\
    cb 2 rcv pkt_in 2\n\
    end packets 3 records 1 callbacks 6 drops 0 tail 0\n";

pub const ACCOUNTS: &str = "conn 0 10.0.0.1:1000 > 10.0.0.2:80 v 0\n\
    cb 0 snd pkt_in 1\n\
    cb 0 snd state 3\n\
    cb 0 rcv state 4\n\
    cb 1 snd pkt_in 1\n\
    cb 1 rcv state 4\n\
    cb 2 snd pkt_in 1\n\
    cb 2 rcv state 4\n\
    cb 3 snd pkt_in 1\n\
    cb 3 rcv new_data 2\n\
    cb 4 snd pkt_in 1\n\
    cb 5 snd pkt_in 1\n\
    cb 5 rcv new_data 2\n\
    cb 6 snd pkt_in 1\n\
    cb 7 snd pkt_in 1\n\
    cb 7 snd state 3\n\
    cb 7 rcv state 4\n\
    cb 8 snd pkt_in 1\n\
    cb 8 snd state 3\n\
    cb 8 rcv state 4\n\
    cb 9 snd pkt_in 1\n\
    cb 9 rcv state 4\n\
    cb 9 rcv end 5\n\
    field up_pkts 5\n\
    field up_bytes 18\n\
    field up_new 18\n\
    field down_pkts 5\n\
    field down_bytes 2920\n\
    field down_new 2920\n\
    field client_state 0\n\
    field server_state 10\n\
    end packets 10 records 1 callbacks 22 drops 0 tail 0\n";

const DROPS: &str = "event 1 under pkt_in len > 0\nreg 16 1 snd do drop\n";

const DROPPED: &str = "conn 0 10.0.0.1:1000 > 10.0.0.2:80 v 2\n\
    cb 0 snd pkt_in 1\n\
    cb 0 rcv pkt_in 2\n\
    cb 1 snd pkt_in 1\n\
    cb 1 rcv pkt_in 2\n\
    cb 2 snd pkt_in 1\n\
    cb 2 rcv pkt_in 2\n\
    cb 3 snd pkt_in 1\n\
    cb 3 snd 1 16\n\
    drop 3 reg 16\n\
    end packets 4 records 1 callbacks 8 drops 1 tail 0\n";

const MADE: &str =
    "made 1 packets 10 bytes 1088\nend packets 10 records 1 callbacks 20 drops 0 tail 0\n";

// What fails: calls of one kind, each in turn.
#[derive(Clone, Copy, PartialEq)]
enum Call {
    Read,
    Write,
    Fetch,
}

// What a run writes where no call fails: this text, or so much of its capture.
#[derive(Clone, Copy)]
enum Whole {
    Text(&'static str),
    Front(usize),
}

// A run, the calls that fail, and how many bytes of the whole have left where each of them does. One call more is none that is
// made.
#[derive(Clone, Copy)]
struct Failing {
    words: &'static str,
    traffic: Traffic,
    call: Call,
    left: &'static [usize],
    whole: Whole,
}

// A report is written by a call for each line, of which half is taken where it fails; a forwarded capture by one for the header
// and two for each packet. A packet is read by two calls, and so is the header, whose first bytes tell the form; one more finds the end.
const FAILING: &[(&str, Failing)] = &[
    (
        "reads of a handshake",
        Failing {
            words: "",
            traffic: HANDSHAKE,
            call: Call::Read,
            left: &[0; 9],
            whole: Whole::Text(HANDSHAKE_REPORT),
        },
    ),
    (
        "writes of a handshake's report",
        Failing {
            words: "",
            traffic: HANDSHAKE,
            call: Call::Write,
            left: &[19, 48, 66, 84, 102, 120, 138, 172],
            whole: Whole::Text(HANDSHAKE_REPORT),
        },
    ),
    (
        "a fetch",
        Failing {
            words: "--script script",
            traffic: EXCHANGE,
            call: Call::Fetch,
            left: &[0],
            whole: Whole::Text(DROPPED),
        },
    ),
    (
        "reads of a web request",
        Failing {
            words: "--app acct",
            traffic: WEB_REQUEST,
            call: Call::Read,
            left: &[0; 23],
            whole: Whole::Text(ACCOUNTS),
        },
    ),
    (
        "reads of a web request by three workers",
        Failing {
            words: "--app acct --workers 3",
            traffic: WEB_REQUEST,
            call: Call::Read,
            left: &[0; 23],
            whole: Whole::Text(ACCOUNTS),
        },
    ),
    (
        "reads of a web request that is forwarded",
        Failing {
            words: "--app acct --emit forward",
            traffic: WEB_REQUEST,
            call: Call::Read,
            left: WEB_REQUEST_READ,
            whole: Whole::Front(3710),
        },
    ),
    (
        "writes of accounts",
        Failing {
            words: "--app acct",
            traffic: WEB_REQUEST,
            call: Call::Write,
            left: &[
                19, 48, 65, 82, 100, 117, 135, 152, 170, 189, 208, 226, 245, 264, 282, 299, 316,
                334, 351, 368, 386, 403, 419, 435, 452, 469, 486, 506, 527, 547, 569, 606,
            ],
            whole: Whole::Text(ACCOUNTS),
        },
    ),
    (
        "writes of a forwarded capture with a tail",
        Failing {
            words: "--emit forward",
            traffic: LITTLE_WITH_TAIL,
            call: Call::Write,
            left: &[12, 32, 67, 102, 137, 172, 207, 242, 279],
            whole: Whole::Front(308),
        },
    ),
    (
        "reads of two clients",
        Failing {
            words: "--emit forward",
            traffic: TWO_CLIENTS,
            call: Call::Read,
            left: TWO_CLIENTS_READ,
            whole: Whole::Front(448),
        },
    ),
    (
        "reads of two clients by two workers",
        Failing {
            words: "--emit forward --workers 2",
            traffic: TWO_CLIENTS,
            call: Call::Read,
            left: TWO_CLIENTS_READ,
            whole: Whole::Front(448),
        },
    ),
    (
        "writes of two clients",
        Failing {
            words: "--emit forward",
            traffic: TWO_CLIENTS,
            call: Call::Write,
            left: TWO_CLIENTS_WRITTEN,
            whole: Whole::Front(448),
        },
    ),
    (
        "writes of two clients by two workers",
        Failing {
            words: "--emit forward --workers 2",
            traffic: TWO_CLIENTS,
            call: Call::Write,
            left: TWO_CLIENTS_WRITTEN,
            whole: Whole::Front(448),
        },
    ),
];

const WEB_REQUEST_READ: &[usize] = &[
    0, 0, 24, 24, 100, 100, 176, 176, 252, 252, 340, 340, 416, 416, 3406, 3406, 3482, 3482, 3558,
    3558, 3634, 3634, 3710,
];

const TWO_CLIENTS_READ: &[usize] = &[
    0, 0, 24, 24, 94, 94, 164, 164, 234, 234, 304, 304, 374, 374, 448,
];

const TWO_CLIENTS_WRITTEN: &[usize] = &[
    12, 32, 67, 102, 137, 172, 207, 242, 277, 312, 347, 382, 419,
];

// What is written is handed on by one call; so is a forwarded capture, since all of it is at hand. What was gathered leaves too where
// a read fails.
const GATHERED: &[(&str, Failing)] = &[
    (
        "a report",
        Failing {
            words: "",
            traffic: HANDSHAKE,
            call: Call::Write,
            left: &[99],
            whole: Whole::Text(HANDSHAKE_REPORT),
        },
    ),
    (
        "a forwarded capture",
        Failing {
            words: "--emit forward",
            traffic: HANDSHAKE,
            call: Call::Write,
            left: &[117],
            whole: Whole::Front(234),
        },
    ),
    (
        "a summary",
        Failing {
            words: "--make 1",
            traffic: HANDSHAKE,
            call: Call::Write,
            left: &[41],
            whole: Whole::Text(MADE),
        },
    ),
    (
        "reads of a web request that is forwarded",
        Failing {
            words: "--app acct --emit forward",
            traffic: WEB_REQUEST,
            call: Call::Read,
            left: WEB_REQUEST_READ,
            whole: Whole::Front(3710),
        },
    ),
];

// The number of the call that fails, where calls of this kind do.
fn fails(failing: &Failing, kind: Call, number: u64) -> u64 {
    if failing.call == kind { number } else { NEVER }
}

fn asked_with(failing: &Failing, number: u64) -> Asked<'static> {
    Asked {
        words: failing.words,
        script: DROPS,
        fetch: fails(failing, Call::Fetch, number),
    }
}

// Whether a run came to what it has to where the call of this number fails.
fn is_left(failing: &Failing, number: usize, run: &Finished, out: &[u8], capture: &[u8]) -> bool {
    let whole = match failing.whole {
        Whole::Text(text) => text.as_bytes(),
        Whole::Front(len) => capture.get(..len).unwrap_or(&[]),
    };
    match (failing.left.get(number), failing.call) {
        (Some(left), Call::Write) => {
            ended_so(run, 5, "mos: write fault\n") && whole.get(..*left) == Some(out)
        }
        (Some(left), Call::Read | Call::Fetch) => {
            ended_so(run, 4, "mos: read fault\n") && whole.get(..*left) == Some(out)
        }
        (None, _) => ended_so(run, 0, "") && out == whole,
    }
}

fn leaves<R: AllocGlobal + Abort + Threads + Wait + Sync + Send + Copy + Drop + 'static>(
    rt: &R,
    failing: &Failing,
    number: usize,
) -> bool {
    let capture = capture_of(rt, &failing.traffic);
    let fault = number as u64;
    let mut source = source(rt, &capture, fails(failing, Call::Read, fault));
    let mut out = sink(rt, 4096, fails(failing, Call::Write, fault));
    let run = run(
        rt,
        asked_with(failing, fault),
        &mut source,
        &mut out,
        &OpenGate,
    );
    is_left(failing, number, &run, out.bytes(), &capture)
}

#[test]
fn each_call_that_fails(rt: HostRuntime) {
    for (name, failing) in FAILING {
        for number in 0..=failing.left.len() {
            assert!(rt; leaves(&rt, failing, number), "{name}, {number}");
        }
    }
}

fn hands_on<R: AllocGlobal + Abort + Threads + Wait + Sync + Send + Copy + Drop + 'static>(
    rt: &R,
    failing: &Failing,
    number: usize,
) -> bool {
    let capture = capture_of(rt, &failing.traffic);
    let fault = number as u64;
    let mut source = source(rt, &capture, fails(failing, Call::Read, fault));
    let out = sink(rt, 4096, fails(failing, Call::Write, fault));
    let (run, out) = run_gathering(rt, asked_with(failing, fault), &mut source, out);
    is_left(failing, number, &run, out.bytes(), &capture)
}

#[test]
fn each_call_of_a_gathered_run_that_fails(rt: HostRuntime) {
    for (name, failing) in GATHERED {
        for number in 0..=failing.left.len() {
            assert!(rt; hands_on(&rt, failing, number), "{name}, {number}");
        }
    }
}
