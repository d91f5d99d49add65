//! What no clause says: that the threads of a run go on side by side. A gate holds each until the others have come as far; where
//! one ran after another, it would wait in vain.

use crate::runs::{Asked, NEVER, in_words, run, sink, source};
use crate::traffic::{OPENINGS_OF_FOUR_LANES, OPENINGS_OF_TWO_LANES, Traffic, capture_of};
use mos_run::Gate;
use std::process::Abort;
use std::sync::Wait;
use std::sync::atomic::{AtomicBool, AtomicU64, Ordering};
use std::thread::{self, Threads};

// How often a thread looks for another one before it notes that this one didn't come.
const TURNS: u64 = 10_000_000;

fn has_come(flag: &AtomicBool) -> bool {
    for _ in 0..TURNS {
        if flag.load(Ordering::SeqCst) {
            return true;
        }
        thread::yield_now();
    }
    false
}

// Whether a run under this gate writes an output that begins so.
fn begins<
    R: AllocGlobal + Abort + Threads + Wait + Sync + Send + Copy + Drop + 'static,
    G: Gate + Sync,
>(rt: &R, asked: Asked<'_>, traffic: &Traffic, gate: &G, text: &str) -> bool {
    let mut source = source(rt, &capture_of(rt, traffic), NEVER);
    let mut out = sink(rt, 4096, NEVER);
    let run = run(rt, asked, &mut source, &mut out, gate);
    run.ended.status == 0 && out.bytes().starts_with(text.as_bytes())
}

// Holds the first packet until the command was told of and the other worker is at the last packet, and that one until the
// first worker has come to its packet.
#[derive(Drop)]
struct Meeting {
    at_first: AtomicBool,
    at_last: AtomicBool,
    told: AtomicBool,
    missed: AtomicBool,
}

impl Gate for Meeting {
    fn pause(&self, _lane: usize, index: u64) {
        if index == 0 {
            self.at_first.store(true, Ordering::SeqCst);
            if !has_come(&self.told) || !has_come(&self.at_last) {
                self.missed.store(true, Ordering::SeqCst);
            }
        }
        if index == 2 {
            self.at_last.store(true, Ordering::SeqCst);
            if !has_come(&self.at_first) {
                self.missed.store(true, Ordering::SeqCst);
            }
        }
    }

    fn published(&self, _count: usize) {
        self.told.store(true, Ordering::SeqCst);
    }
}

#[test]
fn two_workers_and_a_command_meet(rt: HostRuntime) {
    let gate = Meeting {
        at_first: AtomicBool::new(false),
        at_last: AtomicBool::new(false),
        told: AtomicBool::new(false),
        missed: AtomicBool::new(false),
    };
    let asked = Asked {
        words: "--script script --workers 2",
        script: "live reg 16 start snd\n",
        fetch: NEVER,
    };
    let text = "conn 0 10.0.0.1:1001 > 10.0.0.2:80 v 1\ncb 0 snd start 16\n";
    let is_written = begins(&rt, asked, &OPENINGS_OF_TWO_LANES, &gate, text);
    let has_missed = gate.missed.load(Ordering::SeqCst);
    assert!(rt;
        is_written && !has_missed,
        "two workers and a command: {is_written}, {has_missed}"
    );
}

// Holds each packet until four have come.
#[derive(Drop)]
struct Gathering {
    come: AtomicU64,
    missed: AtomicBool,
}

impl Gate for Gathering {
    fn pause(&self, _lane: usize, _index: u64) {
        self.come.fetch_add(1, Ordering::SeqCst);
        for _ in 0..TURNS {
            if self.come.load(Ordering::SeqCst) >= 4 {
                return;
            }
            thread::yield_now();
        }
        self.missed.store(true, Ordering::SeqCst);
    }

    fn published(&self, _count: usize) {}
}

// The whole report.
const FOUR: &str = "conn 0 10.0.0.1:1001 > 10.0.0.2:80 v 0\n\
    cb 0 snd pkt_in 1\n\
    cb 0 rcv pkt_in 2\n\
    conn 1 10.0.0.1:1004 > 10.0.0.2:80 v 0\n\
    cb 1 snd pkt_in 1\n\
    cb 1 rcv pkt_in 2\n\
    conn 2 10.0.0.1:1005 > 10.0.0.2:80 v 0\n\
    cb 2 snd pkt_in 1\n\
    cb 2 rcv pkt_in 2\n\
    conn 3 10.0.0.1:1000 > 10.0.0.2:80 v 0\n\
    cb 3 snd pkt_in 1\n\
    cb 3 rcv pkt_in 2\n\
    end packets 4 records 4 callbacks 8 drops 0 tail 0\n";

#[test]
fn four_workers_meet(rt: HostRuntime) {
    let gate = Gathering {
        come: AtomicU64::new(0),
        missed: AtomicBool::new(false),
    };
    let is_written = begins(
        &rt,
        in_words("--workers 4"),
        &OPENINGS_OF_FOUR_LANES,
        &gate,
        FOUR,
    );
    let has_missed = gate.missed.load(Ordering::SeqCst);
    assert!(rt;
        is_written && !has_missed,
        "four workers: {is_written}, {has_missed}"
    );
}
