//! When a forwarded capture is handed on: before more of it is asked of the outside, and no sooner than needs be; and how much of
//! it is on its way.

use crate::runs::{NEVER, in_words, run, run_gathering, sink, source};
use crate::traffic::{EXCHANGE, REFUSED_AT_ITS_END, Traffic, capture_of, crowd_of};
use crate::watched::{Flow, WatchedSink, WatchedSource};
use capture_maker::Maker;
use mos_bytes::fill;
use mos_run::Gate;
use std::process::Abort;
use std::sync::Wait;
use std::sync::atomic::{AtomicU64, Ordering};
use std::thread::{self, Threads};

// What has to be seen of a run besides its status and its output.
#[derive(Clone, Copy)]
enum Seen {
    // The most bytes that were read and not written.
    Most(u64),
    // The calls of the output.
    Writes(u64),
    Nothing,
}

// With nothing at hand a packet has left before the head of the next one is read, and at most that head, of 16 bytes, waits for
// the rest of its record. With all at hand the whole capture leaves in one call, behind its last packet. What was gathered leaves
// too where the capture is refused further on.
const RUNS: &[(&str, &str, Traffic, bool, u8, Seen)] = &[
    (
        "nothing at hand",
        "--emit forward",
        EXCHANGE,
        false,
        0,
        Seen::Most(16),
    ),
    (
        "nothing at hand, by two workers",
        "--emit forward --workers 2",
        EXCHANGE,
        false,
        0,
        Seen::Most(16),
    ),
    (
        "all at hand",
        "--emit forward",
        EXCHANGE,
        true,
        0,
        Seen::Writes(1),
    ),
    (
        "all at hand, by two workers",
        "--emit forward --workers 2",
        EXCHANGE,
        true,
        0,
        Seen::Writes(1),
    ),
    (
        "refused at its end",
        "--emit forward",
        REFUSED_AT_ITS_END,
        true,
        3,
        Seen::Nothing,
    ),
    (
        "refused at its end, by two workers",
        "--emit forward --workers 2",
        REFUSED_AT_ITS_END,
        true,
        3,
        Seen::Nothing,
    ),
];

fn is_seen(flow: &Flow, seen: Seen) -> bool {
    match seen {
        Seen::Most(bytes) => flow.most_bytes() == bytes,
        Seen::Writes(calls) => flow.writes() == calls,
        Seen::Nothing => true,
    }
}

// Whether the run forwards the exchange, and this is seen of it.
fn forwards<R: AllocGlobal + Abort + Threads + Wait + Sync + Send + Copy + Drop + 'static>(
    rt: &R,
    words: &str,
    traffic: &Traffic,
    is_at_hand: bool,
    status: u8,
    seen: Seen,
) -> bool {
    let flow = Flow::new();
    let mut source = WatchedSource {
        below: source(rt, &capture_of(rt, traffic), NEVER),
        is_at_hand,
        flow: &flow,
    };
    let out = WatchedSink {
        below: sink(rt, 1024, NEVER),
        flow: &flow,
    };
    let (run, out) = run_gathering(rt, in_words(words), &mut source, out);
    run.ended.status == status
        && out.below.bytes() == capture_of(rt, &EXCHANGE).as_slice()
        && is_seen(&flow, seen)
}

#[test]
fn what_is_handed_on(rt: HostRuntime) {
    for &(name, words, traffic, is_at_hand, status, seen) in RUNS {
        assert!(rt;
            forwards(&rt, words, &traffic, is_at_hand, status, seen),
            "{name}"
        );
    }
}

// How often a thread looks whether another one goes on, before it takes it that this one doesn't.
const TURNS: u64 = 10_000_000;

// How often it looks once more, for packets that are read though they may not be.
const MORE_TURNS: u64 = 200_000;

// Holds packet 0 until 4,096 packets are on their way, and for a while longer; notes how many are then. Or holds none.
#[derive(Drop)]
struct Holding<'a> {
    flow: &'a Flow,
    is_holding: bool,
    seen: AtomicU64,
}

impl<'a> Gate for Holding<'a> {
    fn pause(&self, _lane: usize, index: u64) {
        if index > 0 || !self.is_holding {
            return;
        }
        for _ in 0..TURNS {
            if self.flow.most_packets() >= 4_096 {
                break;
            }
            thread::yield_now();
        }
        for _ in 0..MORE_TURNS {
            thread::yield_now();
        }
        self.seen.store(self.flow.most_packets(), Ordering::SeqCst);
    }

    fn published(&self, _count: usize) {}
}

// A capture of many packets.
#[derive(Clone, Copy)]
enum Many {
    // Packet 0, which is held, and 5,000 packets for other lanes.
    Crowd,
    // 2,000 connections of ten packets, of which none is held.
    Made,
}

const CROWDS: &[(&str, &str, Many)] = &[
    (
        "the first packet is held, by two workers",
        "--emit forward --workers 2",
        Many::Crowd,
    ),
    (
        "the first packet is held, by four workers",
        "--emit forward --workers 4",
        Many::Crowd,
    ),
    (
        "20,000 packets, by four workers",
        "--emit forward --workers 4",
        Many::Made,
    ),
];

fn bytes_of<R: AllocGlobal + Abort>(rt: &R, many: Many) -> Vec<u8> {
    match many {
        Many::Crowd => crowd_of(rt),
        Many::Made => made_of(rt),
    }
}

fn made_of<R: AllocGlobal + Abort>(rt: &R) -> Vec<u8> {
    let size = Maker::new(2_000).size() as usize;
    let mut bytes = vec![in rt.alloc(); 0; size].expect(rt, "memory");
    let count = fill(&mut Maker::new(2_000), &mut bytes).unwrap_or(0);
    bytes.truncate(count);
    bytes
}

// Whether so many packets may have been on their way at most, and while packet 0 was held.
fn is_bounded(many: Many, most: u64, seen: u64) -> bool {
    match many {
        Many::Crowd => most == 4_096 && seen == 4_096,
        Many::Made => most <= 4_096,
    }
}

// Whether the run forwards the whole capture, all of which is at hand, in its order, and no more of it was on its way than may be.
fn holds_few<R: AllocGlobal + Abort + Threads + Wait + Sync + Send + Copy + Drop + 'static>(
    rt: &R,
    words: &str,
    many: Many,
) -> bool {
    let flow = Flow::new();
    let capture = bytes_of(rt, many);
    let mut source = WatchedSource {
        below: source(rt, &capture, NEVER),
        is_at_hand: true,
        flow: &flow,
    };
    let mut out = WatchedSink {
        below: sink(rt, capture.len(), NEVER),
        flow: &flow,
    };
    let gate = Holding {
        flow: &flow,
        is_holding: matches!(many, Many::Crowd),
        seen: AtomicU64::new(0),
    };
    let run = run(rt, in_words(words), &mut source, &mut out, &gate);
    let seen = gate.seen.load(Ordering::SeqCst);
    run.ended.status == 0
        && out.below.bytes() == capture.as_slice()
        && is_bounded(many, flow.most_packets(), seen)
}

#[test]
fn at_most_4096_packets_are_on_their_way(rt: HostRuntime) {
    for &(name, words, many) in CROWDS {
        assert!(rt; holds_few(&rt, words, many), "{name}");
    }
}
