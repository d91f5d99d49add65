//! A source that gives a few bytes a read.

use crate::failing::ACCOUNTS;
use crate::runs::{NEVER, ended_so, in_words, run, sink, source};
use crate::traffic::{WEB_REQUEST, capture_of};
use mos_run::OpenGate;
use std::process::Abort;
use std::sync::Wait;
use std::thread::Threads;

const PIECES: &[(&str, usize)] = &[
    ("a byte", 1),
    ("seven bytes", 7),
    ("more than the capture", 4096),
];

fn accounts<R: AllocGlobal + Abort + Threads + Wait + Sync + Send + Copy + Drop + 'static>(
    rt: &R,
    piece: usize,
) -> bool {
    let mut source = source(rt, &capture_of(rt, &WEB_REQUEST), NEVER).cut(piece.max(1));
    let mut out = sink(rt, 1024, NEVER);
    let run = run(rt, in_words("--app acct"), &mut source, &mut out, &OpenGate);
    ended_so(&run, 0, "") && out.bytes() == ACCOUNTS.as_bytes()
}

#[test]
fn pieces_of_a_web_request(rt: HostRuntime) {
    for &(name, piece) in PIECES {
        assert!(rt; accounts(&rt, piece), "{name}");
    }
}
