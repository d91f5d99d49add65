//! A command that may come at any moment: the text is the one under the versions that are answered.

use crate::runs::{Asked, NEVER, run, sink, source};
use crate::traffic::{TWO_OPENINGS, capture_of};
use mos_run::OpenGate;
use std::process::Abort;
use std::sync::Wait;
use std::thread::Threads;

// The first command may come at any moment, and the second one from packet 1 on, which has to see both.
const LIVE: Asked<'static> = Asked {
    words: "--script script --workers 2",
    script: "live reg 16 start snd\nat 1 reg 17 start snd\n",
    fetch: NEVER,
};

const BEFORE_IT_CAME: &str = "conn 0 10.0.0.1:1000 > 10.0.0.2:80 v 0\n\
    cb 0 snd pkt_in 1\n\
    cb 0 rcv pkt_in 2\n\
    conn 1 10.0.0.1:1001 > 10.0.0.2:80 v 2\n\
    cb 1 snd start 16\n\
    cb 1 snd start 17\n\
    cb 1 snd pkt_in 1\n\
    cb 1 rcv pkt_in 2\n\
    end packets 2 records 2 callbacks 6 drops 0 tail 0\n";

const ONCE_IT_CAME: &str = "conn 0 10.0.0.1:1000 > 10.0.0.2:80 v 1\n\
    cb 0 snd start 16\n\
    cb 0 snd pkt_in 1\n\
    cb 0 rcv pkt_in 2\n\
    conn 1 10.0.0.1:1001 > 10.0.0.2:80 v 2\n\
    cb 1 snd start 16\n\
    cb 1 snd start 17\n\
    cb 1 snd pkt_in 1\n\
    cb 1 rcv pkt_in 2\n\
    end packets 2 records 2 callbacks 7 drops 0 tail 0\n";

fn is_under_its_versions<
    R: AllocGlobal + Abort + Threads + Wait + Sync + Send + Copy + Drop + 'static,
>(rt: &R) -> bool {
    let mut source = source(rt, &capture_of(rt, &TWO_OPENINGS), NEVER);
    let mut out = sink(rt, 1024, NEVER);
    let run = run(rt, LIVE, &mut source, &mut out, &OpenGate);
    let text = match run.ended.versions.as_slice() {
        [0, 2] => BEFORE_IT_CAME,
        [1, 2] => ONCE_IT_CAME,
        _ => return false,
    };
    run.ended.status == 0 && out.bytes() == text.as_bytes()
}

#[test]
fn a_live_command_by_two_workers(rt: HostRuntime) {
    assert!(rt; is_under_its_versions(&rt), "a live command by two workers");
}
