//! As many packets as a capture may have.

use crate::runs::{NEVER, ended_so, in_words, run, sink, source};
use crate::traffic::BIG;
use mos_run::OpenGate;
use std::alloc::{AllocError, Global};
use std::process::Abort;
use std::sync::Wait;
use std::thread::Threads;

const PACKETS: usize = 1_048_576;

const FIRST: &[u8] = b"orphan 0 other v 0\n";

const LAST: &[u8] = b"\nend packets 1048576 records 1048576 callbacks 1048576 drops 0 tail 0\n";

// A header, and so many records without data, whose heads are zero.
fn empty_records(alloc: Global, count: usize) -> Result<Vec<u8>, AllocError> {
    let mut bytes = BIG.to_vec(alloc)?;
    for _ in 0..count {
        bytes.extend_from_slice(&[0; 16])?;
    }
    Ok(bytes)
}

fn reports_each<R: AllocGlobal + Abort + Threads + Wait + Sync + Send + Copy + Drop + 'static>(
    rt: &R,
) -> bool {
    let capture = empty_records(rt.alloc(), PACKETS).expect(rt, "memory");
    let mut source = source(rt, &capture, NEVER);
    let mut out = sink(rt, 67_108_864, NEVER);
    let run = run(rt, in_words(""), &mut source, &mut out, &OpenGate);
    ended_so(&run, 0, "") && out.bytes().starts_with(FIRST) && out.bytes().ends_with(LAST)
}

#[test]
fn as_many_packets_as_a_capture_may_have(rt: HostRuntime) {
    assert!(rt; reports_each(&rt), "1,048,576 packets");
}
