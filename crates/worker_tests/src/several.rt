//! Runs on several lanes over whole captures: their ends are the same whatever the number of lanes.

ghost use Rattle.std.specs.Prelude.{◌≤◌};

use crate::frames::SYN;
use crate::plain::{natives, script};
use app_api::LogApp;
use mos_bytes::MemSource;
use pcap_source::Capture;
use report_text::{Record, Totals};
use std::alloc::{AllocError, Global};
use std::sync::Wait;
use std::thread::Threads;
use worker_pool::{Job, LanesEnd, OpenGate, PoolError, run_lanes};

// The header of a capture of version 2.4 over Ethernet.
const HEADER: [u8; 24] = [
    0xa1, 0xb2, 0xc3, 0xd4, 0, 2, 0, 4, 0, 0, 0, 0, 0, 0, 0, 0, 0, 0, 0xff, 0xff, 0, 0, 0, 1,
];

// The header of a record of 54 bytes.
const RECORD: [u8; 16] = [0, 0, 0, 1, 0, 0, 0, 0, 0, 0, 0, 54, 0, 0, 0, 54];

// The header of a record that is too long.
const TOO_LONG: [u8; 16] = [0, 0, 0, 1, 0, 0, 0, 0, 0, 4, 0, 1, 0, 4, 0, 1];

// From packet 4 on, what a connection sends is dropped.
const DROPS: &str = "at 4 reg 16 pkt_in snd do drop";

// What 24 opening segments of 8 connections come to: two callbacks for each, and the drops of the last 4 connections.
const WHOLE: Totals = Totals {
    packets: 24,
    records: 8,
    callbacks: 48,
    drops: 12,
    tail: 0,
};

const VERSIONS: [u32; 8] = [0, 0, 0, 0, 1, 1, 1, 1];

// Three opening segments of each of eight connections, in turn, and what stands behind them.
fn openings(alloc: Global, behind: &[u8]) -> Result<Vec<u8>, AllocError> {
    let mut bytes = HEADER.to_vec(alloc)?;
    for packet in 0..24u8 {
        let mut frame = SYN;
        frame[35] = packet % 8;
        bytes.extend_from_slice(&RECORD)?;
        bytes.extend_from_slice(&frame)?;
    }
    bytes.extend_from_slice(behind)?;
    Ok(bytes)
}

// A source of these openings, which fails at the read of a number.
fn source(alloc: Global, behind: &[u8], fails: u64) -> Result<MemSource, AllocError> {
    Ok(MemSource::new(openings(alloc, behind)?, [fails].to_vec(alloc)?))
}

fn are_named_by_place(records: &[Record]) -> bool {
    records
        .iter()
        .enumerate()
        .all(|(place, record)| record.name == place as u64)
}

// Whether a run ended so.
fn ended(ran: Result<LanesEnd, PoolError>, want: Result<u32, PoolError>) -> bool {
    match (ran, want) {
        (Ok(end), Ok(tail)) => {
            end.totals == Totals { tail, ..WHOLE }
                && end.versions.as_slice() == VERSIONS.as_slice()
                && are_named_by_place(end.records.as_slice())
        }
        (Err(error), Err(wanted)) => error == wanted,
        (_, _) => false,
    }
}

// A name, the number of lanes, what stands behind the openings, the read that fails, and then the bytes that are no whole
// record, or why the run ended.
type Row = (
    &'static str,
    usize,
    &'static [u8],
    u64,
    Result<u32, PoolError>,
);

const NEVER: u64 = u64::MAX;

const ROWS: &[Row] = &[
    ("one lane", 1, &[], NEVER, Ok(0)),
    ("two lanes", 2, &[], NEVER, Ok(0)),
    ("three lanes", 3, &[], NEVER, Ok(0)),
    ("sixteen lanes", 16, &[], NEVER, Ok(0)),
    ("bytes behind the last record", 2, &[1, 2, 3], NEVER, Ok(3)),
    (
        "a record that is too long",
        2,
        &TOO_LONG,
        NEVER,
        Err(PoolError::TooLong(24 + 24 * 70)),
    ),
    ("a read that fails", 2, &[], 9, Err(PoolError::ReadFault)),
];

// Runs the log application over the openings.
fn runs<R: Threads + Wait + Sync + Send + Copy + Drop + 'static>(
    rt: &R,
    alloc: Global,
    row: &Row,
) -> bool {
    let (_, workers, behind, fails, want) = *row;
    let Some(script) = script(alloc, DROPS) else {
        return false;
    };
    let Ok(mut source) = source(alloc, behind, fails) else {
        return false;
    };
    let Ok(mut capture) = Capture::open(&mut source) else {
        return false;
    };
    if !(1..=16).contains(&workers) {
        return false;
    }
    let job = Job {
        app: LogApp,
        script: &script,
        workers,
    };
    let ran = run_lanes(
        rt,
        alloc,
        &job,
        &mut capture,
        &mut source,
        &natives(),
        &OpenGate,
    );
    ended(ran, want)
}

#[test]
fn all_numbers_of_lanes_give_one_end(rt: HostRuntime) {
    for row in ROWS {
        assert!(rt; runs(&rt, rt.alloc(), row), "{}", row.0);
    }
}
