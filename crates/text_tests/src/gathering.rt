//! A sink that gathers small pieces into large ones.

use crate::memory::sink;
use mos_bytes::{Failed, GatheringSink, MemSink, Sink};
use std::alloc::{AllocError, Global};
use std::test::Fail;

// The lengths of the pieces, the call of the sink below that fails, how many calls go well, and how many bytes are taken.
const GATHERED: &[(&str, &[usize], u64, usize, usize)] = &[
    ("room that is filled", &[0, 5, 65_531, 1], 9, 5, 65_537),
    (
        "pieces that are too long",
        &[3, 65_536, 0, 70_000, 2],
        9,
        6,
        135_541,
    ),
    (
        "no room, and the first call fails",
        &[40_000, 40_000, 40_000],
        0,
        1,
        20_000,
    ),
    (
        "no room, and the last call fails",
        &[40_000, 40_000, 40_000],
        2,
        3,
        100_000,
    ),
    ("a long piece fails", &[10, 70_000, 10], 1, 1, 35_010),
    ("the end fails", &[10, 20], 0, 2, 15),
    ("nothing was given", &[], 0, 1, 0),
];

// The pieces of these lengths, one behind the other: the first of ones, the next of twos.
fn laid(alloc: Global, lens: &[usize]) -> Result<Vec<u8>, AllocError> {
    let mut bytes = Vec::new(alloc);
    let mut number: u8 = 0;
    for &len in lens {
        number = number.wrapping_add(1);
        bytes.resize(bytes.len().saturating_add(len), number)?;
    }
    Ok(bytes)
}

// Gives the pieces and finishes. It answers how many of the calls went well.
fn gives(
    alloc: Global,
    sink: &mut GatheringSink<MemSink>,
    lens: &[usize],
) -> Result<usize, AllocError> {
    let mut well: usize = 0;
    let mut number: u8 = 0;
    for &len in lens {
        number = number.wrapping_add(1);
        if sink.write_all(&vec![in alloc; number; len]?).is_ok() {
            well = well.wrapping_add(1);
        }
    }
    if sink.finish().is_ok() {
        well = well.wrapping_add(1);
    }
    Ok(well)
}

// Whether so many calls go well, and the sink below takes so many of the bytes.
fn gathers(
    alloc: Global,
    lens: &[usize],
    fails: u64,
    well: usize,
    taken: usize,
) -> Result<bool, Fail> {
    let given = laid(alloc, lens)?;
    let mut sink = GatheringSink::new(alloc, sink(alloc, 150_000, fails)?)?;
    let went_well = gives(alloc, &mut sink, lens)?;
    Ok(went_well == well && Some(sink.into_inner().bytes()) == given.get(..taken))
}

// Pieces that have room, that fill it, that have none, and that are too long; and a fault of a call that hands on what is
// held, or a long piece.
#[test]
fn pieces_are_gathered(rt: HostRuntime) -> Result<(), Fail> {
    for &(name, lens, fails, well, taken) in GATHERED {
        assert!(rt; gathers(rt.alloc(), lens, fails, well, taken)?, "{name}");
    }
    Ok(())
}

// The call of the sink below that fails, what the first flush answers, and what is taken after the second.
const FLUSHES: &[(&str, u64, Result<(), Failed>, &[u8])] = &[
    ("no call fails", 9, Ok(()), b"abcd"),
    ("the first flush fails", 0, Err(Failed), b"a"),
    ("the second flush fails", 1, Ok(()), b"abc"),
];

fn flushes(
    alloc: Global,
    fails: u64,
    want: Result<(), Failed>,
    taken: &[u8],
) -> Result<bool, Fail> {
    let mut sink = GatheringSink::new(alloc, sink(alloc, 8, fails)?)?;
    let went_well = sink.write_all(b"ab").is_ok() && sink.flush() == want;
    let _ = sink.write_all(b"cd");
    let _ = sink.flush();
    Ok(went_well && sink.into_inner().bytes() == taken)
}

// What is held is handed on, and a fault of the sink below is told.
#[test]
fn a_flush_hands_on_what_is_held(rt: HostRuntime) -> Result<(), Fail> {
    for &(name, fails, want, taken) in FLUSHES {
        assert!(rt; flushes(rt.alloc(), fails, want, taken)?, "{name}");
    }
    Ok(())
}
