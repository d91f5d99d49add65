//! Files in the pcapng form: which of their records are at hand before they are read.

ghost use Rattle.std.specs.Prelude.{◌≤◌};

use crate::adapters::Piecewise;
use crate::pcapng::Part::{self, Bytes, Four, Two};
use crate::pcapng::{INTERFACE, OTHER, PACKET, SECTION, SIMPLE, TIMED, file, put};
use mos_bytes::{MemSource, ReadSource, Source};
use pcap_source::{Capture, Frame, Step};
use pcapng_source::AnySource;
use std::alloc::{AllocError, Global};
use std::test::Fail;

// Whether the next record is read.
fn is_read<S: Source>(capture: &mut Capture, source: &mut S, frame: &mut Frame) -> bool {
    capture.is_live() && capture.next(source, frame) == Ok(Step::Frame)
}

// Whether a file has so many records, and before each is read it is at hand as wanted. Behind them none is.
fn are_at_hand<S: Source>(below: &mut S, frame: &mut Frame, want: &[bool]) -> bool {
    let mut source = AnySource::new(below);
    let Ok(mut capture) = Capture::open(&mut source) else {
        return false;
    };
    for &there in want {
        if capture.is_at_hand(&source) != there || !is_read(&mut capture, &mut source, frame) {
            return false;
        }
    }
    !capture.is_at_hand(&source) && !is_read(&mut capture, &mut source, frame)
}

// ---- all bytes are at hand

// A packet with an option behind its data.
const WITH_OPTION: &[Part] = &[
    Four(6),
    Four(48),
    Four(0),
    Four(0),
    Four(1_000_002),
    Four(2),
    Four(60),
    Bytes(&[7, 8, 0, 0]),
    Two(2),
    Two(4),
    Four(1),
    Two(0),
    Two(0),
    Four(48),
];

const REFUSED: &[Part] = &[Four(5), Four(13)];

// Blocks behind a section header and an interface, how many bytes of the file are left out, and whether each record is at
// hand: each that is whole.
const IN_MEMORY: &[(&str, &[&[Part]], usize, &[bool])] = &[
    (
        "packet behind packet",
        &[PACKET, PACKET, PACKET],
        0,
        &[true, true, true],
    ),
    ("packets without bytes", &[TIMED, TIMED], 0, &[true, true]),
    ("simple packets", &[SIMPLE, SIMPLE], 0, &[true, true]),
    (
        "options behind the data",
        &[WITH_OPTION, WITH_OPTION],
        0,
        &[true, true],
    ),
    (
        "blocks that hold no packet",
        &[OTHER, PACKET, OTHER, INTERFACE, OTHER, SIMPLE, OTHER],
        0,
        &[true, true],
    ),
    (
        "a section between",
        &[PACKET, SECTION, INTERFACE, PACKET],
        0,
        &[true, true],
    ),
    ("a refused block", &[PACKET, REFUSED, PACKET], 0, &[true]),
    (
        "nothing behind the data",
        &[PACKET, PACKET],
        6,
        &[true, true],
    ),
    ("data that is cut", &[PACKET, PACKET], 7, &[true]),
    ("a head that is cut", &[PACKET, PACKET], 9, &[true]),
];

// The most bytes that a read gives.
const PIECES: [usize; 3] = [1, 5, 4_096];

fn are_in_memory(
    alloc: Global,
    blocks: &[&[Part]],
    left_out: usize,
    want: &[bool],
) -> Result<bool, AllocError> {
    let mut bytes = file(alloc, true, &[SECTION, INTERFACE])?;
    for block in blocks {
        put(&mut bytes, true, block)?;
    }
    bytes.truncate(bytes.len().saturating_sub(left_out));
    for piece in PIECES {
        let mut source = MemSource::new(bytes.to_vec(alloc)?, Vec::new(alloc)).cut(piece);
        if !are_at_hand(&mut source, &mut Frame::new(alloc), want) {
            return Ok(false);
        }
    }
    Ok(true)
}

#[test]
fn whole_packets_are_at_hand(rt: HostRuntime) -> Result<(), Fail> {
    for &(name, blocks, left_out, want) in IN_MEMORY {
        assert!(rt;
            are_in_memory(rt.alloc(), blocks, left_out, want)?,
            "{name}"
        );
    }
    Ok(())
}

// ---- bytes that a reader was asked for are at hand

// How many bytes the second of three packets has, how many the reader gives at once, and whether each record is at hand.
const FROM_READER: &[(&str, u32, usize, &[bool])] = &[
    ("a short packet", 4, 65_536, &[true, true, true]),
    ("a long packet", 65_536, 65_536, &[true, false, true]),
    (
        "an empty packet, a byte at a time",
        0,
        1,
        &[false, false, false],
    ),
];

fn three_packets(alloc: Global, size: u32) -> Result<Vec<u8>, AllocError> {
    let total = size.saturating_add(32);
    let mut bytes = file(alloc, true, &[SECTION, INTERFACE, PACKET])?;
    let head = [
        Four(6),
        Four(total),
        Four(0),
        Four(0),
        Four(0),
        Four(size),
        Four(size),
    ];
    put(&mut bytes, true, &head)?;
    bytes.resize(bytes.len().saturating_add(size as usize), 0)?;
    put(&mut bytes, true, &[Four(total)])?;
    put(&mut bytes, true, PACKET)?;
    Ok(bytes)
}

fn are_from_reader(
    alloc: Global,
    size: u32,
    piece: usize,
    want: &[bool],
) -> Result<bool, AllocError> {
    let bytes = three_packets(alloc, size)?;
    let mut source = ReadSource::new(Piecewise {
        left: bytes.as_slice(),
        piece,
    });
    Ok(are_at_hand(&mut source, &mut Frame::new(alloc), want))
}

#[test]
fn records_that_were_read_ahead_are_at_hand(rt: HostRuntime) -> Result<(), Fail> {
    for &(name, size, piece, want) in FROM_READER {
        assert!(rt; are_from_reader(rt.alloc(), size, piece, want)?, "{name}");
    }
    Ok(())
}
