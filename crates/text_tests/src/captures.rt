//! Captures: their forms, the refusals, the limits, and a capture that is written as it was read.

ghost use Rattle.std.specs.Prelude.{◌≤◌};

use crate::adapters::Piecewise;
use crate::memory::{sink, source};
use mos_bytes::{MemSource, ReadSource, Sink, Source};
use pcap_source::{Capture, Frame, NextError, OpenError, RECORD_LIMIT, Step};
use std::alloc::{AllocError, Global};
use std::test::Fail;

// Version 2.4, Ethernet.
const BIG: [u8; 24] = [
    0xa1, 0xb2, 0xc3, 0xd4, 0, 2, 0, 4, 0, 0, 0, 0, 0, 0, 0, 0, 0, 0, 0xff, 0xff, 0, 0, 0, 1,
];

const LITTLE: [u8; 24] = [
    0xd4, 0xc3, 0xb2, 0xa1, 2, 0, 4, 0, 0, 0, 0, 0, 0, 0, 0, 0, 0xff, 0xff, 0, 0, 1, 0, 0, 0,
];

const BIG_NANOSECONDS: [u8; 24] = [
    0xa1, 0xb2, 0x3c, 0x4d, 0, 2, 0, 4, 0, 0, 0, 0, 0, 0, 0, 0, 0, 0, 0xff, 0xff, 0, 0, 0, 1,
];

const LITTLE_NANOSECONDS: [u8; 24] = [
    0x4d, 0x3c, 0xb2, 0xa1, 2, 0, 4, 0, 0, 0, 0, 0, 0, 0, 0, 0, 0xff, 0xff, 0, 0, 1, 0, 0, 0,
];

// 54 bytes, all captured, of 60 on the wire.
const BIG_HEAD: [u8; 16] = [1, 2, 3, 4, 5, 6, 7, 8, 0, 0, 0, 54, 0, 0, 0, 60];

const LITTLE_HEAD: [u8; 16] = [4, 3, 2, 1, 8, 7, 6, 5, 54, 0, 0, 0, 60, 0, 0, 0];

// The three packets of a handshake.
pub(crate) const PACKETS: [[u8; 54]; 3] = [
    [
        2, 0, 0, 0, 0, 2, 2, 0, 0, 0, 0, 1, 8, 0, 0x45, 0, 0, 0x28, 0, 0, 0x40, 0, 0x40, 6, 0, 0,
        10, 0, 0, 1, 10, 0, 0, 2, 3, 0xe8, 0, 0x50, 0, 0, 0, 0x64, 0, 0, 0, 0, 0x50, 2, 0xff, 0xff,
        0, 0, 0, 0,
    ],
    [
        2, 0, 0, 0, 0, 1, 2, 0, 0, 0, 0, 2, 8, 0, 0x45, 0, 0, 0x28, 0, 0, 0x40, 0, 0x40, 6, 0, 0,
        10, 0, 0, 2, 10, 0, 0, 1, 0, 0x50, 3, 0xe8, 0, 0, 1, 0x2c, 0, 0, 0, 0x65, 0x50, 0x12, 0xff,
        0xff, 0, 0, 0, 0,
    ],
    [
        2, 0, 0, 0, 0, 2, 2, 0, 0, 0, 0, 1, 8, 0, 0x45, 0, 0, 0x28, 0, 0, 0x40, 0, 0x40, 6, 0, 0,
        10, 0, 0, 1, 10, 0, 0, 2, 3, 0xe8, 0, 0x50, 0, 0, 0, 0x65, 0, 0, 1, 0x2d, 0x50, 0x10, 0xff,
        0xff, 0, 0, 0, 0,
    ],
];

// How many records a capture has, and what stands behind them; or why it isn't opened.
type Read = Result<(usize, Result<Step, NextError>), OpenError>;

// A capture of a handshake, with a tail.
fn handshake(
    alloc: Global,
    header: &[u8],
    head: &[u8],
    tail: &[u8],
) -> Result<Vec<u8>, AllocError> {
    let [first, second, third] = &PACKETS;
    let pieces: [&[u8]; 8] = [header, head, first, head, second, head, third, tail];
    pieces.concat(alloc)
}

// How many records are read, and the answer behind them.
fn records<S: Source>(
    capture: &mut Capture,
    source: &mut S,
    frame: &mut Frame,
) -> (usize, Result<Step, NextError>) {
    for count in 0..=RECORD_LIMIT as usize {
        if !capture.is_live() {
            break;
        }
        let step = capture.next(source, frame);
        if step != Ok(Step::Frame) {
            return (count, step);
        }
    }
    (0, Ok(Step::Frame))
}

// Reads a capture to its end.
pub(crate) fn read<S: Source>(alloc: Global, source: &mut S) -> Read {
    let mut capture = Capture::open(source)?;
    Ok(records(&mut capture, source, &mut Frame::new(alloc)))
}

// Whether bytes are read as a capture that comes to this.
fn comes_to(alloc: Global, bytes: Vec<u8>, want: Read) -> bool {
    read(alloc, &mut MemSource::new(bytes, Vec::new(alloc))) == want
}

const FORMS: &[(&str, &[u8; 24], &[u8; 16])] = &[
    ("microseconds, the high byte first", &BIG, &BIG_HEAD),
    ("microseconds, the low byte first", &LITTLE, &LITTLE_HEAD),
    (
        "nanoseconds, the high byte first",
        &BIG_NANOSECONDS,
        &BIG_HEAD,
    ),
    (
        "nanoseconds, the low byte first",
        &LITTLE_NANOSECONDS,
        &LITTLE_HEAD,
    ),
];

// Whether the handshake has 234 bytes and is read whole, also where the tool stopped in a fourth record.
fn is_read_whole(alloc: Global, header: &[u8], head: &[u8]) -> Result<bool, AllocError> {
    let whole = handshake(alloc, header, head, &[])?;
    let stopped = handshake(alloc, header, head, &[0, 1, 2, 3, 4, 5, 6])?;
    Ok(
        whole.len() == 234
            && comes_to(alloc, whole, Ok((3, Ok(Step::End))))
            && comes_to(alloc, stopped, Ok((3, Ok(Step::Tail(7))))),
    )
}

#[test]
fn the_handshake_in_four_forms(rt: HostRuntime) -> Result<(), Fail> {
    for &(name, header, head) in FORMS {
        assert!(rt; is_read_whole(rt.alloc(), header, head)?, "{name}");
    }
    Ok(())
}

// Whether a record is this packet, with the numbers of the heads above.
fn is_packet(frame: &Frame, head: &[u8], packet: &[u8]) -> bool {
    frame.seconds == 0x0102_0304
        && frame.fraction == 0x0506_0708
        && frame.original == 60
        && frame.head.as_slice() == head
        && frame.bytes.as_slice() == packet
}

// Whether the next record is this packet.
fn gives<S: Source>(
    capture: &mut Capture,
    source: &mut S,
    frame: &mut Frame,
    head: &[u8],
    packet: &[u8],
) -> bool {
    capture.is_live()
        && capture.next(source, frame) == Ok(Step::Frame)
        && is_packet(frame, head, packet)
}

// Whether a capture, of which a read gives at most so many bytes, has the three packets.
fn has_the_packets(alloc: Global, header: &[u8], head: &[u8], piece: usize) -> Result<bool, Fail>
    requires { 1 ≤ piece }
{
    let bytes = handshake(alloc, header, head, &[])?;
    let mut source = MemSource::new(bytes, Vec::new(alloc)).cut(piece);
    let mut capture = Capture::open(&mut source)?;
    let mut frame = Frame::new(alloc);
    for packet in &PACKETS {
        if !gives(&mut capture, &mut source, &mut frame, head, packet) {
            return Ok(false);
        }
    }
    Ok(true)
}

// The most bytes that a read gives.
const PIECES: &[(&str, usize)] = &[
    ("a byte at a time", 1),
    ("two bytes at a time", 2),
    ("seven bytes at a time", 7),
    ("a head at a time", 16),
    ("all at once", 4_096),
];

#[test]
fn frames_hold_the_packets(rt: HostRuntime) -> Result<(), Fail> {
    for &(name, piece) in PIECES {
        assert!(rt;
            has_the_packets(rt.alloc(), &BIG, &BIG_HEAD, piece)?,
            "{name}, the high byte first"
        );
        assert!(rt;
            has_the_packets(rt.alloc(), &LITTLE, &LITTLE_HEAD, piece)?,
            "{name}, the low byte first"
        );
    }
    Ok(())
}

// How many bytes of a header are there, the byte that is changed, its value, and what the capture comes to.
const HEADERS: &[(&str, usize, usize, u8, Read)] = &[
    ("no magic number", 24, 3, 0xd5, Err(OpenError::BadMagic)),
    ("version 3", 24, 5, 3, Err(OpenError::BadVersion)),
    ("link type 2", 24, 23, 2, Err(OpenError::BadLink)),
    ("link type 257", 24, 22, 1, Err(OpenError::BadLink)),
    (
        "upper bits of the link type",
        24,
        20,
        0xf0,
        Ok((0, Ok(Step::End))),
    ),
    ("another minor version", 24, 7, 9, Ok((0, Ok(Step::End)))),
    ("another longest packet", 24, 19, 0, Ok((0, Ok(Step::End)))),
    ("no bytes", 0, 0, 0xa1, Err(OpenError::ShortHeader(0))),
    (
        "a byte too few",
        23,
        0,
        0xa1,
        Err(OpenError::ShortHeader(23)),
    ),
];

// The header with a byte changed, cut to a length.
fn changed(alloc: Global, len: usize, place: usize, value: u8) -> Result<Vec<u8>, AllocError> {
    let mut header = BIG.to_vec(alloc)?;
    if let Some(byte) = header.get_mut(place) {
        *byte = value;
    }
    header.truncate(len);
    Ok(header)
}

#[test]
fn the_header_is_judged_in_order(rt: HostRuntime) -> Result<(), Fail> {
    for &(name, len, place, value, want) in HEADERS {
        let header = changed(rt.alloc(), len, place, value)?;
        assert!(rt; comes_to(rt.alloc(), header, want), "{name}");
    }
    Ok(())
}

// A capture of one record with this captured length, of which so many bytes are there.
fn one_record(alloc: Global, captured: u32, there: usize) -> Result<Vec<u8>, AllocError> {
    let mut bytes = BIG.to_vec(alloc)?;
    bytes.resize(32, 0)?;
    bytes.extend_from_slice(&captured.to_be_bytes())?;
    bytes.resize(there.saturating_add(40), 0)?;
    Ok(bytes)
}

// The captured length, how many bytes are there, and what the capture comes to.
const LENGTHS: &[(&str, u32, usize, Read)] = &[
    (
        "the longest record",
        262_144,
        262_144,
        Ok((1, Ok(Step::End))),
    ),
    (
        "a byte of it is missing",
        262_144,
        262_143,
        Ok((0, Ok(Step::Tail(262_159)))),
    ),
    (
        "a byte too long",
        262_145,
        262_145,
        Ok((0, Err(NextError::TooLong(24)))),
    ),
    (
        "too long, and nothing there",
        262_145,
        0,
        Ok((0, Err(NextError::TooLong(24)))),
    ),
];

#[test]
fn a_record_has_at_most_262144_bytes(rt: HostRuntime) -> Result<(), Fail> {
    for &(name, captured, there, want) in LENGTHS {
        let bytes = one_record(rt.alloc(), captured, there)?;
        assert!(rt; comes_to(rt.alloc(), bytes, want), "{name}");
    }
    Ok(())
}

// The captured length, how many bytes are there, and whether the record is at hand.
const AT_HAND: &[(&str, u32, usize, bool)] = &[
    ("an empty record", 0, 0, true),
    ("a record", 9, 9, true),
    ("a record that is cut", 9, 8, false),
    ("a record, and more behind it", 9, 40, true),
    ("the longest record", 262_144, 262_144, true),
    ("a record too long", 262_145, 262_145, false),
];

// The captured length of a record that a reader gives in pieces of 65,536 bytes, and whether it is read ahead with the header.
const READ_AHEAD: &[(&str, u32, usize, bool)] = &[
    ("a short record", 9, 9, true),
    ("a long record", 65_536, 65_536, false),
];

// Whether a capture is opened, and its next record at hand as wanted.
fn is_at_hand<S: Source>(source: &mut S, want: bool) -> bool {
    match Capture::open(source) {
        Ok(capture) => capture.is_at_hand(source) == want,
        Err(_) => false,
    }
}

// The same of a capture in memory that has no record but this one.
fn record_is_at_hand(
    alloc: Global,
    captured: u32,
    there: usize,
    want: bool,
) -> Result<bool, AllocError> {
    let bytes = one_record(alloc, captured, there)?;
    Ok(is_at_hand(&mut MemSource::new(bytes, Vec::new(alloc)), want))
}

// The same of one that a reader gives.
fn record_is_read_ahead(
    alloc: Global,
    captured: u32,
    there: usize,
    want: bool,
) -> Result<bool, AllocError> {
    let bytes = one_record(alloc, captured, there)?;
    let mut source = ReadSource::new(Piecewise {
        left: bytes.as_slice(),
        piece: 65_536,
    });
    Ok(is_at_hand(&mut source, want))
}

// A record that is cut or too long isn't at hand.
#[test]
fn whole_records_are_at_hand(rt: HostRuntime) -> Result<(), Fail> {
    for &(name, captured, there, want) in AT_HAND {
        assert!(rt;
            record_is_at_hand(rt.alloc(), captured, there, want)?,
            "{name}"
        );
    }
    Ok(())
}

// Nor is one that a reader wasn't asked for yet.
#[test]
fn short_records_are_read_ahead(rt: HostRuntime) -> Result<(), Fail> {
    for &(name, captured, there, want) in READ_AHEAD {
        assert!(rt;
            record_is_read_ahead(rt.alloc(), captured, there, want)?,
            "{name}"
        );
    }
    Ok(())
}

#[test]
fn no_record_is_at_hand(rt: HostRuntime) -> Result<(), Fail> {
    assert!(rt; is_at_hand(&mut source(rt.alloc(), &BIG, 99)?, false));
    Ok(())
}

// How many bytes stand behind 1,048,576 empty records, and what the capture comes to.
const MANY: &[(&str, usize, Read)] = &[
    ("nothing", 0, Ok((1_048_576, Ok(Step::End)))),
    ("less than a head", 15, Ok((1_048_576, Ok(Step::Tail(15))))),
    (
        "a head that tells of too many bytes",
        16,
        Ok((1_048_576, Err(NextError::TooMany(16_777_240)))),
    ),
];

fn empty_records(alloc: Global, behind: usize) -> Result<Vec<u8>, AllocError> {
    let mut bytes = BIG.to_vec(alloc)?;
    bytes.resize(16_777_240, 0)?;
    bytes.resize(behind.saturating_add(16_777_240), 0xff)?;
    Ok(bytes)
}

#[test]
fn a_capture_has_at_most_1048576_records(rt: HostRuntime) -> Result<(), Fail> {
    for &(name, behind, want) in MANY {
        let bytes = empty_records(rt.alloc(), behind)?;
        assert!(rt; comes_to(rt.alloc(), bytes, want), "{name}");
    }
    Ok(())
}

// The call of the source that fails, and what the capture comes to.
const FAULTS: &[(&str, u64, Read)] = &[
    ("the header", 0, Err(OpenError::ReadFault)),
    ("the first head", 1, Ok((0, Err(NextError::ReadFault)))),
    ("the first packet", 2, Ok((0, Err(NextError::ReadFault)))),
    ("the second head", 3, Ok((1, Err(NextError::ReadFault)))),
    ("the second packet", 4, Ok((1, Err(NextError::ReadFault)))),
    ("the third head", 5, Ok((2, Err(NextError::ReadFault)))),
    ("the third packet", 6, Ok((2, Err(NextError::ReadFault)))),
    ("the end", 7, Ok((3, Err(NextError::ReadFault)))),
    ("no call", 8, Ok((3, Ok(Step::End)))),
];

// Whether the handshake from a source whose call of this number fails comes to this.
fn fails_so(alloc: Global, call: u64, want: Read) -> Result<bool, AllocError> {
    let bytes = handshake(alloc, &BIG, &BIG_HEAD, &[])?;
    Ok(read(alloc, &mut source(alloc, &bytes, call)?) == want)
}

#[test]
fn a_read_that_fails(rt: HostRuntime) -> Result<(), Fail> {
    for &(name, call, want) in FAULTS {
        assert!(rt; fails_so(rt.alloc(), call, want)?, "{name}");
    }
    Ok(())
}

// Writes what is read. It answers whether the sink took all.
fn copy<S: Source, O: Sink>(
    capture: &mut Capture,
    source: &mut S,
    frame: &mut Frame,
    out: &mut O,
) -> bool {
    for _ in 0..=RECORD_LIMIT {
        if !capture.is_live() || capture.next(source, frame) != Ok(Step::Frame) {
            return true;
        }
        if capture.write_record(out, frame).is_err() {
            return false;
        }
    }
    false
}

// Whether the sink, whose call of this number fails, takes so many bytes of a capture, and all of it where none fails.
fn is_copied(alloc: Global, call: u64, taken: usize) -> Result<bool, Fail> {
    let bytes = handshake(alloc, &BIG, &BIG_HEAD, &[1, 2, 3])?;
    let mut source = source(alloc, &bytes, 99)?;
    let mut out = sink(alloc, 300, call)?;
    let mut capture = Capture::open(&mut source)?;
    let all = capture.write_header(&mut out).is_ok()
        && copy(&mut capture, &mut source, &mut Frame::new(alloc), &mut out);
    Ok(all == (call == 9) && Some(out.bytes()) == bytes.get(..taken))
}

// The call of the sink that fails, and how many bytes it has taken. The tail isn't written.
const COPIES: &[(&str, u64, usize)] = &[
    ("the header", 0, 12),
    ("the first head", 1, 32),
    ("the first packet", 2, 67),
    ("the second head", 3, 102),
    ("no call", 9, 234),
];

// The sink's calls are the header, and a head and bytes for each record.
#[test]
fn a_capture_is_written_as_it_was_read(rt: HostRuntime) -> Result<(), Fail> {
    for &(name, call, taken) in COPIES {
        assert!(rt; is_copied(rt.alloc(), call, taken)?, "{name}");
    }
    Ok(())
}
