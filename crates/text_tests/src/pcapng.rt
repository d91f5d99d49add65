//! Files in the pcapng form: what they give, in any cut of reads.

use crate::captures::PACKETS;
use mos_bytes::{Failed, MemSource, Source};
use pcapng_source::{AnySource, NgFault};
use std::alloc::{AllocError, Global};
use std::test::Fail;

// A field of a block, in the byte order of its section; or bytes as they are.
#[derive(Clone, Copy)]
pub(crate) enum Part {
    Two(u16),
    Four(u32),
    Bytes(&'static [u8]),
}

use Part::{Bytes, Four, Two};

pub(crate) const MAGIC: Part = Four(0x1a2b_3c4d);

pub(crate) const SECTION_TYPE: Part = Four(0x0a0d_0d0a);

// Version 1.0, of unknown length.
pub(crate) const SECTION: &[Part] = &[
    SECTION_TYPE,
    Four(28),
    MAGIC,
    Two(1),
    Two(0),
    Four(0xffff_ffff),
    Four(0xffff_ffff),
    Four(28),
];

// Ethernet, with no limit on lengths.
pub(crate) const INTERFACE: &[Part] = &[Four(1), Four(20), Two(1), Two(0), Four(0), Four(20)];

// Two bytes of sixty, at time 1.000002.
pub(crate) const PACKET: &[Part] = &[
    Four(6),
    Four(36),
    Four(0),
    Four(0),
    Four(1_000_002),
    Four(2),
    Four(60),
    Bytes(&[7, 8, 0, 0]),
    Four(36),
];

// The global header of each classic form.
pub(crate) const HEADER: &[u8] = &[
    0xa1, 0xb2, 0xc3, 0xd4, 0, 2, 0, 4, 0, 0, 0, 0, 0, 0, 0, 0, 0, 4, 0, 0, 0, 0, 0, 1,
];

// The record of the packet.
pub(crate) const RECORD: &[u8] = &[0, 0, 0, 1, 0, 0, 0, 2, 0, 0, 0, 2, 0, 0, 0, 60, 7, 8];

fn two(number: u16, is_big: bool) -> [u8; 2] {
    if is_big {
        number.to_be_bytes()
    } else {
        number.to_le_bytes()
    }
}

fn four(number: u32, is_big: bool) -> [u8; 4] {
    if is_big {
        number.to_be_bytes()
    } else {
        number.to_le_bytes()
    }
}

// Puts a field in either order of bytes.
fn put_part(bytes: &mut Vec<u8>, is_big: bool, part: Part) -> Result<(), AllocError> {
    match part {
        Two(number) => bytes.extend_from_slice(&two(number, is_big)),
        Four(number) => bytes.extend_from_slice(&four(number, is_big)),
        Bytes(others) => bytes.extend_from_slice(others),
    }
}

// Puts fields in either order of bytes.
pub(crate) fn put(bytes: &mut Vec<u8>, is_big: bool, parts: &[Part]) -> Result<(), AllocError> {
    for part in parts {
        put_part(bytes, is_big, *part)?;
    }
    Ok(())
}

// Puts blocks in either order of bytes.
fn put_all(bytes: &mut Vec<u8>, is_big: bool, blocks: &[&[Part]]) -> Result<(), AllocError> {
    for block in blocks {
        put(bytes, is_big, block)?;
    }
    Ok(())
}

// A file of these blocks, in either order of bytes.
pub(crate) fn file(alloc: Global, is_big: bool, blocks: &[&[Part]]) -> Result<Vec<u8>, AllocError> {
    let mut bytes = Vec::new(alloc);
    put_all(&mut bytes, is_big, blocks)?;
    Ok(bytes)
}

// Lists of bytes, one behind the other.
pub(crate) fn joined(alloc: Global, lists: &[&[u8]]) -> Result<Vec<u8>, AllocError> {
    lists.concat(alloc)
}

// What is left of these bytes behind those that a read of up to 30 gives. None where it gives none or others.
fn rest_of<'a, S: Source>(any: &mut AnySource<S>, want: &'a [u8]) -> Option<&'a [u8]> {
    let mut buf = [0; 30];
    let count = any.read(&mut buf).unwrap_or(0);
    if count > 0 && buf.get(..count) == want.get(..count) {
        want.get(count..)
    } else {
        None
    }
}

// Whether the end or this refusal is reached.
fn is_over<S: Source>(any: &mut AnySource<S>, fault: Option<NgFault>) -> bool {
    let mut buf = [0; 30];
    let end = if fault.is_some() { Err(Failed) } else { Ok(0) };
    any.read(&mut buf) == end && any.fault() == fault && any.read(&mut buf) == end
}

// Whether reads of up to 30 bytes give these bytes, and then the end or this refusal.
fn reads<S: Source>(any: &mut AnySource<S>, want: &[u8], fault: Option<NgFault>) -> bool {
    let mut rest = want;
    for _ in 0..want.len() {
        if rest.is_empty() {
            break;
        }
        match rest_of(any, rest) {
            Some(left) => rest = left,
            None => return false,
        }
    }
    rest.is_empty() && is_over(any, fault)
}

const PIECES: [usize; 3] = [1, 5, 4_096];

// Whether a file gives these bytes, and then the end or this refusal, in pieces of each of three lengths.
pub(crate) fn gives(
    alloc: Global,
    file: &[u8],
    want: &[u8],
    fault: Option<NgFault>,
) -> Result<bool, AllocError> {
    for piece in PIECES {
        let mut source = MemSource::new(file.to_vec(alloc)?, Vec::new(alloc)).cut(piece);
        if !reads(&mut AnySource::new(&mut source), want, fault) {
            return Ok(false);
        }
    }
    Ok(true)
}

// ---- files that are cut

// A block of another kind, and a simple packet of three bytes.
pub(crate) const OTHER: &[Part] = &[
    Four(0xbad),
    Four(20),
    Bytes(&[1, 2, 3, 4, 5, 6, 7, 8]),
    Four(20),
];

pub(crate) const SIMPLE: &[Part] = &[Four(3), Four(20), Four(3), Bytes(&[4, 5, 6, 0]), Four(20)];

const SIMPLE_RECORD: &[u8] = &[0, 0, 0, 0, 0, 0, 0, 0, 0, 0, 0, 3, 0, 0, 0, 3, 4, 5, 6];

// From this length of a file on it gives so many bytes, and where that is said one more for each byte more.
const CUTS: &[(usize, usize, bool)] = &[
    (0, 0, true),
    (4, 24, false),
    (76, 40, true),
    (78, 42, false),
    (116, 58, true),
    (119, 61, false),
    (124, 61, false),
];

// How many bytes a file gives of which so many are there.
fn given_of(len: usize) -> usize {
    let mut given = 0;
    for &(start, count, grows) in CUTS {
        if start <= len {
            given = if grows {
                count.wrapping_add(len.wrapping_sub(start))
            } else {
                count
            };
        }
    }
    given
}

fn is_cut_well(alloc: Global, is_big: bool) -> Result<bool, AllocError> {
    let bytes = file(alloc, is_big, &[SECTION, INTERFACE, PACKET, OTHER, SIMPLE])?;
    let want = joined(alloc, &[HEADER, RECORD, SIMPLE_RECORD])?;
    for len in 0..=bytes.len() {
        let cut = bytes.get(..len).unwrap_or(&[]);
        let given = if len < 4 {
            cut
        } else {
            want.get(..given_of(len)).unwrap_or(&[])
        };
        if !gives(alloc, cut, given, None)? {
            return Ok(false);
        }
    }
    Ok(bytes.len() == 124)
}

#[test]
fn a_file_cut_at_each_byte(rt: HostRuntime) -> Result<(), Fail> {
    for is_big in [true, false] {
        assert!(rt; is_cut_well(rt.alloc(), is_big)?);
    }
    Ok(())
}

// Files that are no pcapng files.
const OTHERS: &[&[u8]] = &[
    b"",
    b"\n\r\r",
    b"\n\r\r\r and more",
    b"\xa1\xb2\xc3\xd4 and whatever else stands in it, for more than one read",
];

#[test]
fn other_files_as_they_are(rt: HostRuntime) -> Result<(), Fail> {
    for &bytes in OTHERS {
        assert!(rt; gives(rt.alloc(), bytes, bytes, None)?);
    }
    Ok(())
}

// ---- whole files

// Blocks in either order of bytes.
type Piece = (bool, &'static [&'static [Part]]);

// The pieces of a file, what it gives, and why it is refused. A packet whose second total length differs is given for all
// that. A section in the other order begins anew: it has no interface of the one before.
const FILES: &[(&str, &[Piece], &[&[u8]], Option<NgFault>)] = &[
    (
        "a refused trailer behind its packet",
        &[(
            true,
            &[
                SECTION,
                INTERFACE,
                &[
                    Four(6),
                    Four(36),
                    Four(0),
                    Four(0),
                    Four(1_000_002),
                    Four(2),
                    Four(60),
                    Bytes(&[7, 8, 0, 0]),
                    Four(32),
                ],
            ],
        )],
        &[HEADER, RECORD],
        Some(NgFault::BadBlock(48)),
    ),
    (
        "sections in both orders",
        &[
            (true, &[SECTION, INTERFACE, PACKET]),
            (false, &[SECTION, INTERFACE, PACKET, SIMPLE]),
            (true, &[SECTION, PACKET]),
        ],
        &[HEADER, RECORD, RECORD, SIMPLE_RECORD],
        Some(NgFault::BadBlock(216)),
    ),
];

fn is_file(
    alloc: Global,
    pieces: &[Piece],
    given: &[&[u8]],
    fault: Option<NgFault>,
) -> Result<bool, AllocError> {
    let mut bytes = Vec::new(alloc);
    for &(is_big, blocks) in pieces {
        put_all(&mut bytes, is_big, blocks)?;
    }
    gives(alloc, &bytes, &joined(alloc, given)?, fault)
}

#[test]
fn files_give_what_stands_before_their_refusal(rt: HostRuntime) -> Result<(), Fail> {
    for &(name, pieces, given, fault) in FILES {
        assert!(rt; is_file(rt.alloc(), pieces, given, fault)?, "{name}");
    }
    Ok(())
}

// ---- times

// The options of an interface, and the seconds and microseconds of the time 5 * 2^48 + 7.
const TIMES: &[(&str, &[Part], u32, u32)] = &[
    ("no options", &[], 0x53e2d623, 0x00087147),
    (
        "nanoseconds",
        &[Two(9), Two(1), Bytes(&[9, 0, 0, 0])],
        0x0015798e,
        0x000d7b61,
    ),
    (
        "milliseconds",
        &[Two(9), Two(1), Bytes(&[3, 0, 0, 0])],
        0xae147ae1,
        0x00046118,
    ),
    (
        "seconds",
        &[Two(9), Two(1), Bytes(&[0, 0, 0, 0])],
        0x00000007,
        0x00000000,
    ),
    (
        "a power of ten above each time",
        &[Two(9), Two(1), Bytes(&[39, 0, 0, 0])],
        0x00000000,
        0x00000000,
    ),
    (
        "2^-10 seconds",
        &[Two(9), Two(1), Bytes(&[138, 0, 0, 0])],
        0x00000000,
        0x00001ab3,
    ),
    (
        "2^-127 seconds",
        &[Two(9), Two(1), Bytes(&[255, 0, 0, 0])],
        0x00000000,
        0x00000000,
    ),
    (
        "behind another option",
        &[
            Two(2),
            Two(5),
            Bytes(&[1, 2, 3, 4, 5, 0, 0, 0]),
            Two(9),
            Two(1),
            Bytes(&[9, 0, 0, 0]),
        ],
        0x0015798e,
        0x000d7b61,
    ),
    (
        "behind an option without bytes",
        &[Two(2), Two(0), Two(9), Two(1), Bytes(&[9, 0, 0, 0])],
        0x0015798e,
        0x000d7b61,
    ),
    (
        "behind the end of the options",
        &[Two(0), Two(0), Two(9), Two(1), Bytes(&[9, 0, 0, 0])],
        0x53e2d623,
        0x00087147,
    ),
    (
        "of two the first",
        &[
            Two(9),
            Two(1),
            Bytes(&[3, 0, 0, 0]),
            Two(9),
            Two(1),
            Bytes(&[9, 0, 0, 0]),
        ],
        0xae147ae1,
        0x00046118,
    ),
    (
        "a value of two bytes",
        &[Two(9), Two(2), Bytes(&[9, 9, 0, 0])],
        0x53e2d623,
        0x00087147,
    ),
    (
        "a value past the block",
        &[Two(9), Two(1)],
        0x53e2d623,
        0x00087147,
    ),
    (
        "behind an option past the block",
        &[Two(2), Two(13), Two(9), Two(1), Bytes(&[9, 0, 0, 0])],
        0x53e2d623,
        0x00087147,
    ),
];

// An empty packet of sixty bytes at the time 5 * 2^48 + 7.
pub(crate) const TIMED: &[Part] = &[
    Four(6),
    Four(32),
    Four(0),
    Four(0x5_0000),
    Four(7),
    Four(0),
    Four(60),
    Four(32),
];

// A file of this packet, behind an interface with these options.
fn timed_file(alloc: Global, is_big: bool, options: &[Part]) -> Result<Vec<u8>, AllocError> {
    let len = u32::try_from(file(alloc, is_big, &[options])?.len()).unwrap_or(0);
    let size = len.wrapping_add(20);
    let interface = [Four(1), Four(size), Two(1), Two(0), Four(0)];
    file(
        alloc,
        is_big,
        &[SECTION, &interface, options, &[Four(size)], TIMED],
    )
}

// Whether the packet has this time.
fn has_time(
    alloc: Global,
    is_big: bool,
    options: &[Part],
    seconds: u32,
    fraction: u32,
) -> Result<bool, AllocError> {
    let bytes = timed_file(alloc, is_big, options)?;
    let parts = [
        Bytes(HEADER),
        Four(seconds),
        Four(fraction),
        Four(0),
        Four(60),
    ];
    let want = file(alloc, true, &[&parts])?;
    gives(alloc, &bytes, &want, None)
}

#[test]
fn times_in_the_unit_of_their_interface(rt: HostRuntime) -> Result<(), Fail> {
    for &(name, options, seconds, fraction) in TIMES {
        for is_big in [true, false] {
            assert!(rt;
                has_time(rt.alloc(), is_big, options, seconds, fraction)?,
                "{name}"
            );
        }
    }
    Ok(())
}

// ---- a handshake

// The link type, how many bytes of the file are left out, how many bytes it gives, and why it is refused.
const HANDSHAKES: &[(&str, u16, usize, usize, Option<NgFault>)] = &[
    ("whole", 1, 0, 234, None),
    ("without its last 60 bytes", 1, 60, 180, None),
    (
        "of another link type",
        113,
        0,
        24,
        Some(NgFault::BadLink(48)),
    ),
];

// The head of an enhanced packet of 54 bytes at time 0, and the head of its record.
const HEAD: &[Part] = &[
    Four(6),
    Four(88),
    Four(0),
    Four(0),
    Four(0),
    Four(54),
    Four(54),
];

const RECORD_HEAD: &[u8] = &[0, 0, 0, 0, 0, 0, 0, 0, 0, 0, 0, 54, 0, 0, 0, 54];

// The file of a handshake over this link type.
fn handshake(alloc: Global, is_big: bool, link: u16) -> Result<Vec<u8>, AllocError> {
    let interface = [
        Four(1),
        Four(20),
        Two(link),
        Two(0),
        Four(262_144),
        Four(20),
    ];
    let mut bytes = file(alloc, is_big, &[SECTION, &interface])?;
    for packet in &PACKETS {
        put_all(
            &mut bytes,
            is_big,
            &[HEAD, &[Bytes(packet), Two(0), Four(88)]],
        )?;
    }
    Ok(bytes)
}

// What the whole file gives.
fn records(alloc: Global) -> Result<Vec<u8>, AllocError> {
    let [first, second, third] = &PACKETS;
    let lists: [&[u8]; 7] = [
        HEADER,
        RECORD_HEAD,
        first,
        RECORD_HEAD,
        second,
        RECORD_HEAD,
        third,
    ];
    joined(alloc, &lists)
}

fn is_handshake(
    alloc: Global,
    is_big: bool,
    link: u16,
    left_out: usize,
    given: usize,
    fault: Option<NgFault>,
) -> Result<bool, AllocError> {
    let bytes = handshake(alloc, is_big, link)?;
    if bytes.len() != 312 {
        return Ok(false);
    }
    let want = records(alloc)?;
    gives(
        alloc,
        bytes.get(..312_usize.wrapping_sub(left_out)).unwrap_or(&[]),
        want.get(..given).unwrap_or(&[]),
        fault,
    )
}

#[test]
fn the_handshake(rt: HostRuntime) -> Result<(), Fail> {
    for &(name, link, left_out, given, fault) in HANDSHAKES {
        for is_big in [true, false] {
            assert!(rt;
                is_handshake(rt.alloc(), is_big, link, left_out, given, fault)?,
                "{name}"
            );
        }
    }
    Ok(())
}
