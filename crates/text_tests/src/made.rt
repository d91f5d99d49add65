//! The generated capture, against bytes that were worked out from its table and sums that another program made.

ghost use Rattle.std.specs.Prelude.{◌≤◌};

use crate::captures::read;
use capture_maker::Maker;
use mos_bytes::{Source, fill};
use pcap_source::Step;
use std::alloc::{AllocError, Global};
use std::test::Fail;

// The client's SYN of connection 0, which is packet 0.
const FIRST_SYN: [u8; 70] = [
    0, 0, 0, 0, 0, 0, 0, 0, 0, 0, 0, 0x36, 0, 0, 0, 0x36, // time 0, 54 bytes of 54
    2, 0, 0, 0, 0, 2, 2, 0, 0, 0, 0, 1, 8, 0, // to the server's side
    0x45, 0, 0, 0x28, 0, 0, 0x40, 0, 0x40, 6, 0, 0, 10, 0, 0, 1, 192, 0, 2, 1, // 40 bytes
    4, 0, 0, 80, 0, 0, 0, 0, 0, 0, 0, 0, 0x50, 0x02, 0xff, 0xff, 0, 0, 0, 0,
];

// The server's answer, packet 1.
const FIRST_ANSWER: [u8; 70] = [
    0, 0, 0, 0, 0, 0, 3, 0xe8, 0, 0, 0, 0x36, 0, 0, 0, 0x36, // 1,000 microseconds
    2, 0, 0, 0, 0, 1, 2, 0, 0, 0, 0, 2, 8, 0, // to the client's side
    0x45, 0, 0, 0x28, 0, 0, 0x40, 0, 0x40, 6, 0, 0, 192, 0, 2, 1, 10, 0, 0, 1, // 40 bytes
    0, 80, 4, 0, 0x80, 0, 0, 0, 0, 0, 0, 1, 0x50, 0x12, 0xff, 0xff, 0, 0, 0, 0,
];

// The second half of the server's bytes, packet 4, up to position 103.
const LATE_HALF: [u8; 74] = [
    0, 0, 0, 0, 0, 0, 0xf, 0xa0, 0, 0, 0, 0x9a, 0, 0, 0, 0x9a, // 154 bytes of 154
    2, 0, 0, 0, 0, 1, 2, 0, 0, 0, 0, 2, 8, 0, // to the client's side
    0x45, 0, 0, 0x8c, 0, 0, 0x40, 0, 0x40, 6, 0, 0, 192, 0, 2, 1, 10, 0, 0, 1, // 140 bytes
    0, 80, 4, 0, 0x80, 0, 0, 0x65, 0, 0, 0, 0x41, 0x50, 0x18, 0xff, 0xff, 0, 0, 0, 0, // J + 101, I + 65
    0x2c, 0x2f, 0x32, 0x35, // three times 100 less 256, and on by threes
];

// The SYN of connection 16, packet 160, which begins the second group.
const SECOND_GROUP: [u8; 70] = [
    0, 0, 0, 0, 0, 2, 0x71, 0, 0, 0, 0, 0x36, 0, 0, 0, 0x36, // 160,000 microseconds
    2, 0, 0, 0, 0, 2, 2, 0, 0, 0, 0, 1, 8, 0, // to the server's side
    0x45, 0, 0, 0x28, 0, 0, 0x40, 0, 0x40, 6, 0, 0, 10, 0, 0, 17, 192, 0, 2, 1, // 40 bytes
    4, 16, 0, 80, 0xe3, 0x77, 0x9b, 0x10, 0, 0, 0, 0, 0x50, 0x02, 0xff, 0xff, 0, 0, 0, 0,
];

// How many connections a capture has, a place in it, and the bytes that stand there.
const FRAMES: &[(&str, u32, usize, &[u8])] = &[
    ("the first SYN", 1, 24, &FIRST_SYN),
    ("the first answer", 1, 94, &FIRST_ANSWER),
    ("the late half", 1, 368, &LATE_HALF),
    ("the second group", 17, 17_048, &SECOND_GROUP),
];

// Whether a capture has these bytes at this place.
fn has(alloc: Global, n: u32, place: usize, want: &[u8]) -> Result<bool, AllocError>
    requires { n ≤ 100000 }
{
    let end = place.saturating_add(want.len());
    let mut bytes = vec![in alloc; 0; end]?;
    Ok(fill(&mut Maker::new(n), &mut bytes) == Ok(end) && bytes.get(place..) == Some(want))
}

#[test]
fn frames_are_those_of_the_table(rt: HostRuntime) -> Result<(), Fail> {
    for &(name, n, place, want) in FRAMES {
        assert!(rt; has(rt.alloc(), n, place, want)?, "{name}");
    }
    Ok(())
}

// How many connections a capture has, its size, and a number that depends on every byte and its place.
const WHOLE: &[(&str, u32, usize, u32)] = &[
    ("one connection", 1, 1_088, 2_044_074_718),
    ("9 connections", 9, 9_600, 3_194_439_541),
    ("10 connections", 10, 10_664, 3_261_617_131),
    ("11 connections", 11, 11_728, 2_922_506_136),
    ("a whole group", 16, 17_048, 1_091_345_060),
    ("a connection of a second group", 17, 18_112, 1_784_227_150),
    (
        "a connection of a seventh group",
        101,
        107_488,
        2_759_550_833,
    ),
];

fn mixed(bytes: &[u8]) -> u32 {
    let mut sum: u32 = 0;
    for byte in bytes {
        sum = sum.wrapping_mul(31).wrapping_add(u32::from(*byte));
    }
    sum
}

// Whether a capture has this size, and its bytes this number.
fn is_whole(alloc: Global, n: u32, size: usize, want: u32) -> Result<bool, AllocError>
    requires { n ≤ 100000 }
{
    let mut bytes = vec![in alloc; 0; 120_000]?;
    let mut maker = Maker::new(n);
    Ok(
        maker.size() == size as u64
            && fill(&mut maker, &mut bytes) == Ok(size)
            && bytes.get(..size).is_some_and(|whole| mixed(whole) == want),
    )
}

#[test]
fn captures_are_those_of_another_program(rt: HostRuntime) -> Result<(), Fail> {
    for &(name, n, size, want) in WHOLE {
        assert!(rt; is_whole(rt.alloc(), n, size, want)?, "{name}");
    }
    Ok(())
}

// How much room each read has.
const ROOMS: &[(&str, usize)] = &[
    ("a byte", 1),
    ("seven bytes", 7),
    ("a byte more than the header", 25),
    ("a byte more than the longest record", 171),
    ("several records", 5_000),
];

// Whether a read with this room, filled as far as may be, gives these bytes.
fn gives(maker: &mut Maker, room: &mut [u8], want: &[u8]) -> bool {
    fill(maker, room) == Ok(want.len()) && room.get(..want.len()) == Some(want)
}

// Whether reads with so much room give these bytes, and then none.
fn gives_in_pieces(whole: &[u8], piece: &mut [u8], room: usize) -> bool
    requires { 1 ≤ room }
{
    let mut maker = Maker::new(17);
    for want in whole.chunks(room) {
        if !gives(&mut maker, piece, want) {
            return false;
        }
    }
    maker.read(piece) == Ok(0)
}

// The same of the bytes of one read of all.
fn comes_in_pieces(alloc: Global, room: usize) -> Result<bool, AllocError>
    requires { 1 ≤ room }
{
    let mut whole = vec![in alloc; 0; 18_112]?;
    let mut piece = vec![in alloc; 0; room]?;
    Ok(
        fill(&mut Maker::new(17), &mut whole) == Ok(18_112)
            && gives_in_pieces(&whole, &mut piece, room),
    )
}

#[test]
fn reads_of_any_length_give_the_same_bytes(rt: HostRuntime) -> Result<(), Fail> {
    for &(name, room) in ROOMS {
        assert!(rt; comes_in_pieces(rt.alloc(), room)?, "{name}");
    }
    Ok(())
}

#[test]
fn the_reader_takes_all_packets(rt: HostRuntime) {
    assert!(rt; read(rt.alloc(), &mut Maker::new(17)) == Ok((170, Ok(Step::End))));
}
