//! Sources, sinks and shelves in memory.

ghost use Rattle.std.specs.Prelude.{◌≤◌};

use mos_bytes::{Failed, FetchError, MemShelf, MemSink, MemSource, Shelf, Sink, Source, fill};
use std::alloc::{AllocError, Global};
use std::test::Fail;

// A source of these bytes, whose call of this number fails.
pub(crate) fn source(alloc: Global, bytes: &[u8], fails: u64) -> Result<MemSource, AllocError> {
    Ok(MemSource::new(bytes.to_vec(alloc)?, [fails].to_vec(alloc)?))
}

// A sink with so much room, whose call of this number fails.
pub(crate) fn sink(alloc: Global, room: usize, fails: u64) -> Result<MemSink, AllocError> {
    Ok(MemSink::new(vec![in alloc; 0; room]?, [fails].to_vec(alloc)?))
}

// What each read of three bytes answers, and what then stands in the room for them. There are five bytes.
const READS: &[(&str, Result<usize, Failed>, [u8; 3])] = &[
    ("three bytes", Ok(3), [1, 2, 3]),
    ("the listed call", Err(Failed), [1, 2, 3]),
    ("the rest", Ok(2), [4, 5, 3]),
    ("the end", Ok(0), [4, 5, 3]),
];

// A call that fails leaves the bytes for the next call.
#[test]
fn a_source_fails_at_its_listed_calls(rt: HostRuntime) -> Result<(), Fail> {
    let mut source = source(rt.alloc(), &[1, 2, 3, 4, 5], 1)?;
    let mut buf = [0; 3];
    for &(name, count, bytes) in READS {
        assert!(rt; source.read(&mut buf) == count && buf == bytes, "{name}");
    }
    Ok(())
}

// What each fill of five bytes answers. There are three bytes, and a fill reads on until one is refused or none is left.
const FILLS: &[(&str, Result<usize, Failed>)] = &[
    ("the second read fails", Err(Failed)),
    ("nothing is left", Ok(0)),
];

#[test]
fn fill_reads_to_the_end(rt: HostRuntime) -> Result<(), Fail> {
    let mut source = source(rt.alloc(), &[1, 2, 3], 1)?;
    let mut buf = [0; 5];
    for &(name, count) in FILLS {
        assert!(rt;
            fill(&mut source, &mut buf) == count && buf == [1, 2, 3, 0, 0],
            "{name}"
        );
    }
    Ok(())
}

const FORTY: &[u8; 40] = b"abcdefghijklmnopqrstuvwxyz0123456789ABCD";

// The longest piece, and how much a read with room for 30 bytes gives.
const PIECES: &[(&str, usize, usize)] = &[
    ("a byte at a time", 1, 1),
    ("seven bytes at a time", 7, 7),
    ("a piece longer than the room", 4_096, 30),
];

// Whether a read gives the first so many bytes, and all others stay at hand.
fn gives_first(source: &mut MemSource, first: usize) -> bool {
    let mut buf = [0; 30];
    source.read(&mut buf) == Ok(first)
        && buf.get(..first) == FORTY.get(..first)
        && Some(source.at_hand()) == FORTY.get(first..)
}

// Whether a fill gives all bytes but the first so many.
fn gives_others(source: &mut MemSource, first: usize) -> bool {
    let mut rest = [0; 50];
    let left = 40_usize.wrapping_sub(first);
    fill(source, &mut rest) == Ok(left) && rest.get(..left) == FORTY.get(first..)
}

// Whether a first read gives so many bytes, and a fill the others.
fn comes_in_pieces(alloc: Global, piece: usize, first: usize) -> Result<bool, AllocError>
    requires { 1 ≤ piece }
{
    let mut source = MemSource::new(FORTY.to_vec(alloc)?, Vec::new(alloc)).cut(piece);
    Ok(gives_first(&mut source, first) && gives_others(&mut source, first))
}

#[test]
fn a_source_in_pieces(rt: HostRuntime) -> Result<(), Fail> {
    for &(name, piece, first) in PIECES {
        assert!(rt; comes_in_pieces(rt.alloc(), piece, first)?, "{name}");
    }
    Ok(())
}

// The room, the call that fails, and what three pieces of three bytes leave in the room.
const WRITES: &[(&str, usize, u64, &[u8])] = &[
    ("the first call fails", 9, 0, b"adefghi"),
    ("the second call fails", 9, 1, b"abcdghi"),
    ("the third call fails", 9, 2, b"abcdefg"),
    ("no call fails", 9, 3, b"abcdefghi"),
    ("no room for the third", 7, 3, b"abcdef"),
    ("no room for the third, which is to fail", 7, 2, b"abcdef"),
];

fn holds(alloc: Global, room: usize, fails: u64, want: &[u8]) -> Result<bool, AllocError> {
    let mut sink = sink(alloc, room, fails)?;
    for piece in [b"abc", b"def", b"ghi"] {
        let _ = sink.write_all(piece);
    }
    Ok(sink.bytes() == want)
}

// A listed call takes the first half of its piece, and one without room takes nothing.
#[test]
fn a_sink_takes_half_or_nothing(rt: HostRuntime) -> Result<(), Fail> {
    for &(name, room, fails, want) in WRITES {
        assert!(rt; holds(rt.alloc(), room, fails, want)?, "{name}");
    }
    Ok(())
}

// Of two contents under one name the first counts.
const CONTENTS: &[(&str, &[u8])] = &[("rules", b"abc"), ("empty", b""), ("rules", b"de")];

// The name that is fetched, the limit, and the answer. The second call is listed.
const FETCHES: &[(&str, &str, usize, Result<&[u8], FetchError>)] = &[
    ("as long as the limit", "rules", 3, Ok(b"abc")),
    ("the listed call", "rules", 3, Err(FetchError::Failed)),
    (
        "longer than the limit",
        "rules",
        2,
        Err(FetchError::TooLong),
    ),
    (
        "a name that isn't there",
        "rule",
        3,
        Err(FetchError::Failed),
    ),
    ("no bytes", "empty", 0, Ok(b"")),
    ("once more", "rules", 3, Ok(b"abc")),
];

// What was fetched, or why nothing was.
pub(crate) fn shown(fetched: &Result<Vec<u8>, FetchError>) -> Result<&[u8], FetchError> {
    match fetched {
        Ok(bytes) => Ok(bytes.as_slice()),
        Err(error) => Err(*error),
    }
}

fn shelf(alloc: Global) -> Result<MemShelf, AllocError> {
    let mut names = Vec::new(alloc);
    let mut contents = Vec::new(alloc);
    for &(name, content) in CONTENTS {
        names.push(String::from_str(alloc, name)?)?;
        contents.push(content.to_vec(alloc)?)?;
    }
    Ok(MemShelf::new(names, contents, [1].to_vec(alloc)?))
}

#[test]
fn a_shelf_fails_at_its_listed_calls(rt: HostRuntime) -> Result<(), Fail> {
    let mut shelf = shelf(rt.alloc())?;
    for &(name, wanted, limit, want) in FETCHES {
        let fetched = shelf.fetch(rt.alloc(), wanted, limit);
        assert!(rt; shown(&fetched) == want, "{name}");
    }
    Ok(())
}
