//! Files: a folder as a shelf, an open file as a source and as a sink.

use crate::memory::shown;
use mos_bytes::{FetchError, FolderShelf, ReadSource, Shelf, Sink, Source, WriteSink, fill};
use std::rt::Files;
use std::test::Fail;
use std::{fs, io};

// Two lines of a script, and one of another.
const SCRIPT: &[u8] = b"event 1 under pkt_in len > 100\nreg 16 1 snd\n";

const OTHER: &[u8] = b"rule 1 pass\n";

// One byte more than a read of a content takes.
const LONG: [u8; 4_097] = [b'x'; 4_097];

// What lies in the folder.
const FOLDER: &[(&str, &[u8])] = &[
    ("script.mos", SCRIPT),
    ("other.mos", OTHER),
    ("empty.mos", b""),
    ("long.mos", &LONG),
];

// The name that is fetched, the limit, and the answer. One shelf fetches all, and goes on after its faults.
const FETCHES: &[(&str, &str, usize, Result<&[u8], FetchError>)] = &[
    ("two lines", "script.mos", 1_000, Ok(SCRIPT)),
    ("as long as the limit", "script.mos", 44, Ok(SCRIPT)),
    (
        "a byte over the limit",
        "script.mos",
        43,
        Err(FetchError::TooLong),
    ),
    ("another file", "other.mos", 1_000, Ok(OTHER)),
    ("no bytes", "empty.mos", 0, Ok(b"")),
    ("more than one read", "long.mos", 4_097, Ok(&LONG)),
    (
        "the last byte of several reads over the limit",
        "long.mos",
        4_096,
        Err(FetchError::TooLong),
    ),
    (
        "a name that isn't there",
        "missing.mos",
        1_000,
        Err(FetchError::Failed),
    ),
    ("a folder", ".", 1_000, Err(FetchError::Failed)),
    ("a file elsewhere", "/dev/null", 0, Ok(b"")),
    (
        "a file without end",
        "/dev/zero",
        100_000,
        Err(FetchError::TooLong),
    ),
];

fn lay_files(rt: &impl Files) -> io::Result<()> {
    for &(name, content) in FOLDER {
        fs::write(rt, name, content)?;
    }
    Ok(())
}

fn clear_files(rt: &impl Files) -> io::Result<()> {
    for &(name, _) in FOLDER {
        fs::remove_file(rt, name)?;
    }
    Ok(())
}

#[test]
fn a_folder_as_a_shelf(rt: HostRuntime) {
    assert!(rt; lay_files(&rt).is_ok(), "the files are written");
    let mut shelf = FolderShelf::new(&rt);
    for &(name, wanted, limit, want) in FETCHES {
        let fetched = shelf.fetch(rt.alloc(), wanted, limit);
        assert!(rt; shown(&fetched) == want, "{name}");
    }
    assert!(rt; clear_files(&rt).is_ok(), "the files are removed");
}

const FILE: &str = "written.pcap";

// More than a source over a reader reads ahead.
const PIECE: [u8; 20_000] = [7; 20_000];

// Whether a sink takes a short piece, an empty one, and a long one.
fn takes_all<S: Sink>(sink: &mut S) -> bool {
    sink.write_all(b"front").is_ok()
        && sink.write_all(b"").is_ok()
        && sink.write_all(&PIECE).is_ok()
}

fn is_written<R: Files>(rt: &R) -> io::Result<bool> {
    Ok(takes_all(&mut WriteSink::new(fs::create(rt, FILE)?)))
}

// Whether a source gives the short piece.
fn gives_front<S: Source>(source: &mut S) -> bool {
    let mut front = [0; 5];
    fill(source, &mut front) == Ok(5) && front == *b"front"
}

// Whether a source gives the long piece, and then nothing.
fn gives_rest<S: Source>(source: &mut S) -> bool {
    let mut rest = [0; 20_001];
    fill(source, &mut rest) == Ok(20_000)
        && rest.get(..20_000) == Some(PIECE.as_slice())
        && fill(source, &mut rest) == Ok(0)
}

fn is_read_back<R: Files>(rt: &R) -> io::Result<bool> {
    let mut source = ReadSource::new(fs::open(rt, FILE)?);
    Ok(gives_front(&mut source) && gives_rest(&mut source))
}

#[test]
fn a_file_is_written_and_read_back(rt: HostRuntime) -> Result<(), Fail> {
    assert!(rt; is_written(&rt)?, "written");
    assert!(rt; is_read_back(&rt)?, "read back");
    fs::remove_file(&rt, FILE)?;
    Ok(())
}
