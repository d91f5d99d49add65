//! Readers of std as sources, and its writers as sinks.

use mos_bytes::{Failed, ReadSource, Sink, Source, WriteSink, fill};
use std::io::{Error, ErrorKind, Read, Result, Write};

// A reader whose reads fail, and a writer that takes all and can't hand it on.
#[derive(Drop)]
struct Broken;

impl Read for Broken {
    fn read(&mut self, _: &mut [u8]) -> Result<usize> {
        Err(Error::from(ErrorKind::Other))
    }
}

impl Write for Broken {
    fn write(&mut self, buf: &[u8]) -> Result<usize> {
        Ok(buf.len())
    }

    fn flush(&mut self) -> Result<()> {
        Err(Error::from(ErrorKind::Other))
    }
}

// A reader that gives up to so many bytes at once.
#[derive(Drop)]
pub(crate) struct Piecewise<'a> {
    pub(crate) left: &'a [u8],
    pub(crate) piece: usize,
}

impl<'a> Read for Piecewise<'a> {
    fn read(&mut self, buf: &mut [u8]) -> Result<usize> {
        let most = self.piece.min(buf.len());
        self.left.read(&mut buf[..most])
    }
}

// Whether a read of three gives as many bytes, and leaves two at hand.
fn reads_ahead(source: &mut ReadSource<&[u8]>, buf: &mut [u8; 3]) -> bool {
    source.at_hand().is_empty()
        && source.read(buf) == Ok(3)
        && source.at_hand() == [4, 5].as_slice()
}

// Whether five bytes are read ahead by the first read of three, and given by the next.
fn is_read_ahead(bytes: &[u8]) -> bool {
    let mut source = ReadSource::new(bytes);
    let mut buf = [0; 3];
    reads_ahead(&mut source, &mut buf) && fill(&mut source, &mut buf) == Ok(2) && buf == [4, 5, 3]
}

#[test]
fn a_reader_as_a_source(rt: HostRuntime) {
    assert!(rt; is_read_ahead(&[1, 2, 3, 4, 5]), "bytes in memory");
    assert!(rt;
        ReadSource::new(Broken).read(&mut [0; 3]) == Err(Failed),
        "a reader that fails"
    );
}

// What each write into a room of four bytes answers.
const WRITES: &[(&str, &[u8], std::result::Result<(), Failed>)] = &[
    ("a piece that has room", b"abc", Ok(())),
    ("an empty piece", b"", Ok(())),
    ("a piece of which a byte has room", b"de", Err(Failed)),
];

// A writer that has no room takes nothing of a piece that isn't empty.
#[test]
fn a_writer_as_a_sink(rt: HostRuntime) {
    let mut room = [0; 4];
    let mut sink = WriteSink::new(room.as_mut_slice());
    for &(name, piece, want) in WRITES {
        assert!(rt; sink.write_all(piece) == want, "{name}");
    }
    assert!(rt; room == *b"abcd", "what the room holds");
}

#[test]
fn a_flush_that_fails(rt: HostRuntime) {
    assert!(rt; WriteSink::new(Broken).write_all(b"abc") == Err(Failed));
}
