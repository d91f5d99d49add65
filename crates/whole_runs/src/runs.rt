//! One run of the program over bytes in memory, and what it needs.

use mos_bytes::{FolderShelf, ReadSource, WriteSink};
use mos_program::run_program;
use mos_run::Ended;
use std::alloc::{AllocError, Global};
use std::rt::Files;
use std::sync::Wait;
use std::thread::Threads;
use std::{fs, io};

/// What a run came to.
#[derive(Drop)]
pub struct Finished {
    pub ended: Ended,
    pub out: Vec<u8>,
    pub err: Vec<u8>,
    /// How much of the capture wasn't read.
    pub unread: usize,
}

/// Runs the program over a capture.
pub fn run<R: AllocGlobal + Files + Threads + Wait + Sync + Send + Copy + Drop + 'static>(
    rt: &R,
    words: io::Result<Vec<String>>,
    capture: &[u8],
) -> Finished {
    let mut left = capture;
    let mut out = Vec::new(rt.alloc());
    let mut err = Vec::new(rt.alloc());
    let ended = run_program(
        rt,
        words,
        &mut ReadSource::new(&mut left),
        &mut FolderShelf::new(*rt),
        WriteSink::new(&mut out),
        &mut WriteSink::new(&mut err),
    )
    .ended;
    Finished {
        ended,
        out,
        err,
        unread: left.len(),
    }
}

/// The words of a line, between blanks.
pub fn words_of(alloc: Global, line: &str) -> Result<Vec<String>, AllocError> {
    let mut words = Vec::new(alloc);
    for word in line.split_whitespace() {
        words.push(String::from_str(alloc, word)?)?;
    }
    Ok(words)
}

/// The bytes of `FILE`, or those of `FILE + N x FILE ..`, which has the others so many times behind the first.
pub fn bytes_of(rt: &(impl Files + AllocGlobal), recipe: &str) -> io::Result<Vec<u8>> {
    let mut pieces = recipe.split(" + ");
    let mut bytes = match pieces.next() {
        Some(file) => fs::read(rt, file)?,
        None => Vec::new(rt.alloc()),
    };
    for piece in pieces {
        if let Some((times, file)) = piece.split_once(" x ") {
            let piece = fs::read(rt, file)?;
            for _ in 0..times.parse::<u32>().unwrap_or(0) {
                bytes.extend_from_slice(&piece)?;
            }
        }
    }
    Ok(bytes)
}

/// Whether a line was told, or nothing where it is empty.
pub fn is_told(err: &[u8], line: &str) -> bool {
    match err.strip_suffix(b"\n") {
        Some(told) => !line.is_empty() && told == line.as_bytes(),
        None => line.is_empty() && err.is_empty(),
    }
}

/// The next cell of a row, whose cells stand between bars.
pub fn cell<'a>(row: &mut &'a str) -> &'a str {
    match row.split_once('|') {
        Some((front, rest)) => {
            *row = rest;
            front.trim_ascii()
        }
        None => {
            let last = *row;
            *row = "";
            last.trim_ascii()
        }
    }
}
