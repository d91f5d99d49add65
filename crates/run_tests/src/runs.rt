//! Runs over any source and output, with the functions of the six native filters.

use mos_bytes::{MemShelf, MemSink, MemSource, Sink, Source};
use mos_program::own_natives;
use mos_run::{Ended, Gate, GatheredRun, OpenGate, run_gathered, run_mos};
use native_filters::NativeBook;
use std::alloc::{AllocError, Global};
use std::process::Abort;
use std::sync::Wait;
use std::thread::Threads;

// No call fails.
pub const NEVER: u64 = u64::MAX;

// The words of a run, its script if they name one, and the fetch that fails.
#[derive(Clone, Copy)]
pub struct Asked<'a> {
    pub words: &'a str,
    pub script: &'a str,
    pub fetch: u64,
}

pub fn in_words<'a>(words: &'a str) -> Asked<'a> {
    Asked {
        words,
        script: "",
        fetch: NEVER,
    }
}

fn natives() -> NativeBook {
    own_natives!()
}

fn words_of(alloc: Global, line: &str) -> Result<Vec<String>, AllocError> {
    let mut words = Vec::new(alloc);
    for word in line.split_whitespace() {
        words.push(String::from_str(alloc, word)?)?;
    }
    Ok(words)
}

// A shelf with one script, named `script`.
fn shelf_of(alloc: Global, text: &str, fetch: u64) -> Result<MemShelf, AllocError> {
    let mut names = Vec::new(alloc);
    let mut contents = Vec::new(alloc);
    names.push(String::from_str(alloc, "script")?)?;
    contents.push(text.as_bytes().to_vec(alloc)?)?;
    Ok(MemShelf::new(names, contents, [fetch].to_vec(alloc)?))
}

// A sink whose call of this number fails.
pub fn sink<R: AllocGlobal + Abort>(rt: &R, room: usize, fails: u64) -> MemSink {
    let room = vec![in rt.alloc(); 0; room].expect(rt, "memory");
    let fails = [fails].to_vec(rt.alloc()).expect(rt, "memory");
    MemSink::new(room, fails)
}

// A source whose call of this number fails.
pub fn source<R: AllocGlobal + Abort>(rt: &R, bytes: &[u8], fails: u64) -> MemSource {
    let bytes = bytes.to_vec(rt.alloc()).expect(rt, "memory");
    let fails = [fails].to_vec(rt.alloc()).expect(rt, "memory");
    MemSource::new(bytes, fails)
}

// How a run ended, and what it told.
#[derive(Drop)]
pub struct Finished {
    pub ended: Ended,
    pub err: MemSink,
}

pub fn run<
    R: AllocGlobal + Abort + Threads + Wait + Sync + Send + Copy + Drop + 'static,
    S: Source,
    O: Sink,
    G: Gate + Sync,
>(rt: &R, asked: Asked<'_>, source: &mut S, out: &mut O, gate: &G) -> Finished {
    let alloc = rt.alloc();
    let words = words_of(alloc, asked.words).expect(rt, "memory");
    let mut shelf = shelf_of(alloc, asked.script, asked.fetch).expect(rt, "memory");
    let mut err = sink(rt, 160, 9);
    let ended = run_mos(
        rt,
        alloc,
        words.as_slice(),
        source,
        &mut shelf,
        out,
        &mut err,
        &natives(),
        gate,
    );
    Finished { ended, err }
}

// The same by the call that gathers what is written, with the output that it gives back.
pub fn run_gathering<
    R: AllocGlobal + Abort + Threads + Wait + Sync + Send + Copy + Drop + 'static,
    S: Source,
    O: Sink + Drop,
>(rt: &R, asked: Asked<'_>, source: &mut S, out: O) -> (Finished, O) {
    let alloc = rt.alloc();
    let words = words_of(alloc, asked.words).expect(rt, "memory");
    let mut shelf = shelf_of(alloc, asked.script, asked.fetch).expect(rt, "memory");
    let mut err = sink(rt, 160, 9);
    let GatheredRun { ended, out } = run_gathered(
        rt,
        alloc,
        words.as_slice(),
        source,
        &mut shelf,
        out,
        &mut err,
        &natives(),
        &OpenGate,
    );
    (Finished { ended, err }, out)
}

// Whether a run ended with this status and this line on err.
pub fn ended_so(run: &Finished, status: u8, told: &str) -> bool {
    run.ended.status == status && run.err.bytes() == told.as_bytes()
}
