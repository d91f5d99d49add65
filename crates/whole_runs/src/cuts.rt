//! Captures that are cut off at each of their lengths, as the file `cuts` lists them: whole packets count, and the bytes behind
//! them are the tail.

use crate::runs::{Finished, bytes_of, cell, is_told, run, words_of};
use crate::tally::Tally;
use std::alloc::{AllocError, Global};
use std::rt::Files;
use std::sync::Wait;
use std::thread::Threads;
use std::{fs, io};

// A row of the list.
#[derive(Clone, Copy)]
struct Cut<'a> {
    name: &'a str,
    capture: &'a str,
    words: &'a str,
    // The report of the whole capture.
    report: &'a str,
    // How many lines of a report stand between its callbacks and its totals.
    fields: &'a str,
    // Where the header ends and each packet, and how many callbacks there are up to there.
    ends: &'a str,
}

fn cut_of<'a>(line: &'a str) -> Cut<'a> {
    let mut row = line;
    Cut {
        name: cell(&mut row),
        capture: cell(&mut row),
        words: cell(&mut row),
        report: cell(&mut row),
        fields: cell(&mut row),
        ends: cell(&mut row),
    }
}

// What is whole in a front of a capture.
#[derive(Clone, Copy)]
struct Front {
    packets: usize,
    callbacks: usize,
    tail: usize,
}

// What is whole in so many bytes, where the header is.
fn front_of(ends: &str, len: usize) -> Option<Front> {
    let mut packets = 0;
    let mut front = None;
    for line in ends.lines() {
        let (end, callbacks) = line.split_once(' ')?;
        let tail = len.checked_sub(end.parse().ok()?);
        let Some(tail) = tail else { break };
        front = Some(Front {
            packets,
            callbacks: callbacks.parse().ok()?,
            tail,
        });
        packets = packets.saturating_add(1);
    }
    front
}

// So many lines of a text, from its first one.
fn first_lines(text: &[u8], count: usize) -> &[u8] {
    let mut lines: usize = 0;
    for (at, byte) in text.iter().enumerate() {
        if lines == count {
            return text.get(..at).unwrap_or(text);
        }
        lines = lines.saturating_add(usize::from(*byte == b'\n'));
    }
    text
}

fn lines_in(text: &[u8]) -> usize {
    text.iter().filter(|byte| **byte == b'\n').count()
}

// The last line of a report.
fn totals(alloc: Global, front: Front) -> Result<String, AllocError> {
    let packets = front.packets;
    let records = packets.min(1);
    let callbacks = front.callbacks;
    let tail = front.tail;
    format!(in alloc;
        "end packets {packets} records {records} callbacks {callbacks} drops 0 tail {tail}\n"
    )
}

// A report of what is whole: lines of the whole report for its record and its callbacks, so many fields, and its totals.
fn is_report(out: &[u8], report: &[u8], fields: usize, front: Front, totals: &str) -> bool {
    let records = front.packets.min(1);
    let lines = first_lines(report, records.saturating_add(front.callbacks));
    let Some(behind) = out.strip_prefix(lines) else {
        return false;
    };
    match behind.strip_suffix(totals.as_bytes()) {
        Some(between) => {
            lines_in(between) == fields.saturating_mul(records)
                && (between.is_empty() || between.ends_with(b"\n"))
        }
        None => false,
    }
}

// Whether a run over so many bytes came to what it had to.
fn is_as_wanted(
    alloc: Global,
    run: &Finished,
    len: usize,
    front: Option<Front>,
    report: &[u8],
    fields: usize,
) -> Result<bool, AllocError> {
    let Some(front) = front else {
        let line = format!(in alloc; "mos: capture: short header at {len}")?;
        return Ok(run.ended.status == 3 && run.out.is_empty() && is_told(&run.err, &line));
    };
    let totals = totals(alloc, front)?;
    Ok(
        run.ended.status == 0
            && run.err.is_empty()
            && is_report(&run.out, report, fields, front, &totals),
    )
}

fn run_cut<R: AllocGlobal + Files + Print + Threads + Wait + Sync + Send + Copy + Drop + 'static>(
    rt: &R,
    cut: &Cut<'_>,
    tally: &mut Tally,
) -> io::Result<()> {
    let alloc = rt.alloc();
    let capture = bytes_of(rt, cut.capture)?;
    let report = fs::read(rt, cut.report)?;
    let ends = fs::read_to_string(rt, cut.ends)?;
    let fields = cut.fields.parse().unwrap_or(0);
    for len in 0..=capture.len() {
        let words = words_of(alloc, cut.words)?;
        let run = run(rt, Ok(words), &capture[..len]);
        let is_as_wanted = is_as_wanted(alloc, &run, len, front_of(&ends, len), &report, fields)?;
        tally.count(rt, cut.name, len, is_as_wanted)?;
    }
    Ok(())
}

/// Runs each capture of the list at each of its lengths. Empty lines and those that begin with `#` are none.
pub fn run_cuts<
    R: AllocGlobal + Files + Print + Threads + Wait + Sync + Send + Copy + Drop + 'static,
>(rt: &R, tally: &mut Tally) -> io::Result<()> {
    let list = fs::read_to_string(rt, "cuts")?;
    for line in list.lines() {
        if !line.is_empty() && !line.starts_with('#') {
            run_cut(rt, &cut_of(line), tally)?;
        }
    }
    Ok(())
}
