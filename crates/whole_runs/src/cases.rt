//! The runs that the file `cases` lists.

use crate::runs::{Finished, bytes_of, cell, is_told, run, words_of};
use crate::tally::Tally;
use std::alloc::{AllocError, Global};
use std::rt::Files;
use std::sync::Wait;
use std::thread::Threads;
use std::{fs, io};

// A row of the list.
#[derive(Clone, Copy)]
struct Case<'a> {
    name: &'a str,
    capture: &'a str,
    words: &'a str,
    // A number of workers for each run, or none where the words stand as they are.
    workers: &'a str,
    status: &'a str,
    // The file that is wanted on the output, or none. Behind `..` it is what the output ends with.
    output: &'a str,
    // The versions that are wanted, or none where any will do.
    versions: &'a str,
    told: &'a str,
}

fn case_of<'a>(line: &'a str) -> Case<'a> {
    let mut row = line;
    Case {
        name: cell(&mut row),
        capture: cell(&mut row),
        words: cell(&mut row),
        workers: cell(&mut row),
        status: cell(&mut row),
        output: cell(&mut row),
        versions: cell(&mut row),
        // The usage line has bars of its own.
        told: row.trim_ascii(),
    }
}

// Whether these are the versions of a cell: numbers between blanks, or `none`.
fn are_versions(versions: &[u32], wanted: &str) -> bool {
    if wanted == "none" {
        return versions.is_empty();
    }
    let mut left = versions;
    for word in wanted.split_whitespace() {
        match left.split_first() {
            Some((version, rest)) if word.parse::<u32>() == Ok(*version) => left = rest,
            _ => return false,
        }
    }
    wanted.is_empty() || left.is_empty()
}

// The file that an output's cell names.
fn file_of(cell: &str) -> &str {
    cell.strip_prefix("..").unwrap_or(cell).trim_ascii()
}

// Whether the output is what its cell wants, whose file has these bytes.
fn is_output(out: &[u8], cell: &str, bytes: &[u8]) -> bool {
    if cell.starts_with("..") {
        return out.ends_with(bytes);
    }
    out == bytes
}

// Of a capture nothing is read where words or script are refused.
fn is_as_wanted(case: &Case<'_>, run: &Finished, len: usize, output: &[u8]) -> bool {
    let status = run.ended.status;
    case.status.parse::<u8>() == Ok(status)
        && is_output(run.out.as_slice(), case.output, output)
        && is_told(run.err.as_slice(), case.told)
        && are_versions(run.ended.versions.as_slice(), case.versions)
        && (run.unread == len || (status != 1 && status != 2))
}

// The words of a case, with so many workers where a number of them is given.
fn words_by(alloc: Global, case: &Case<'_>, workers: &str) -> Result<Vec<String>, AllocError> {
    let mut words = words_of(alloc, case.words)?;
    if !workers.is_empty() {
        words.push(String::from_str(alloc, "--workers")?)?;
        words.push(String::from_str(alloc, workers)?)?;
    }
    Ok(words)
}

fn run_case<R: AllocGlobal + Files + Print + Threads + Wait + Sync + Send + Copy + Drop + 'static>(
    rt: &R,
    case: &Case<'_>,
    tally: &mut Tally,
) -> io::Result<()> {
    let capture = bytes_of(rt, case.capture)?;
    let output = match file_of(case.output) {
        "" => Vec::new(rt.alloc()),
        file => fs::read(rt, file)?,
    };
    for workers in case.workers.split(' ') {
        let words = words_by(rt.alloc(), case, workers)?;
        let run = run(rt, Ok(words), &capture);
        let is_as_wanted = is_as_wanted(case, &run, capture.len(), &output);
        tally.count(rt, case.name, workers.parse().unwrap_or(0), is_as_wanted)?;
    }
    Ok(())
}

/// Runs each case of the list. Empty lines and those that begin with `#` are none.
pub fn run_cases<
    R: AllocGlobal + Files + Print + Threads + Wait + Sync + Send + Copy + Drop + 'static,
>(rt: &R, tally: &mut Tally) -> io::Result<()> {
    let list = fs::read_to_string(rt, "cases")?;
    for line in list.lines() {
        if !line.is_empty() && !line.starts_with('#') {
            run_case(rt, &case_of(line), tally)?;
        }
    }
    Ok(())
}
