//! Words that the process can't be asked for: one that is no text, and words for which memory was refused.

use crate::runs::{is_told, run};
use crate::tally::Tally;
use std::io;
use std::rt::Files;
use std::sync::Wait;
use std::thread::Threads;

const UNREAD: [(&str, io::ErrorKind, u8, &str); 2] = [
    (
        "a word that is no text",
        io::ErrorKind::InvalidData,
        1,
        "mos: usage: mos [--app log|acct|rexmit|firewall] [--workers N] [--script NAME] [--emit report|forward] [--make N]",
    ),
    (
        "words for which memory is refused",
        io::ErrorKind::OutOfMemory,
        6,
        "mos: no memory",
    ),
];

/// Runs the program over each.
pub fn run_unread_words<
    R: AllocGlobal + Files + Print + Threads + Wait + Sync + Send + Copy + Drop + 'static,
>(rt: &R, tally: &mut Tally) -> io::Result<()> {
    for (name, kind, status, line) in UNREAD {
        let run = run(rt, Err(io::Error::from(kind)), b"");
        let is_as_wanted = run.ended.status == status
            && run.out.is_empty()
            && is_told(&run.err, line);
        tally.count(rt, name, 0, is_as_wanted)?;
    }
    Ok(())
}
