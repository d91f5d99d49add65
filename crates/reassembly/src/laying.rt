//! Laying a segment's bytes into the buffer, one stretch after another: its positions are all accepted already, or none is.

ghost use Rattle.std.specs.Prelude.{◌≡◌, ◌+◌, ◌<◌, ◌≤◌, ◌&&◌, ◌^◌, not, length, if◌then◌else◌};
ghost use Rattle.reassembly.specs.Segment.{is_last};
ghost use Rattle.reassembly.specs.Runs.{AreOrdered, IsCursor};
ghost use Rattle.reassembly.specs.Laying.{AreBeside, HasBytes, differing_of, laid_byte, tally_of, tally_of_stretch, tally_sum, IsStretch};

use crate::Policy;
use crate::runs::{Run, ended_by};

/// How bytes were judged that lie between `next` and the limit.
#[derive(Clone, Copy)]
pub struct Judged {
    pub new: u32,
    pub old: u32,
    pub differ: u32,
}

/// A stretch of positions up to below `end`, and the first run that ends above it.
#[derive(Clone, Copy)]
pub struct Stretch {
    pub end: u64,
    pub is_old: bool,
    pub cursor: usize,
}

/// How many bytes of the segment differ from the kept ones.
pub fn differing(kept: &[u8], segment: &[u8]) -> u32
    requires { AreBeside kept.now segment.now }
    ensures value { result ≡ differing_of kept.now segment.now (length segment.now) }
    ensures bound { result ≤ length segment.now }
{
    let mut count = 0;
    for i in 0..segment.len() {
        if kept[i] != segment[i] {
            count += 1;
        }
    }
    count
}

// The stretch that begins at `from`, cut at `stop`.
fn next_stretch(runs: &[Run], cursor: usize, from: u64, stop: u64) -> Stretch
    requires ordered { AreOrdered runs.now }
    requires cursor { IsCursor runs.now cursor from }
    requires order { from < stop }
    ensures { IsStretch runs.now from stop result }
{
    if cursor == runs.len() {
        return Stretch {
            end: stop,
            is_old: false,
            cursor,
        };
    }
    let run = runs[cursor];
    if from < run.start {
        let end = run.start.min(stop);
        return Stretch {
            end,
            is_old: false,
            cursor,
        };
    }
    if run.end <= stop {
        return Stretch {
            end: run.end,
            is_old: true,
            cursor: cursor + 1,
        };
    }
    Stretch {
        end: stop,
        is_old: true,
        cursor,
    }
}

// Lays one stretch: bytes at empty cells are copied, and others compared, and replaced where the last byte stays.
fn lay_stretch(cells: &mut [u8], segment: &[u8], policy: Policy, is_old: bool) -> Judged
    requires { AreBeside cells.old segment.now }
    ensures cells { cells.new ≡ (if is_old && not (is_last policy) then cells.old else segment.now) }
    ensures tally { result ≡ tally_of_stretch is_old cells.old segment.now }
{
    let len = segment.len() as u32;
    if !is_old {
        cells.copy_from_slice(segment);
        return Judged {
            new: len,
            old: 0,
            differ: 0,
        };
    }
    let differ = differing(cells, segment);
    if policy == Policy::Last {
        cells.copy_from_slice(segment);
    }
    Judged {
        new: 0,
        old: len,
        differ,
    }
}

/// The sum of two tallies.
pub fn added(a: Judged, b: Judged) -> Judged
    requires new { a.new + b.new < 2 ^ 32 }
    requires old { a.old + b.old < 2 ^ 32 }
    requires differ { a.differ + b.differ < 2 ^ 32 }
    ensures { result ≡ tally_sum a b }
{
    Judged {
        new: a.new + b.new,
        old: a.old + b.old,
        differ: a.differ + b.differ,
    }
}

/// Lays the segment over the cells from position `start` on: one search among the runs, and then one step a stretch.
pub fn lay(cells: &mut [u8], runs: &[Run], start: u64, segment: &[u8], policy: Policy) -> Judged
    requires ordered { AreOrdered runs.now }
    requires beside { AreBeside cells.old segment.now }
    requires reach { start + length segment.now < 2 ^ 64 }
    ensures cells { HasBytes cells.new (length segment.now) (laid_byte runs.now start policy cells.old segment.now) }
    ensures tally { result ≡ tally_of runs.now start cells.old segment.now (length segment.now) }
{
    let stop = start + segment.len() as u64;
    let mut tally = Judged {
        new: 0,
        old: 0,
        differ: 0,
    };
    let mut at = start;
    let mut cursor = ended_by(runs, start);
    while at < stop {
        let next = next_stretch(runs, cursor, at, stop);
        let from = (at - start) as usize;
        let to = (next.end - start) as usize;
        let part = lay_stretch(
            &mut cells[from..to],
            &segment[from..to],
            policy,
            next.is_old,
        );
        tally = added(tally, part);
        cursor = next.cursor;
        at = next.end;
    }
    tally
}
