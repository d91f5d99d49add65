//! The whole report.

ghost use Rattle.std.specs.Prelude.{◌≡◌, ◌<◌, IsOk, IsTrue};
ghost use Rattle.std.specs.List.{list_all};
ghost use Rattle.lane_core.specs.KeptEnd.{shown_as};
ghost use Rattle.report_text.specs.Ranges.{HaveTypes, record_fits};
ghost use Rattle.report_text.specs.Report.{records_text, report_text};
ghost use Rattle.report_text.specs.Written.{WritesText};

use crate::piece::{start_piece, write_piece};
use app_api::App;
use lane_core::RecordUnderWay;
use mos_bytes::Sink;
use report_text::{TextError, Totals, write_totals};
use std::alloc::Global;
use std::collections::VecDeque;
use std::sync::Wait;
use std::thread;
use std::thread::{Scope, Threads};

// How many records the first pieces have: nothing is known yet of how long the text of one is.
const FIRST: usize = 64;

// How many more pieces than `threads` are on their way at most, so that there is work for threads while a piece is written.
const SPARE: usize = 4;

// Writes the lines of records. Each piece has a thread that makes its text while the pieces before it are written.
fn write_pieces<'s, E: 's, R: Threads, A: App + Sync, O: Sink>(
    rt: &R,
    scope: &Scope<'s, E>,
    alloc: Global,
    threads: usize,
    app: &'s A,
    out: &mut O,
    records: &'s [RecordUnderWay],
) -> Result<(), TextError>
    ensures text { WritesText O.Sink out.old out.new result (records_text (shown_as (A.meaning app.now) records.now)) }
    ensures fits { IsOk result → IsTrue (list_all record_fits (shown_as (A.meaning app.now) records.now)) }
{
    let most = threads.saturating_add(SPARE);
    let mut ahead = VecDeque::with_capacity(alloc, most)?;
    let mut left = records;
    let mut share = FIRST;
    loop {
        if ahead.len() < most && !left.is_empty() {
            let (next, behind) = left.split_at(share.min(left.len()));
            let piece = start_piece(scope, alloc, app, next);
            ahead.push_back_reserved(piece);
            left = behind;
        } else {
            match ahead.pop_front() {
                Some(piece) => share = write_piece(rt, alloc, app, out, piece)?,
                None => return Ok(()),
            }
        }
    }
}

// The same, in a scope of its own for the threads. The sink is handed back.
fn write_in_scope<'c, R: Threads + Wait, A: App + Sync, O: Sink>(
    rt: &'c R,
    alloc: Global,
    threads: usize,
    app: &'c A,
    out: &'c mut O,
    records: &'c [RecordUnderWay],
) -> (Result<(), TextError>, &'c mut O)
    ensures text { WritesText O.Sink out.old result.1.now result.0 (records_text (shown_as (A.meaning app.now) records.now)) }
    ensures same { result.1.ghost_name ≡ out.entry.ghost_name }
    ensures fits { IsOk result.0 → IsTrue (list_all record_fits (shown_as (A.meaning app.now) records.now)) }
{
    thread::scope(
        thread::scope_env(),
        rt,
        move |scope| -> (Result<(), TextError>, &mut O)
            ensures text { WritesText O.Sink out.entry.now result.1.now result.0
                (records_text (shown_as (A.meaning app.entry.now) records.entry.now)) }
            ensures same { result.1.ghost_name ≡ out.entry.ghost_name }
            ensures fits { IsOk result.0
                → IsTrue (list_all record_fits (shown_as (A.meaning app.entry.now) records.entry.now)) }
        {
            let wrote = write_pieces(rt, scope, alloc, threads, app, out, records);
            (wrote, out)
        },
    )
}

// The same, with the sink lent.
fn write_records<R: Threads + Wait, A: App + Sync, O: Sink>(
    rt: &R,
    alloc: Global,
    threads: usize,
    app: &A,
    out: &mut O,
    records: &[RecordUnderWay],
) -> Result<(), TextError>
    ensures text { WritesText O.Sink out.old out.new result (records_text (shown_as (A.meaning app.now) records.now)) }
    ensures fits { IsOk result → IsTrue (list_all record_fits (shown_as (A.meaning app.now) records.now)) }
{
    let (wrote, _out) = write_in_scope(rt, alloc, threads, app, out, records);
    wrote
}

/// Writes the report of records as lanes keep them, as `report_text::write_report` does of the records for which they stand, each
/// line by one call. A piece of it is made by a thread of its own while the pieces before it are written. At most four pieces more
/// than `threads` are on their way, and the text of each takes at most 1,048,576 bytes. Lines for which there is no thread, no
/// room or no memory are written from the records themselves.
///
/// It asks at least one thread, and waits for those that it starts. What is written whole has numbers and bytes in the ranges of
/// their types. At an `Err` the sink holds a front of the report.
pub fn write_report_by<R: Threads + Wait, A: App + Sync, O: Sink>(
    rt: &R,
    alloc: Global,
    threads: usize,
    app: &A,
    out: &mut O,
    records: &[RecordUnderWay],
    totals: &Totals,
) -> Result<(), TextError>
    requires threads { 0 < threads }
    ensures text { WritesText O.Sink out.old out.new result
        (report_text (shown_as (A.meaning app.now) records.now) totals.now) }
    ensures typed { IsOk result → HaveTypes (shown_as (A.meaning app.now) records.now) totals.now }
{
    write_records(rt, alloc, threads, app, out, records)?;
    write_totals(alloc, out, totals)
}
