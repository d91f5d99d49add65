//! A piece of the report: some records, and the thread that makes their text.

ghost use Rattle.std.specs.Prelude.{◌≡◌, ◌<◌, List, IfOk, IsOk, IsTrue};
ghost use Rattle.std.specs.List.{list_all};
ghost use Rattle.app_api.specs.App.{Meaning};
ghost use Rattle.lane_core.specs.KeptEnd.{shown_as};
ghost use Rattle.lane_core.specs.declared.under_way.RecordUnderWay.{RecordUnderWay as Kept};
ghost use Rattle.report_text.specs.Ranges.{record_fits};
ghost use Rattle.report_text.specs.Report.{records_text};
ghost use Rattle.report_text.specs.Written.{WritesText};
ghost use Rattle.parallel_report.specs.Texts.{IsMadeOf};
ghost use Rattle.parallel_report.specs.Pieces.{IsMakerOf, IsPieceOf};

use crate::text::{LONGEST, Made, made_of, nothing_made};
use app_api::App;
use lane_core::{RecordUnderWay, write_all_kept};
use mos_bytes::Sink;
use report_text::{TextError, write_lines};
use std::alloc::Global;
use std::thread::{Promise, PromisedHandle, Scope, Threads};

// How long the text of a piece should be, in bytes.
const LONG: usize = LONGEST / 2;

// The most records of a piece.
const MOST: usize = 4096;

/// What the thread of a piece promises: the text of the first of these records.
#[derive(Clone, Copy)]
pub(crate) struct Makes<'a, A> {
    pub(crate) app: &'a A,
    pub(crate) records: &'a [RecordUnderWay],
}

impl<'a, A: App> Promise<Made> for Makes<'a, A> {
    ghost use Rattle.parallel_report.specs.Texts.{IsMadeOf};

    ghost kept_by = { λ p made. IsMadeOf (A.meaning p.app.now) p.records.now made };
}

/// Some records, and the thread that makes their text where one could be started.
#[derive(Drop)]
pub(crate) struct Piece<'a, A: App> {
    pub(crate) records: &'a [RecordUnderWay],
    pub(crate) maker: Option<PromisedHandle<Made, Makes<'a, A>>>,
}

/// Starts a thread that makes the text of these records. Where none can be started, they are a piece that has none.
pub(crate) fn start_piece<'s, E: 's, A: App + Sync>(
    scope: &Scope<'s, E>,
    alloc: Global,
    app: &'s A,
    records: &'s [RecordUnderWay],
) -> Piece<'s, A>
    ensures records { result.records.now ≡ records.now }
    ensures piece { IsPieceOf A.App (A.meaning app.now) result }
{
    let f = move || -> Made
        ensures { IsMadeOf (A.meaning app.entry.now) records.entry.now result }
    { made_of(alloc, app, records) };
    let maker = scope.spawn_with(Makes { app, records }, f).ok();
    Piece { records, maker }
}

// What the thread of a piece has made, once it has ended.
fn made_by<R: Threads, A: App>(
    rt: &R,
    alloc: Global,
    maker: Option<PromisedHandle<Made, Makes<'_, A>>>,
) -> Made
    ensures { (app : Meaning) (records : List Kept) → IsMakerOf A.App app records maker.entry
        → IsMadeOf app records result }
{
    match maker {
        Some(handle) => handle.join(rt),
        None => nothing_made(alloc),
    }
}

// How many records the next piece should have where these have a text so long.
fn next_share(done: usize, len: usize) -> usize
    ensures some { 0 < result }
{
    (done.saturating_mul(LONG) / len.max(1)).clamp(1, MOST)
}

/// Writes the lines of a piece, once its thread has ended: those that it made, and then the others from the records themselves.
/// Answers how many records the next piece should have. What is written whole has numbers and bytes in the ranges of their types.
/// At an `Err` the sink holds a front of the lines.
pub(crate) fn write_piece<R: Threads, A: App, O: Sink>(
    rt: &R,
    alloc: Global,
    app: &A,
    out: &mut O,
    piece: Piece<'_, A>,
) -> Result<usize, TextError>
    requires piece { IsPieceOf A.App (A.meaning app.now) piece }
    ensures text { WritesText O.Sink out.old out.new result
        (records_text (shown_as (A.meaning app.now) piece.entry.records.now)) }
    ensures some { IfOk result (λ share. 0 < share) }
    ensures fits { IsOk result → IsTrue (list_all record_fits (shown_as (A.meaning app.now) piece.entry.records.now)) }
{
    let Piece { records, maker } = piece;
    let made = made_by(rt, alloc, maker);
    write_lines(out, &made.text)?;
    let (_, others) = records.split_at(made.done);
    write_all_kept(alloc, app, out, others)?;
    Ok(next_share(made.done, made.text.len()))
}
