//! Writes records as they are kept, without a list of their entries or a text of each field's name.

ghost use Rattle.std.specs.Prelude.{◌≡◌, IsOk, IsTrue, [], if◌then◌else◌, flat_map};
ghost use Rattle.std.specs.List.{list_all};
ghost use Rattle.report_text.specs.Kept.{is_conn, kept_record};
ghost use Rattle.report_text.specs.Lines.{field_line, callback_line};
ghost use Rattle.report_text.specs.Ranges.{entry_fits, field_fits, record_fits};
ghost use Rattle.report_text.specs.Report.{record_text};
ghost use Rattle.report_text.specs.Written.{WritesText};

use crate::backward::BackwardLine;
use crate::ranges::{callback_fits, drops_fit, field_fits, kind_fits};
use crate::record::RecordKind;
use crate::short::ShortLine;
use crate::write::{TextError, write_callback, write_drops, write_field, write_head};
use app_api::{App, DropList, Tally};
use callback_log::CallbackLog;
use mos_bytes::Sink;
use std::alloc::Global;

/// A record as it is kept: what a [`Record`](crate::Record) has, but its callbacks as they were noted and, for its fields, what
/// the application counted.
#[derive(Drop)]
pub struct KeptRecord<'a> {
    /// The number of its first packet in the capture, from 0.
    pub name: u64,
    pub kind: RecordKind,
    /// How many control commands were in force for it.
    pub version: u32,
    /// Its callbacks in the order in which they were made.
    pub callbacks: &'a CallbackLog,
    /// Its packets that were dropped, by their places in the capture, each with who asked for it.
    pub drops: &'a DropList,
    /// What the application counted for it, which gives the fields of a connection. An orphan has none.
    pub tally: &'a Tally,
}

fn write_callbacks<O: Sink>(
    alloc: Global,
    out: &mut O,
    line: &mut String,
    log: &CallbackLog,
) -> Result<(), TextError>
    ensures text { WritesText O.Sink out.old out.new result (flat_map callback_line log.now) }
    ensures fits { IsOk result → IsTrue (list_all entry_fits log.now) }
{
    let mut short = ShortLine::new();
    let mut walk = log.callbacks();
    while let Some(callback) = walk.next() {
        write_callback(alloc, out, line, &mut short, &callback)?;
        callback_fits(&callback);
    }
    Ok(())
}

// The fields that an application tells of a tally.
fn write_told<A: App, O: Sink>(
    app: &A,
    out: &mut O,
    line: &mut String,
    row: &mut BackwardLine,
    tally: &Tally,
) -> Result<(), TextError>
    ensures text { WritesText O.Sink out.old out.new result (flat_map field_line ((A.meaning app.now).fields tally.now)) }
    ensures fits { IsOk result → IsTrue (list_all field_fits ((A.meaning app.now).fields tally.now)) }
{
    for place in 0..256u16 {
        let Some((name, value)) = app.field(place as u8, tally) else {
            break;
        };
        write_field(out, line, row, name.as_bytes(), value)?;
        field_fits(name, value);
    }
    Ok(())
}

// The fields of a record: an orphan has none.
fn write_fields<A: App, O: Sink>(
    app: &A,
    out: &mut O,
    line: &mut String,
    row: &mut BackwardLine,
    of: &KeptRecord<'_>,
) -> Result<(), TextError>
    ensures text { WritesText O.Sink out.old out.new result
        (flat_map field_line (kept_record (A.meaning app.now) of.now).fields) }
    ensures fits { IsOk result → IsTrue (list_all field_fits (kept_record (A.meaning app.now) of.now).fields) }
{
    match of.kind {
        RecordKind::Conn { .. } => write_told(app, out, line, row, of.tally),
        RecordKind::Orphan { .. } => Ok(()),
    }
}

/// Writes the lines of a record as it is kept, each by one call: those that `write_report` writes of the record for which it
/// stands, whose numbers and bytes have the ranges of their types. `line` is room that is used again. At an `Err` the sink holds a
/// front of them.
pub fn write_kept<A: App, O: Sink>(
    alloc: Global,
    app: &A,
    out: &mut O,
    line: &mut String,
    of: &KeptRecord<'_>,
) -> Result<(), TextError>
    ensures text { WritesText O.Sink out.old out.new result (record_text (kept_record (A.meaning app.now) of.now)) }
    ensures fits { IsOk result → IsTrue (record_fits (kept_record (A.meaning app.now) of.now)) }
{
    let mut row = BackwardLine::new();
    write_head(out, &mut row, of.name, &of.kind, of.version)?;
    kind_fits(&of.kind);
    write_callbacks(alloc, out, line, of.callbacks)?;
    write_drops(out, &mut row, of.drops.as_slice())?;
    drops_fit(of.drops.as_slice());
    write_fields(app, out, line, &mut row, of)
}
