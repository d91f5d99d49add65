//! Writes a report to a sink, each line by one call.

ghost use Rattle.std.specs.Prelude.{◌≡◌, IsTrue, flat_map};
ghost use Rattle.callback_log.specs.Walk.{entry_lent};
ghost use Rattle.report_text.specs.Lines.{head_line, callback_line, drop_line, field_line, totals_line};
ghost use Rattle.report_text.specs.Ranges.{totals_fit};
ghost use Rattle.report_text.specs.Report.{record_text, records_text, report_text};
ghost use Rattle.report_text.specs.Tidy.{are_named, is_tidy_record, tidy};
ghost use Rattle.report_text.specs.Written.{WritesText};
ghost use Rattle.std.specs.List.{list_all};
ghost use Rattle.app_api.specs.App.{is_field_name};

use crate::backward::BackwardLine;
use crate::lines::{push_callback, push_field, push_totals};
use crate::ranges::totals_fit;
use crate::record::{Record, RecordKind, Totals};
use crate::short::ShortLine;
use app_api::{Bytes, Entry, Reason};
use callback_log::Callback;
use mos_bytes::{Failed, Sink};
use std::alloc::{AllocError, Global};
use thiserror::Error;

/// Why a text was not written to its end. The sink then holds a front of it.
#[derive(Clone, Copy, Debug, PartialEq, Eq, Error)]
pub enum TextError {
    /// The sink failed, and has counted it.
    #[error("write fault")]
    WriteFault,
    /// Memory for a line was refused.
    #[error("no memory")]
    NoMemory,
}

impl From<Failed> for TextError {
    ghost use Rattle.report_text.specs.declared.write.TextError.TheVariants.{WriteFault};

    ghost from_gives = { λ _ e. e ≡ WriteFault };

    fn from(_: Failed) -> Self {
        TextError::WriteFault
    }
}

impl From<AllocError> for TextError {
    ghost use Rattle.report_text.specs.declared.write.TextError.TheVariants.{NoMemory};

    ghost from_gives = { λ _ e. e ≡ NoMemory };

    fn from(_: AllocError) -> Self {
        TextError::NoMemory
    }
}

// Writes one callback's line, of any form.
fn write_long<O: Sink>(
    alloc: Global,
    out: &mut O,
    line: &mut String,
    callback: &Callback<'_>,
) -> Result<(), TextError>
    ensures text { WritesText O.Sink out.old out.new result (callback_line (entry_lent callback.now)) }
{
    line.clear();
    push_callback(alloc, line, callback)?;
    out.write_all(line.as_bytes())?;
    Ok(())
}

// Writes one callback's line. `line` and `short` are room that is used again: most lines are short, and take no memory.
pub(crate) fn write_callback<O: Sink>(
    alloc: Global,
    out: &mut O,
    line: &mut String,
    short: &mut ShortLine,
    callback: &Callback<'_>,
) -> Result<(), TextError>
    ensures text { WritesText O.Sink out.old out.new result (callback_line (entry_lent callback.now)) }
{
    if !short.put_callback(callback) {
        return write_long(alloc, out, line, callback);
    }
    out.write_all(short.text())?;
    Ok(())
}

// The first line of a record of this name, kind and version. `row` is room that is used again.
pub(crate) fn write_head<O: Sink>(
    out: &mut O,
    row: &mut BackwardLine,
    name: u64,
    kind: &RecordKind,
    version: u32,
) -> Result<(), TextError>
    ensures text { WritesText O.Sink out.old out.new result (head_line name kind.now version) }
{
    row.put_head(name, kind, version);
    out.write_all(row.text())?;
    Ok(())
}

fn write_drop<O: Sink>(
    out: &mut O,
    row: &mut BackwardLine,
    index: u64,
    reason: Reason,
) -> Result<(), TextError>
    ensures text { WritesText O.Sink out.old out.new result (drop_line (index, reason)) }
{
    row.put_drop(index, reason);
    out.write_all(row.text())?;
    Ok(())
}

// A field's line. `line` and `row` are room that is used again.
pub(crate) fn write_field<O: Sink>(
    out: &mut O,
    line: &mut String,
    row: &mut BackwardLine,
    name: &[u8],
    value: u64,
) -> Result<(), TextError>
    requires { IsTrue (is_field_name name.now) }
    ensures text { WritesText O.Sink out.old out.new result (field_line (name.now, value)) }
{
    if !row.put_field(name, value) {
        line.clear();
        push_field(line, name, value)?;
        out.write_all(line.as_bytes())?;
        return Ok(());
    }
    out.write_all(row.text())?;
    Ok(())
}

fn write_entries<O: Sink>(
    alloc: Global,
    out: &mut O,
    line: &mut String,
    entries: &[Entry],
) -> Result<(), TextError>
    ensures text { WritesText O.Sink out.old out.new result (flat_map callback_line entries.now) }
{
    let mut short = ShortLine::new();
    for entry in entries {
        write_callback(alloc, out, line, &mut short, &Callback::of(entry))?;
    }
    Ok(())
}

pub(crate) fn write_drops<O: Sink>(
    out: &mut O,
    row: &mut BackwardLine,
    drops: &[(u64, Reason)],
) -> Result<(), TextError>
    ensures text { WritesText O.Sink out.old out.new result (flat_map drop_line drops.now) }
{
    for (index, reason) in drops {
        write_drop(out, row, *index, *reason)?;
    }
    Ok(())
}

fn write_fields<O: Sink>(
    out: &mut O,
    line: &mut String,
    row: &mut BackwardLine,
    fields: &[(Bytes, u64)],
) -> Result<(), TextError>
    requires { IsTrue (are_named fields.now) }
    ensures text { WritesText O.Sink out.old out.new result (flat_map field_line fields.now) }
{
    for (name, value) in fields {
        write_field(out, line, row, name.as_slice(), *value)?;
    }
    Ok(())
}

fn write_record<O: Sink>(
    alloc: Global,
    out: &mut O,
    line: &mut String,
    of: &Record,
) -> Result<(), TextError>
    requires { IsTrue (is_tidy_record of.now) }
    ensures text { WritesText O.Sink out.old out.new result (record_text of.now) }
{
    let mut row = BackwardLine::new();
    write_head(out, &mut row, of.name, &of.kind, of.version)?;
    write_entries(alloc, out, line, of.entries.as_slice())?;
    write_drops(out, &mut row, of.drops.as_slice())?;
    write_fields(out, line, &mut row, of.fields.as_slice())
}

fn write_records<O: Sink>(
    alloc: Global,
    out: &mut O,
    line: &mut String,
    records: &[Record],
) -> Result<(), TextError>
    requires { IsTrue (list_all is_tidy_record records.now) }
    ensures text { WritesText O.Sink out.old out.new result (records_text records.now) }
{
    for of in records {
        write_record(alloc, out, line, of)?;
    }
    Ok(())
}

/// Writes the last line of a report. At an `Err` the sink holds a front of it.
pub fn write_totals<O: Sink>(alloc: Global, out: &mut O, totals: &Totals) -> Result<(), TextError>
    ensures text { WritesText O.Sink out.old out.new result (totals_line totals.now) }
    ensures fits { IsTrue (totals_fit totals.now) }
{
    totals_fit(totals);
    let mut line = String::new(alloc);
    push_totals(&mut line, totals)?;
    out.write_all(line.as_bytes())?;
    Ok(())
}

/// Writes a report: each record with its callbacks, drops and fields, in order of name, and then the totals. It asks
/// tidy records. At an `Err` the sink holds a front of the text.
pub fn write_report<O: Sink>(
    alloc: Global,
    out: &mut O,
    records: &[Record],
    totals: &Totals,
) -> Result<(), TextError>
    requires tidy { IsTrue (tidy records.now) }
    ensures text { WritesText O.Sink out.old out.new result (report_text records.now totals.now) }
{
    let mut line = String::new(alloc);
    write_records(alloc, out, &mut line, records)?;
    write_totals(alloc, out, totals)
}
