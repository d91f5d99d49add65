//! The lines of a report, each put behind what a text already holds.

ghost use Rattle.std.specs.Prelude.{◌≡◌, ◌++◌, IsTrue, OnOk, codes, decimal, string_bytes};
ghost use Rattle.callback_log.specs.Walk.{entry_lent, seen_lent};
ghost use Rattle.report_text.specs.Lines.{kind_text, head_line, first_line, callback_line, drop_line, field_line, totals_line};
ghost use Rattle.report_text.specs.Words.{seen_text};
ghost use Rattle.app_api.specs.App.{is_field_name};

use crate::record::{Record, RecordKind, Totals};
use crate::words::{
    class_name, hook_word, push_endpoint, push_event, push_labelled, push_reason, push_seen,
};
use app_api::{Entry, Reason, Seen};
use callback_log::Callback;
use std::alloc::{AllocError, Global};
use std::fmt::Write;

fn push_kind(line: &mut String, name: u64, kind: &RecordKind) -> Result<(), AllocError>
    ensures { OnOk result (string_bytes line.new ≡ string_bytes line.old ++ kind_text name kind.now) }
{
    match kind {
        RecordKind::Conn { client, server } => {
            push_labelled(line, "conn ", name)?;
            line.push(' ')?;
            push_endpoint(line, client)?;
            line.push_str(" > ")?;
            push_endpoint(line, server)
        }
        RecordKind::Orphan { class } => {
            push_labelled(line, "orphan ", name)?;
            line.push(' ')?;
            line.push_str(class_name(*class))
        }
    }
}

// The first line of a record of this name, kind and version.
fn push_head(
    line: &mut String,
    name: u64,
    kind: &RecordKind,
    version: u32,
) -> Result<(), AllocError>
    ensures { OnOk result (string_bytes line.new ≡ string_bytes line.old ++ head_line name kind.now version) }
{
    push_kind(line, name, kind)?;
    push_labelled(line, " v ", u64::from(version))?;
    line.push('\n')
}

#[tactic(auto, unfolding(crate::specs::Lines::first_line))]
pub(crate) fn push_first_line(line: &mut String, of: &Record) -> Result<(), AllocError>
    ensures { OnOk result (string_bytes line.new ≡ string_bytes line.old ++ first_line of.now) }
{
    push_head(line, of.name, &of.kind, of.version)
}

// What a callback saw that is lent without its entry.
fn push_lent_seen(alloc: Global, line: &mut String, seen: Option<&Seen>) -> Result<(), AllocError>
    ensures { OnOk result (string_bytes line.new ≡ string_bytes line.old ++ seen_text (seen_lent seen.entry)) }
{
    match seen {
        Some(seen) => push_seen(alloc, line, seen),
        None => Ok(()),
    }
}

#[tactic(auto, unfolding(crate::specs::Lines::callback_line))]
pub(crate) fn push_callback(
    alloc: Global,
    line: &mut String,
    callback: &Callback<'_>,
) -> Result<(), AllocError>
    ensures { OnOk result (string_bytes line.new ≡ string_bytes line.old ++ callback_line (entry_lent callback.now)) }
{
    push_labelled(line, "cb ", callback.index)?;
    line.push_str(hook_word(callback.hook))?;
    push_event(line, callback.event)?;
    push_labelled(line, " ", u64::from(callback.reg))?;
    push_lent_seen(alloc, line, callback.seen)?;
    line.push('\n')
}

pub(crate) fn push_entry(alloc: Global, line: &mut String, entry: &Entry) -> Result<(), AllocError>
    ensures { OnOk result (string_bytes line.new ≡ string_bytes line.old ++ callback_line entry.now) }
{
    push_callback(alloc, line, &Callback::of(entry))
}

#[tactic(auto, unfolding(crate::specs::Lines::drop_line))]
pub(crate) fn push_drop(line: &mut String, index: u64, reason: Reason) -> Result<(), AllocError>
    ensures { OnOk result (string_bytes line.new ≡ string_bytes line.old ++ drop_line (index, reason)) }
{
    push_labelled(line, "drop ", index)?;
    line.push(' ')?;
    push_reason(line, reason)?;
    line.push('\n')
}

// What follows a field's name.
fn push_value(line: &mut String, value: u64) -> Result<(), AllocError>
    ensures { OnOk result (string_bytes line.new ≡ string_bytes line.old ++ (codes " " ++ (decimal value ++ codes "\n"))) }
{
    push_labelled(line, " ", value)?;
    line.push('\n')
}

#[tactic(auto, unfolding(crate::specs::Lines::field_line))]
pub(crate) fn push_field(line: &mut String, name: &[u8], value: u64) -> Result<(), AllocError>
    requires { IsTrue (is_field_name name.now) }
    ensures { OnOk result (string_bytes line.new ≡ string_bytes line.old ++ field_line (name.now, value)) }
{
    line.push_str("field ")?;
    for byte in name {
        line.push(char::from(*byte))?;
    }
    push_value(line, value)
}

#[tactic(auto, unfolding(crate::specs::Lines::totals_line))]
pub(crate) fn push_totals(line: &mut String, totals: &Totals) -> Result<(), AllocError>
    ensures { OnOk result (string_bytes line.new ≡ string_bytes line.old ++ totals_line totals.now) }
{
    let Totals {
        packets,
        records,
        callbacks,
        drops,
        tail,
    } = *totals;
    writeln!(
        line,
        "end packets {packets} records {records} callbacks {callbacks} drops {drops} tail {tail}"
    )
}
