//! The lines of a report as data: how one is read, and how it is written again.

ghost use Rattle.std.specs.Prelude.{◌≡◌, ◌++◌, ◌%◌, ◌^◌, IfOk, IsTrue, OnOk, string_bytes};
ghost use Rattle.report_text.specs.ReadWords.{first_word, skip, decimal_of};
ghost use Rattle.report_text.specs.ReadLines.{bare, line_text, is_tidy_line, entry_of, totals_of, orphan_of, server_at, conn_of, line_of};

use super::parts::{after_endpoint, class_of, endpoint_of, event_of, hook_of, reason_of, seen_of};
use super::words::{decimal, decimal_u8, decimal_u32, first, first_word, second, skip};
use crate::lines::{push_drop, push_entry, push_field, push_first_line, push_totals};
use crate::record::{Record, RecordKind, Totals};
use crate::tidy::{is_field_name, is_tidy_entry};
use app_api::{Bytes, DropList, Entry, EntryList, FieldList, Reason};
use std::alloc::{AllocError, Global};

/// One line of a report.
#[derive(Drop)]
pub(crate) enum Line {
    /// The first line of a record.
    First {
        name: u64,
        kind: RecordKind,
        version: u32,
    },
    Callback(Entry),
    /// A dropped packet's place, and who asked for the drop.
    Dropped(u64, Reason),
    /// A field's name and its value.
    Field(Bytes, u64),
    Last(Totals),
}

/// A record with nothing behind its first line.
pub(super) fn bare(alloc: Global, name: u64, kind: RecordKind, version: u32) -> Record
    ensures { result ≡ bare name kind version }
{
    Record {
        name,
        kind,
        version,
        entries: EntryList {
            items: Vec::new(alloc),
        },
        drops: DropList {
            items: Vec::new(alloc),
        },
        fields: FieldList {
            items: Vec::new(alloc),
        },
    }
}

/// Whether the line may stand in tidy records, for what it says alone.
pub(super) fn is_tidy_line(line: &Line) -> bool
    ensures { result ≡ is_tidy_line line.now }
{
    match line {
        Line::Callback(entry) => is_tidy_entry(entry),
        Line::Field(name, _) => is_field_name(name.as_slice()),
        _ => true,
    }
}

/// Writes the line again.
pub(super) fn push_line(alloc: Global, room: &mut String, line: &Line) -> Result<(), AllocError>
    requires { IsTrue (is_tidy_line line.now) }
    ensures { OnOk result (string_bytes room.new ≡ string_bytes room.old ++ line_text line.now) }
{
    match line {
        Line::First {
            name,
            kind,
            version,
        } => {
            let of = bare(alloc, *name, *kind, *version);
            push_first_line(room, &of)
        }
        Line::Callback(entry) => push_entry(alloc, room, entry),
        Line::Dropped(index, reason) => push_drop(room, *index, *reason),
        Line::Field(name, value) => push_field(room, name.as_slice(), *value),
        Line::Last(totals) => push_totals(room, totals),
    }
}

fn read_entry(alloc: Global, text: &[u8]) -> Result<Entry, AllocError>
    ensures { IfOk result (λ e. e ≡ entry_of text.now) }
{
    let seen = seen_of(alloc, skip(text, 5))?;
    Ok(Entry {
        index: decimal(skip(text, 1)),
        hook: hook_of(skip(text, 2)),
        event: event_of(skip(text, 3)),
        reg: decimal_u8(skip(text, 4)),
        seen,
    })
}

// The words of the totals stand between their names.
fn read_totals(text: &[u8]) -> Totals
    ensures { result ≡ totals_of text.now }
{
    Totals {
        packets: decimal(skip(text, 2)),
        records: decimal(skip(text, 4)),
        callbacks: decimal(skip(text, 6)),
        drops: decimal(skip(text, 8)),
        tail: decimal_u32(skip(text, 10)),
    }
}

fn read_orphan(text: &[u8]) -> Line
    ensures { result ≡ orphan_of text.now }
{
    Line::First {
        name: decimal(skip(text, 1)),
        kind: RecordKind::Orphan {
            class: class_of(skip(text, 2)),
        },
        version: decimal_u32(skip(text, 4)),
    }
}

fn read_conn(text: &[u8]) -> Line
    ensures { result ≡ conn_of text.now }
{
    let client_at = skip(text, 2);
    let server_at = skip(after_endpoint(client_at), 1);
    let version_at = skip(after_endpoint(server_at), 1);
    Line::First {
        name: decimal(skip(text, 1)),
        kind: RecordKind::Conn {
            client: endpoint_of(client_at),
            server: endpoint_of(server_at),
        },
        version: decimal_u32(version_at),
    }
}

// A field's name and its value.
fn read_field(alloc: Global, text: &[u8]) -> Result<Line, AllocError>
    ensures { IfOk result (λ l. l ≡ Line.Field (first_word (skip 1 text.now)) (decimal_of (skip 2 text.now))) }
{
    let items = first_word(skip(text, 1)).to_vec(alloc)?;
    Ok(Line::Field(Bytes { items }, decimal(skip(text, 2))))
}

/// The line that a text is, where it is one: what is read is to be written again and compared.
#[tactic(auto, unfolding(crate::specs::ReadLines::line_of))]
pub(super) fn read_line(alloc: Global, text: &[u8]) -> Result<Line, AllocError>
    ensures { IfOk result (λ l. l ≡ line_of text.now) }
{
    match first(text) {
        b'o' => Ok(read_orphan(text)),
        b'd' => Ok(Line::Dropped(decimal(skip(text, 1)), reason_of(skip(text, 2)))),
        b'f' => read_field(alloc, text),
        b'e' => Ok(Line::Last(read_totals(text))),
        _ => {
            if second(text) == b'b' {
                return Ok(Line::Callback(read_entry(alloc, text)?));
            }
            Ok(read_conn(text))
        }
    }
}
