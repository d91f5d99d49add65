//! Records made from rows.

use app_api::{Bytes, DropList, Entry, EntryList, FieldList, PieceList, Reason, Seen};
use flow_table::Endpoint;
use native_filters::Hook;
use report_text::{Record, RecordKind};
use std::alloc::{AllocError, Global};

// What a callback saw: the numbers of its line, and the bytes.
#[derive(Clone, Copy)]
pub(crate) enum Sight {
    Nothing,
    Next(u64, u64, &'static [u8]),
    At(u64, &'static [(u64, &'static [u8])]),
}

// A callback: the packet's place, the side, the event, the registration, and what it saw.
pub(crate) type Callback = (u64, Hook, u16, u8, Sight);

// A record.
#[derive(Clone, Copy)]
pub(crate) struct Row {
    pub(crate) name: u64,
    pub(crate) kind: RecordKind,
    pub(crate) version: u32,
    pub(crate) callbacks: &'static [Callback],
    pub(crate) drops: &'static [(u64, Reason)],
    pub(crate) fields: &'static [(&'static str, u64)],
}

pub(crate) const OVER_IPV4: RecordKind = RecordKind::Conn {
    client: Endpoint::V4 {
        addr: 0x0a00_0001,
        port: 1000,
    },
    server: Endpoint::V4 {
        addr: 0x0a00_0002,
        port: 80,
    },
};

pub(crate) const OVER_IPV6: RecordKind = RecordKind::Conn {
    client: Endpoint::V6 {
        addr: 0x2001_0db8_0000_0000_0000_0000_0000_0001,
        port: 1000,
    },
    server: Endpoint::V6 {
        addr: 0x2001_0db8_0000_0000_0000_0000_0000_0002,
        port: 80,
    },
};

// A connection under no command, with nothing to tell.
pub(crate) const QUIET: Row = Row {
    name: 0,
    kind: OVER_IPV4,
    version: 0,
    callbacks: &[],
    drops: &[],
    fields: &[],
};

fn bytes(alloc: Global, bytes: &[u8]) -> Result<Bytes, AllocError> {
    Ok(Bytes {
        items: bytes.to_vec(alloc)?,
    })
}

fn push_piece(
    alloc: Global,
    items: &mut Vec<(u64, Bytes)>,
    at: u64,
    run: &[u8],
) -> Result<(), AllocError> {
    items.push((at, bytes(alloc, run)?))?;
    Ok(())
}

fn pieces(alloc: Global, runs: &[(u64, &[u8])]) -> Result<PieceList, AllocError> {
    let mut items = Vec::new(alloc);
    for &(at, run) in runs {
        push_piece(alloc, &mut items, at, run)?;
    }
    Ok(PieceList { items })
}

fn seen(alloc: Global, sight: Sight) -> Result<Seen, AllocError> {
    match sight {
        Sight::Nothing => Ok(Seen::Nothing),
        Sight::Next(at, missed, run) => Ok(Seen::Next {
            at,
            missed,
            bytes: bytes(alloc, run)?,
        }),
        Sight::At(off, runs) => Ok(Seen::At {
            off,
            pieces: pieces(alloc, runs)?,
        }),
    }
}

fn entries(alloc: Global, callbacks: &[Callback]) -> Result<EntryList, AllocError> {
    let mut items = Vec::new(alloc);
    for &(index, hook, event, reg, sight) in callbacks {
        let seen = seen(alloc, sight)?;
        items.push(Entry {
            index,
            hook,
            event,
            reg,
            seen,
        })?;
    }
    Ok(EntryList { items })
}

fn fields(alloc: Global, numbers: &[(&str, u64)]) -> Result<FieldList, AllocError> {
    let mut items = Vec::new(alloc);
    for (name, value) in numbers {
        items.push((bytes(alloc, name.as_bytes())?, *value))?;
    }
    Ok(FieldList { items })
}

fn record(alloc: Global, row: &Row) -> Result<Record, AllocError> {
    Ok(Record {
        name: row.name,
        kind: row.kind,
        version: row.version,
        entries: entries(alloc, row.callbacks)?,
        drops: DropList {
            items: row.drops.to_vec(alloc)?,
        },
        fields: fields(alloc, row.fields)?,
    })
}

// The records of these rows.
pub(crate) fn records(alloc: Global, rows: &[Row]) -> Result<Vec<Record>, AllocError> {
    let mut items = Vec::new(alloc);
    for row in rows {
        items.push(record(alloc, row)?)?;
    }
    Ok(items)
}

fn is_callback(entry: &Entry, callback: &Callback) -> bool {
    let (index, hook, event, reg, _) = *callback;
    entry.index == index && entry.hook == hook && entry.event == event && entry.reg == reg
}

// Whether a record has the name, kind and version of a row, and its callbacks at their places.
fn is_row(record: &Record, row: &Row) -> bool {
    let entries = record.entries.as_slice();
    (record.name, record.kind, record.version) == (row.name, row.kind, row.version)
        && entries.len() == row.callbacks.len()
        && entries
            .iter()
            .zip(row.callbacks)
            .all(|(entry, callback)| is_callback(entry, callback))
}

// Whether the records are those of the rows, as far as `is_row` looks.
pub(crate) fn are_rows(records: &[Record], rows: &[Row]) -> bool {
    records.len() == rows.len()
        && records
            .iter()
            .zip(rows)
            .all(|(record, row)| is_row(record, row))
}
