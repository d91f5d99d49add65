//! What a report has: records in order of name, and the totals of the run.

ghost use Rattle.std.specs.Prelude.{◌≡◌};

use app_api::{DropList, EntryList, FieldList};
use flow_table::Endpoint;
use packet_views::Class;
use std::marker::Model;

/// What a record is about.
#[derive(Clone, Copy, Debug, PartialEq, Eq)]
pub enum RecordKind {
    /// A connection: the endpoint whose SYN opened it, and the other one.
    Conn { client: Endpoint, server: Endpoint },
    /// A packet of no connection, of this class.
    Orphan { class: Class },
}

/// A connection, or a packet of none, with what it caused.
#[derive(Debug, Drop)]
pub struct Record {
    /// The number of its first packet in the capture, from 0.
    pub name: u64,
    pub kind: RecordKind,
    /// How many control commands were in force for it.
    pub version: u32,
    /// Its callbacks in the order in which they were made.
    pub entries: EntryList,
    /// Its packets that were dropped, by their places in the capture, each with who asked for it.
    pub drops: DropList,
    /// What the application counted for it. An orphan has none.
    pub fields: FieldList,
}

/// Records in order of their names. Contracts see the list.
#[derive(Debug, Drop)]
pub struct RecordList {
    pub items: Vec<Record>,
}

impl Model for RecordList {
    ghost use Rattle.std.specs.Prelude.{List};
    ghost use Rattle.report_text.specs.declared.record.Record.{Record};

    ghost Value = { List Record };

    ghost view = { λ l. l.items.items };
}

impl RecordList {
    /// The records in order.
    pub fn as_slice(&self) -> &[Record]
        ensures { result.now ≡ self.now }
    {
        self.items.as_slice()
    }
}

/// What is counted over a whole run.
#[derive(Clone, Copy, Debug, PartialEq, Eq)]
pub struct Totals {
    /// Whole records of the capture.
    pub packets: u64,
    /// Connections and orphans.
    pub records: u64,
    /// Callbacks that were made.
    pub callbacks: u64,
    /// Packets that were dropped.
    pub drops: u64,
    /// Bytes behind the last whole record of the capture.
    pub tail: u32,
}
