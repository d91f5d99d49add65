//! What a lane ends with.

ghost use Rattle.std.specs.Prelude.{◌≡◌, IfOk, List, Bool, map, if◌then◌else◌, []};
ghost use Rattle.report_text.specs.Kept.{is_conn};
ghost use Rattle.lane_core.specs.End.{ended};
ghost use Rattle.lane_core.specs.KeptEnd.{IsKeptEnd};
ghost use Rattle.lane_core.specs.Lane.{IsEnd};
ghost use Rattle.lane_core.specs.Records.{RecordSoFar};

use crate::under_way::RecordUnderWay;
use app_api::{App, FieldList, Tally, fields_of};
use report_text::{Record, RecordKind, RecordList};
use std::alloc::{AllocError, Global};
use std::marker::Model;

/// The names of records, each with its version. Contracts see the list.
#[derive(Debug, Drop)]
pub struct VersionOfList {
    pub items: Vec<(u64, u32)>,
}

impl Model for VersionOfList {
    ghost use Rattle.std.specs.Prelude.{List, ℕ};

    ghost Value = { List (ℕ × ℕ) };

    ghost view = { λ l. l.items.items };
}

impl VersionOfList {
    /// The pairs in order.
    pub fn as_slice(&self) -> &[(u64, u32)]
        ensures { result.now ≡ self.now }
    {
        self.items.as_slice()
    }
}

/// What a lane ends with.
#[derive(Debug, Drop)]
pub struct LaneEnd {
    /// The connections and orphans, in order of name; without their entries where these weren't kept.
    pub records: RecordList,
    /// The name of each record, with the number of commands that it lived under.
    pub versions: VersionOfList,
    /// The callbacks of all records.
    pub callbacks: u64,
    /// The dropped packets of all records.
    pub drops: u64,
}

/// Records as lanes keep them, in order of name. Contracts see the list.
#[derive(Drop)]
pub struct KeptRecords {
    pub items: Vec<RecordUnderWay>,
}

impl Model for KeptRecords {
    ghost use Rattle.std.specs.Prelude.{List};
    ghost use Rattle.lane_core.specs.declared.under_way.RecordUnderWay.{RecordUnderWay};

    ghost Value = { List RecordUnderWay };

    ghost view = { λ l. l.items.items };
}

impl KeptRecords {
    /// The records in order.
    pub fn as_slice(&self) -> &[RecordUnderWay]
        ensures { result.now ≡ self.now }
    {
        self.items.as_slice()
    }
}

/// What a lane ends with where its records stay as it kept them.
#[derive(Drop)]
pub struct KeptEnd {
    /// The connections and orphans, in order of name; without their callbacks where these weren't kept.
    pub records: KeptRecords,
    /// The callbacks of all records.
    pub callbacks: u64,
    /// What these weigh: 32 each, and the bytes that they saw.
    pub weight: u64,
    /// The dropped packets of all records.
    pub drops: u64,
}

/// What a lane ends with, and its application, which tells the fields of its records.
#[derive(Drop)]
pub struct Closed<A> {
    pub app: A,
    pub end: KeptEnd,
}

impl KeptEnd {
    /// The same with the records as the report shows them, and the name of each with its version.
    pub(crate) fn shown<A: App>(self, alloc: Global, app: &A) -> Result<LaneEnd, AllocError>
        ensures { (keep : Bool) (so_far : List RecordSoFar) → IsKeptEnd keep (A.meaning app.now) so_far self
            → IfOk result (λ end. IsEnd keep (A.meaning app.now) so_far end.records end.versions end.callbacks end.drops) }
    {
        let KeptEnd {
            records,
            callbacks,
            drops,
            ..
        } = self;
        let versions = versions_of(alloc, records.as_slice())?;
        let records = records_of(alloc, app, records.items)?;
        Ok(LaneEnd {
            records,
            versions,
            callbacks,
            drops,
        })
    }
}

// The fields of a record: an orphan has none.
fn fields_in<A: App>(
    alloc: Global,
    app: &A,
    kind: RecordKind,
    tally: &Tally,
) -> Result<FieldList, AllocError>
    ensures { IfOk result (λ fields. fields ≡ (if is_conn kind then (A.meaning app.now).fields tally.now else [])) }
{
    match kind {
        RecordKind::Conn { .. } => fields_of(alloc, app, tally),
        RecordKind::Orphan { .. } => Ok(FieldList {
            items: Vec::new(alloc),
        }),
    }
}

// A record that goes on no more.
fn ended<A: App>(alloc: Global, app: &A, slot: RecordUnderWay) -> Result<Record, AllocError>
    ensures { IfOk result (λ r. r ≡ ended (A.meaning app.now) slot) }
{
    let fields = fields_in(alloc, app, slot.kind, &slot.notes.tally)?;
    let RecordUnderWay {
        name,
        kind,
        version,
        notes,
        drops,
    } = slot;
    Ok(Record {
        name,
        kind,
        version,
        entries: notes.entries.into_list(alloc)?,
        drops,
        fields,
    })
}

/// The records of lanes that go on no more, as the report shows them.
pub fn records_of<A: App>(
    alloc: Global,
    app: &A,
    slots: Vec<RecordUnderWay>,
) -> Result<RecordList, AllocError>
    ensures { IfOk result (λ records. records ≡ map (ended (A.meaning app.now)) slots.items) }
{
    let mut items = Vec::with_capacity(alloc, slots.len())?;
    for slot in slots {
        items.push(ended(alloc, app, slot)?)?;
    }
    Ok(RecordList { items })
}

// The name of each record, with its version.
fn versions_of(alloc: Global, slots: &[RecordUnderWay]) -> Result<VersionOfList, AllocError>
    ensures { IfOk result (λ versions. versions ≡ map (λ s. (s.name, s.version)) slots.now) }
{
    let mut items = Vec::with_capacity(alloc, slots.len())?;
    for slot in slots {
        items.push((slot.name, slot.version))?;
    }
    Ok(VersionOfList { items })
}
