//! The records so far, and which line may stand behind them.

ghost use Rattle.std.specs.Prelude.{◌≡◌, ◌++◌, IfOk, nat_le};
ghost use Rattle.std.specs.Option.{option_to_list};
ghost use Rattle.report_text.specs.Tidy.{least_after};
ghost use Rattle.report_text.specs.Kept.{is_conn};
ghost use Rattle.report_text.specs.ReadLines.{least_name, least_from, with_entry, with_drop, with_field, reopened, go_on, start, put, finished};

use super::line::{Line, bare};
use crate::record::{Record, RecordKind, RecordList, Totals};
use crate::tidy::rises;
use app_api::{Bytes, Entry, Reason};
use std::alloc::{AllocError, Global};

/// The records of the lines so far.
#[derive(Drop)]
pub(crate) struct Taker {
    /// Those that no line may change any more.
    pub done: RecordList,
    /// The last one.
    pub last: Option<Record>,
    /// With them the report is whole.
    pub totals: Option<Totals>,
}

// The place of the last dropped packet.
fn last_place(drops: &[(u64, Reason)]) -> Option<u64>
    ensures { least_after result ≡ least_from 0 drops.now }
{
    let mut last = None;
    for (index, _) in drops {
        last = Some(*index);
    }
    last
}

fn with_entry(of: Record, entry: Entry) -> Result<Option<Record>, AllocError>
    ensures { IfOk result (λ p. p ≡ with_entry entry of) }
{
    let mut of = of;
    if !of.drops.as_slice().is_empty() || !of.fields.as_slice().is_empty() {
        return Ok(None);
    }
    of.entries.items.push(entry)?;
    Ok(Some(of))
}

fn with_drop(of: Record, index: u64, reason: Reason) -> Result<Option<Record>, AllocError>
    ensures { IfOk result (λ p. p ≡ with_drop (index, reason) of) }
{
    let mut of = of;
    if !rises(last_place(of.drops.as_slice()), index) || !of.fields.as_slice().is_empty() {
        return Ok(None);
    }
    of.drops.items.push((index, reason))?;
    Ok(Some(of))
}

fn is_conn(kind: &RecordKind) -> bool
    ensures { result ≡ is_conn kind.now }
{
    match kind {
        RecordKind::Conn { .. } => true,
        RecordKind::Orphan { .. } => false,
    }
}

fn with_field(of: Record, name: Bytes, value: u64) -> Result<Option<Record>, AllocError>
    ensures { IfOk result (λ p. p ≡ with_field (name, value) of) }
{
    let mut of = of;
    if !is_conn(&of.kind) {
        return Ok(None);
    }
    of.fields.items.push((name, value))?;
    Ok(Some(of))
}

// The last record behind those that are done.
fn reopened(done: RecordList, of: Option<Record>) -> Option<Taker>
    ensures { result ≡ reopened done of }
{
    match of {
        None => None,
        Some(of) => Some(Taker {
            done,
            last: Some(of),
            totals: None,
        }),
    }
}

// All records so far.
fn with_last(done: RecordList, last: Option<Record>) -> Result<RecordList, AllocError>
    ensures { IfOk result (λ rs. rs ≡ done ++ option_to_list last) }
{
    let mut done = done;
    if let Some(of) = last {
        done.items.push(of)?;
    }
    Ok(done)
}

fn name_rises(last: &Option<Record>, name: u64) -> bool
    ensures { result ≡ nat_le (least_name last.now) name }
{
    match last {
        None => true,
        Some(of) => of.name < name,
    }
}

// A line that goes on with the last record.
fn go_on(done: RecordList, of: Record, line: Line) -> Result<Option<Taker>, AllocError>
    ensures { IfOk result (λ p. p ≡ go_on done of line) }
{
    match line {
        Line::Callback(entry) => Ok(reopened(done, with_entry(of, entry)?)),
        Line::Dropped(index, reason) => Ok(reopened(done, with_drop(of, index, reason)?)),
        Line::Field(name, value) => Ok(reopened(done, with_field(of, name, value)?)),
        _ => Ok(None),
    }
}

impl Taker {
    /// Nothing yet.
    pub(super) fn new(alloc: Global) -> Taker
        ensures { result ≡ start }
    {
        Taker {
            done: RecordList {
                items: Vec::new(alloc),
            },
            last: None,
            totals: None,
        }
    }

    /// What stands after one more line, where the line may stand there.
    #[tactic(auto, unfolding(crate::specs::ReadLines::put))]
    pub(super) fn put(self, alloc: Global, line: Line) -> Result<Option<Taker>, AllocError>
        ensures { IfOk result (λ p. p ≡ put self line) }
    {
        let Taker { done, last, totals } = self;
        if totals.is_some() {
            return Ok(None);
        }
        match line {
            Line::First {
                name,
                kind,
                version,
            } => {
                if !name_rises(&last, name) {
                    return Ok(None);
                }
                Ok(Some(Taker {
                    done: with_last(done, last)?,
                    last: Some(bare(alloc, name, kind, version)),
                    totals: None,
                }))
            }
            Line::Last(totals) => Ok(Some(Taker {
                done,
                last,
                totals: Some(totals),
            })),
            line => match last {
                None => Ok(None),
                Some(of) => go_on(done, of, line),
            },
        }
    }

    /// The records and the totals, where these were read.
    pub(super) fn finish(self) -> Result<Option<(RecordList, Totals)>, AllocError>
        ensures { IfOk result (λ p. p ≡ finished self) }
    {
        let Taker { done, last, totals } = self;
        match totals {
            None => Ok(None),
            Some(totals) => Ok(Some((with_last(done, last)?, totals))),
        }
    }
}
