//! Joins the records of several lanes to one list in order of name.

ghost use Rattle.std.specs.Prelude.{◌≡◌, ◌<◌, ◌≤◌, ◌+◌, ℕ, List, Some, None, true, false, length, map, get_or, IfOk, IfSome, MatchBool, OnOk};
ghost use Rattle.lane_core.specs.declared.under_way.RecordUnderWay.{RecordUnderWay};
ghost use Rattle.lane_composition.specs.Merge.{list_at, AreOfLanes, IsMerge};
ghost use Rattle.lane_join.specs.Queues.{kept_name, lists_in, waiting, IsLowest, IsBest, AreEmpty, lower_of, Moves};

use lane_core::{KeptEnd, KeptRecords, RecordUnderWay};
use std::alloc::{AllocError, Global};
use std::collections::VecDeque;

// The records of one lane that aren't taken yet, the lowest name first.
#[derive(Drop)]
struct Queue {
    records: VecDeque<RecordUnderWay>,
}

// The records of an end as a queue, with nothing copied.
fn queue_of(end: KeptEnd) -> Queue
    ensures { result.records.items ≡ end.records }
{
    Queue {
        records: VecDeque::from(end.records.items),
    }
}

// The records of all ends as queues.
fn queues_of(alloc: Global, ends: Vec<KeptEnd>) -> Result<Vec<Queue>, AllocError>
    ensures { IfOk result (λ queues. waiting queues.items ≡ lists_in ends.items) }
{
    let mut ends = VecDeque::from(ends);
    let mut queues = Vec::with_capacity(alloc, ends.len())?;
    while let Some(end) = ends.pop_front() {
        queues.push(queue_of(end))?;
    }
    Ok(queues)
}

// How many records wait in all. Only memory is asked for by it.
fn count_of(queues: &[Queue]) -> usize {
    let mut count: usize = 0;
    for queue in queues {
        count = count.saturating_add(queue.records.len());
    }
    count
}

// The better of two places by the names of their first records.
fn lower(best: Option<(usize, u64)>, place: usize, name: u64) -> Option<(usize, u64)>
    ensures { result ≡ lower_of best place name }
{
    match best {
        Some(b) if b.1 <= name => Some(b),
        _ => Some((place, name)),
    }
}

// The better of the best place so far and the next one.
fn better(best: Option<(usize, u64)>, place: usize, queue: &Queue) -> Option<(usize, u64)>
    ensures { (ls : List (List RecordUnderWay)) → list_at ls place ≡ queue.now.records.items → IsBest best ls place
        → IsBest result ls (place + 1) }
{
    match queue.records.front() {
        Some(first) => lower(best, place, first.name),
        None => best,
    }
}

// The queue whose first record has the lowest name; none where all are empty.
fn lowest(queues: &[Queue]) -> Option<(usize, u64)>
    ensures { IsBest result (waiting queues.now) (length queues.now) }
{
    let mut best: Option<(usize, u64)> = None;
    for (i, queue) in queues.iter().enumerate() {
        best = better(best, i, queue);
    }
    best
}

// Takes the record with the lowest name; false where none is left.
fn take_lowest(
    queues: &mut Vec<Queue>,
    merged: &mut Vec<RecordUnderWay>,
) -> Result<bool, AllocError>
    ensures { IfOk result (λ more. MatchBool more
        (Moves (waiting queues.old.items) (waiting queues.new.items) merged.old.items merged.new.items)
        (AreEmpty (waiting queues.old.items) (length queues.old.items) × (merged.new.items ≡ merged.old.items))) }
{
    let Some(place) = lowest(queues.as_slice()) else {
        return Ok(false);
    };
    let Some(record) = queues[place.0].records.pop_front() else {
        return Ok(false);
    };
    merged.push(record)?;
    Ok(true)
}

/// The records of all lanes in order of name, in one pass over the first record of each list. Records move and aren't
/// copied. Where lists are those of lanes, which no two have a name in common, and names rise in each, they rise in the
/// merged list, and it has exactly the records of the lists.
pub(crate) fn merge(alloc: Global, ends: Vec<KeptEnd>) -> Result<KeptRecords, AllocError>
    ensures merged { (of : ℕ → ℕ) → AreOfLanes kept_name of (lists_in ends.items)
        → IfOk result (λ merged. IsMerge kept_name of (lists_in ends.items) merged) }
{
    let mut queues = queues_of(alloc, ends)?;
    let mut items = Vec::with_capacity(alloc, count_of(&queues))?;
    while take_lowest(&mut queues, &mut items)? {}
    Ok(KeptRecords { items })
}
