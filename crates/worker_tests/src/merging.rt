//! What lanes end with, joined: their records merged by name, and what is counted and weighed added up.

use app_api::{DropList, Tally};
use connection_core::Notes;
use lane_core::{KeptEnd, KeptRecords, RecordUnderWay};
use lane_join::{Joined, join};
use packet_views::Class;
use report_text::RecordKind;
use std::alloc::{AllocError, Global};

// A record of no connection, with nothing in it.
fn record(alloc: Global, name: u64) -> RecordUnderWay {
    RecordUnderWay {
        name,
        kind: RecordKind::Orphan {
            class: Class::Other,
        },
        version: 0,
        notes: Notes::new(alloc, Tally::zeros()),
        drops: DropList {
            items: Vec::new(alloc),
        },
    }
}

// What one lane ends with: the names of its records, its callbacks, what these weigh, and its dropped packets.
type End<'a> = (&'a [u64], u64, u64, u64);

fn kept_end(alloc: Global, of: End<'_>) -> Result<KeptEnd, AllocError> {
    let (names, callbacks, weight, drops) = of;
    let mut items = Vec::new(alloc);
    for name in names {
        items.push(record(alloc, *name))?;
    }
    Ok(KeptEnd {
        records: KeptRecords { items },
        callbacks,
        weight,
        drops,
    })
}

fn joined(alloc: Global, lanes: &[End<'_>]) -> Result<Joined, AllocError> {
    let mut ends = Vec::new(alloc);
    for of in lanes {
        ends.push(kept_end(alloc, *of)?)?;
    }
    join(alloc, ends)
}

// Whether records have these names, in order.
fn are_named(records: &[RecordUnderWay], names: &[u64]) -> bool {
    records.len() == names.len()
        && records
            .iter()
            .zip(names)
            .all(|(record, name)| record.name == *name)
}

// What the lanes end with, and what all of them do.
const JOINED: &[(&str, &[End<'_>], End<'_>)] = &[
    (
        "four lanes, one of them empty",
        &[
            (&[2, 3, 9], 5, 160, 2),
            (&[], 0, 0, 0),
            (&[0, 4, 5, 8], 8, 300, 0),
            (&[1, 7], 0, 0, 1),
        ],
        (&[0, 1, 2, 3, 4, 5, 7, 8, 9], 13, 460, 3),
    ),
    ("one lane", &[(&[4, 6], 1, 32, 0)], (&[4, 6], 1, 32, 0)),
    (
        "no record",
        &[(&[], 0, 0, 0), (&[], 0, 0, 0)],
        (&[], 0, 0, 0),
    ),
    (
        "more than 64 bits hold",
        &[(&[0], u64::MAX, u64::MAX, u64::MAX), (&[1], 1, 1, 1)],
        (&[0, 1], u64::MAX, u64::MAX, u64::MAX),
    ),
];

fn joins(alloc: Global, lanes: &[End<'_>], want: End<'_>) -> bool {
    let (names, callbacks, weight, drops) = want;
    joined(alloc, lanes).is_ok_and(|all| {
        are_named(all.records.as_slice(), names)
            && (all.callbacks, all.weight, all.drops) == (callbacks, weight, drops)
    })
}

#[test]
fn ends_of_lanes_are_joined(rt: HostRuntime) {
    for &(name, lanes, want) in JOINED {
        assert!(rt; joins(rt.alloc(), lanes, want), "{name}");
    }
}
