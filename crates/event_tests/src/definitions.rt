//! User-defined events, and how they are found.

use app_api::PKT_IN;
use event_trees::{Defs, EventDef};
use filter_lang::parse;
use std::alloc::Global;

/// An event of a table: its number, the event above it, and its filter.
pub type EventRow = (u16, u16, &'static str);

/// Events 1 and 4 under pkt_in, and 2 and 3 under 1.
pub const FAMILY: [EventRow; 4] = [
    (1, PKT_IN, "true"),
    (2, 1, "true"),
    (3, 1, "true"),
    (4, PKT_IN, "true"),
];

/// Events 1 to 7, the first under pkt_in and each other under the one before: the longest path.
pub const CHAIN: [EventRow; 7] = [
    (1, PKT_IN, "true"),
    (2, 1, "true"),
    (3, 2, "true"),
    (4, 3, "true"),
    (5, 4, "true"),
    (6, 5, "true"),
    (7, 6, "true"),
];

/// Adds an event. False where it can't be added.
pub fn define(alloc: Global, defs: &mut Defs, row: EventRow) -> bool {
    let (number, parent, text) = row;
    let Some((_, len)) = defs.root_of(parent) else {
        return false;
    };
    if number == 0 || number > 255 || len > 7 || defs.find(number).is_some() {
        return false;
    }
    let Ok(filter) = parse(alloc, text) else {
        return false;
    };
    let def = EventDef {
        number,
        parent,
        filter,
    };
    defs.add(def).is_ok()
}

/// Adds these events in order. False where one can't be added.
pub fn define_all(alloc: Global, defs: &mut Defs, rows: &[EventRow]) -> bool {
    for row in rows {
        if !define(alloc, defs, *row) {
            return false;
        }
    }
    true
}

// Whether an event is found by its number, under pkt_in.
fn is_found(defs: &Defs, number: u16) -> bool {
    defs.root_of(number) == Some((PKT_IN, 2))
        && match defs.find(number) {
            Some(def) => def.number == number,
            None => false,
        }
}

// Whether all numbers are found, whose events were added from the last to the first, and no others.
fn all_are_found(alloc: Global) -> bool {
    let mut defs = Defs::new(alloc);
    for number in (1..256u16).rev() {
        if !define(alloc, &mut defs, (number, PKT_IN, "true")) {
            return false;
        }
    }
    for number in 1..256u16 {
        if !is_found(&defs, number) {
            return false;
        }
    }
    defs.find(0).is_none() && defs.find(PKT_IN).is_none()
}

#[test]
fn every_number_is_found(rt: HostRuntime) {
    assert!(rt; all_are_found(rt.alloc()));
}

// Whether the last event of the longest path has eight events on its way.
fn longest_has_eight(alloc: Global) -> bool {
    let mut defs = Defs::new(alloc);
    define_all(alloc, &mut defs, &CHAIN) && defs.root_of(7) == Some((PKT_IN, 8))
}

#[test]
fn the_longest_path_has_eight_events(rt: HostRuntime) {
    assert!(rt; longest_has_eight(rt.alloc()));
}
