//! Walks on worked rows.

use crate::definitions::{EventRow, define_all};
use crate::forests::built;
use crate::natives::next_of;
use crate::trees::{FALSE_CHAIN, RegRow, regs_of};
use app_api::{END, PKT_IN, Reg};
use event_trees::{Defs, Walk};
use native_filters::Facts;
use native_filters::Hook::{self, Rcv, Snd};
use shared_forest::{ForestView, Table, Tree};
use std::alloc::Global;

const FILTERED: [EventRow; 3] = [(1, PKT_IN, "len > 0"), (2, 1, "true"), (3, PKT_IN, "true")];

const UNDER_FILTERS: [RegRow; 2] = [(16, 2, Snd), (17, 3, Snd)];

const SIBLINGS: [EventRow; 2] = [(1, PKT_IN, "true"), (2, PKT_IN, "true")];

// Events, a private list, the hook of a raise of pkt_in, the packet's length, and what it calls.
const WALKS: &[(&str, &[EventRow], &[RegRow], Hook, u64, &[u8])] = &[
    ("false filter", &FILTERED, &UNDER_FILTERS, Snd, 0, &[17]),
    (
        "in the order of paths",
        &FILTERED,
        &UNDER_FILTERS,
        Snd,
        4,
        &[16, 17],
    ),
    ("other hook", &FILTERED, &UNDER_FILTERS, Rcv, 4, &[]),
    (
        "paths before numbers",
        &SIBLINGS,
        &[(20, PKT_IN, Snd), (18, 1, Snd), (19, 2, Snd)],
        Snd,
        0,
        &[20, 18, 19],
    ),
    (
        "paths before numbers, and another root",
        &SIBLINGS,
        &[
            (20, PKT_IN, Snd),
            (18, 1, Snd),
            (19, 1, Snd),
            (17, 2, Snd),
            (16, END, Snd),
        ],
        Snd,
        0,
        &[20, 18, 19, 17],
    ),
    (
        "nothing under a false filter",
        &FALSE_CHAIN,
        &[(16, 7, Rcv)],
        Rcv,
        0,
        &[],
    ),
];

/// Facts of a packet of this length.
pub fn facts_of(len: u64) -> Facts {
    let mut facts = Facts::none();
    facts.len = len;
    facts
}

/// Whether a walk gives these numbers, and then ends.
pub fn gives(
    defs: &Defs,
    tree: &Tree,
    hook: Hook,
    event: u16,
    facts: &Facts,
    numbers: &[u8],
) -> bool {
    let mut walk = Walk::start(tree, hook, event, facts);
    for number in numbers {
        if next_of(&mut walk, defs) != Some(*number) {
            return false;
        }
    }
    next_of(&mut walk, defs).is_none()
}

// Whether a raise of pkt_in calls these of some registrations.
fn regs_call(
    alloc: Global,
    defs: &Defs,
    regs: &[Reg],
    hook: Hook,
    len: u64,
    numbers: &[u8],
) -> bool {
    let mut table = Table::new(alloc);
    match built(alloc, &mut table, defs, regs) {
        Some(forest) => gives(
            defs,
            table.tree_of(&forest.shared),
            hook,
            PKT_IN,
            &facts_of(len),
            numbers,
        ),
        None => false,
    }
}

// Whether it calls these of a list.
fn list_calls(
    alloc: Global,
    defs: &Defs,
    rows: &[RegRow],
    hook: Hook,
    len: u64,
    numbers: &[u8],
) -> bool {
    match regs_of(alloc, rows) {
        Ok(regs) => regs_call(alloc, defs, &regs, hook, len, numbers),
        Err(_) => false,
    }
}

fn calls(
    alloc: Global,
    events: &[EventRow],
    rows: &[RegRow],
    hook: Hook,
    len: u64,
    numbers: &[u8],
) -> bool {
    let mut defs = Defs::new(alloc);
    define_all(alloc, &mut defs, events) && list_calls(alloc, &defs, rows, hook, len, numbers)
}

#[test]
fn walks_give_what_passes(rt: HostRuntime) {
    for &(name, events, rows, hook, len, numbers) in WALKS {
        assert!(rt;
            calls(rt.alloc(), events, rows, hook, len, numbers),
            "{name}"
        );
    }
}
