//! Trees by hand, by `build` and by `edit`s.

use crate::definitions::{CHAIN, EventRow, FAMILY, define_all};
use crate::forests::{are_built, built, edited, switched};
use app_api::{END, PKT_IN, Reg};
use event_trees::Defs;
use native_filters::Hook::{self, Rcv, Snd};
use shared_forest::{ForestView, Node, Slot, Table, Tree};
use std::alloc::{AllocError, Global};

/// A registration of a table: its number, its event, and its hook.
pub type RegRow = (u8, u16, Hook);

// A node of a table: its event, its depth, how many nodes are under it, where its registrations begin, and their number.
type NodeRow = (u16, u8, u32, u32, u8);

// Two roots, with a node between.
const ROOTS: [RegRow; 2] = [(17, 1, Snd), (16, END, Rcv)];

const ROOTS_NODES: [NodeRow; 4] = [
    (0, 0, 3, 0, 0),
    (PKT_IN, 1, 1, 0, 0),
    (1, 2, 0, 0, 1),
    (END, 1, 0, 1, 1),
];

const LAST_NODES: [NodeRow; 2] = [(0, 0, 1, 0, 0), (END, 1, 0, 0, 1)];

// The end of the longest path.
const DEEP: [RegRow; 1] = [(16, 7, Rcv)];

const DEEP_NODES: [NodeRow; 9] = [
    (0, 0, 8, 0, 0),
    (PKT_IN, 1, 7, 0, 0),
    (1, 2, 6, 0, 0),
    (2, 3, 5, 0, 0),
    (3, 4, 4, 0, 0),
    (4, 5, 3, 0, 0),
    (5, 6, 2, 0, 0),
    (6, 7, 1, 0, 0),
    (7, 8, 0, 0, 1),
];

/// The longest path under a filter that is never true.
pub const FALSE_CHAIN: [EventRow; 7] = [
    (1, PKT_IN, "false"),
    (2, 1, "true"),
    (3, 2, "true"),
    (4, 3, "true"),
    (5, 4, "true"),
    (6, 5, "true"),
    (7, 6, "true"),
];

// Events, a private list, and its tree.
const TREES: &[(&str, &[EventRow], &[RegRow], &[NodeRow])] = &[
    ("no registration", &FAMILY, &[], &[(0, 0, 0, 0, 0)]),
    (
        "one at a root",
        &FAMILY,
        &[(16, PKT_IN, Snd)],
        &[(0, 0, 1, 0, 0), (PKT_IN, 1, 0, 0, 1)],
    ),
    ("two roots", &FAMILY, &ROOTS, &ROOTS_NODES),
    (
        "siblings by their events, registrations of one event by their numbers",
        &FAMILY,
        &[(18, 1, Snd), (16, 4, Rcv), (17, 4, Snd)],
        &[
            (0, 0, 3, 0, 0),
            (PKT_IN, 1, 2, 0, 0),
            (1, 2, 0, 0, 1),
            (4, 2, 0, 1, 2),
        ],
    ),
    (
        "a node's own registrations before those under it",
        &FAMILY,
        &[
            (19, PKT_IN, Snd),
            (17, 1, Snd),
            (18, 1, Rcv),
            (20, 2, Snd),
            (16, 3, Snd),
        ],
        &[
            (0, 0, 4, 0, 0),
            (PKT_IN, 1, 3, 0, 1),
            (1, 2, 2, 1, 2),
            (2, 3, 0, 3, 1),
            (3, 3, 0, 4, 1),
        ],
    ),
    ("the longest path", &CHAIN, &DEEP, &DEEP_NODES),
    (
        "the longest path under a false filter",
        &FALSE_CHAIN,
        &DEEP,
        &DEEP_NODES,
    ),
];

/// The registrations of a table, which do nothing.
pub fn regs_of(alloc: Global, rows: &[RegRow]) -> Result<Vec<Reg>, AllocError> {
    let mut regs = Vec::new(alloc);
    for (number, event, hook) in rows {
        regs.push(Reg::preset(*number, *event, *hook, true))?;
    }
    Ok(regs)
}

fn is_node(node: &Node, row: NodeRow) -> bool {
    let (event, depth, below, first, count) = row;
    *node
        == Node {
            event,
            depth,
            below,
            first,
            count,
        }
}

fn are_nodes(nodes: &[Node], rows: &[NodeRow]) -> bool {
    nodes.len() == rows.len()
        && nodes
            .iter()
            .zip(rows)
            .all(|(node, row)| is_node(node, *row))
}

fn is_slot(slot: &Slot, row: RegRow) -> bool {
    let (number, _, hook) = row;
    *slot == Slot { number, hook }
}

fn are_slots(slots: &[Slot], rows: &[RegRow]) -> bool {
    slots.len() == rows.len()
        && slots
            .iter()
            .zip(rows)
            .all(|(slot, row)| is_slot(slot, *row))
}

// Whether a tree has these nodes, and these registrations in their order.
fn is_tree(tree: &Tree, regs: &[RegRow], nodes: &[NodeRow]) -> bool {
    are_nodes(tree.nodes(), nodes) && are_slots(tree.slots(), regs)
}

// Whether edits that switch these registrations on lead to a row, and those that switch them off to where they began.
fn edits_lead_to(alloc: Global, table: &mut Table, defs: &Defs, regs: &[Reg], row: usize) -> bool {
    let Some(empty) = built(alloc, table, defs, &[]) else {
        return false;
    };
    let none = empty.shared.row();
    let mut made = Vec::new(alloc);
    let Some(full) = switched(alloc, table, defs, empty, regs, true, &mut made) else {
        return false;
    };
    let reached = full.shared.row();
    match switched(alloc, table, defs, full, regs, false, &mut made) {
        Some(off) => {
            reached == row && off.shared.row() == none && are_built(alloc, table, defs, &made)
        }
        None => false,
    }
}

// Whether a list has this tree by `build`, and edits lead to it in the order of the list and in the other.
fn regs_have_tree(
    alloc: Global,
    defs: &Defs,
    regs: &[Reg],
    others: &[Reg],
    rows: &[RegRow],
    nodes: &[NodeRow],
) -> bool {
    let mut table = Table::new(alloc);
    match built(alloc, &mut table, defs, regs) {
        Some(whole) => {
            let row = whole.shared.row();
            is_tree(table.tree_of(&whole.shared), rows, nodes)
                && edits_lead_to(alloc, &mut table, defs, regs, row)
                && edits_lead_to(alloc, &mut table, defs, others, row)
        }
        None => false,
    }
}

fn list_has_tree(
    alloc: Global,
    defs: &Defs,
    rows: &[RegRow],
    nodes: &[NodeRow],
) -> Result<bool, AllocError> {
    let regs = regs_of(alloc, rows)?;
    let mut others = regs_of(alloc, rows)?;
    others.reverse();
    Ok(regs_have_tree(alloc, defs, &regs, &others, rows, nodes))
}

// Whether a list of these events' registrations has this tree.
fn has_tree(alloc: Global, events: &[EventRow], rows: &[RegRow], nodes: &[NodeRow]) -> bool {
    let mut defs = Defs::new(alloc);
    define_all(alloc, &mut defs, events)
        && list_has_tree(alloc, &defs, rows, nodes).unwrap_or(false)
}

#[test]
fn lists_have_their_trees(rt: HostRuntime) {
    for &(name, events, rows, nodes) in TREES {
        assert!(rt; has_tree(rt.alloc(), events, rows, nodes), "{name}");
    }
}

// Whether a tree of two roots stands as it was beside the tree without its first registration.
fn both_stand(alloc: Global, table: &mut Table, defs: &Defs, regs: &[Reg]) -> bool {
    let Some(first) = regs.first() else {
        return false;
    };
    let Some(whole) = built(alloc, table, defs, regs) else {
        return false;
    };
    match edited(alloc, table, defs, &whole, first, false) {
        Some(rest) => {
            is_tree(table.tree_of(&rest.shared), &ROOTS[1..], &LAST_NODES)
                && is_tree(table.tree_of(&whole.shared), &ROOTS, &ROOTS_NODES)
        }
        None => false,
    }
}

// Whether an edit leaves the tree that it began with.
fn edit_leaves_old(alloc: Global) -> bool {
    let mut defs = Defs::new(alloc);
    let mut table = Table::new(alloc);
    match regs_of(alloc, &ROOTS) {
        Ok(regs) => {
            define_all(alloc, &mut defs, &FAMILY) && both_stand(alloc, &mut table, &defs, &regs)
        }
        Err(_) => false,
    }
}

#[test]
fn an_edit_leaves_the_old_tree(rt: HostRuntime) {
    assert!(rt; edit_leaves_old(rt.alloc()));
}
