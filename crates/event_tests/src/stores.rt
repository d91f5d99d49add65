//! Stores of trees: each different tree has a row of its own, whoever puts it in.

use native_filters::Hook;
use shared_forest::{ForestStore, Forests, Node, Slot, StoreUser, Table, Tree};
use std::alloc::{AllocError, Global};
use std::sync::{Arc, Wait};
use std::thread;
use std::thread::Threads;

// So many trees with one registration each: whether they differ by its number or by its event.
const TREES: &[(&str, bool, u16)] = &[
    ("by the registration's number", true, 100),
    ("by the event", false, 2000),
];

// A tree with one registration at one event.
fn leaf(alloc: Global, event: u16, number: u8) -> Result<Tree, AllocError> {
    let nodes = vec![in alloc;
        Node {
            event: 0,
            depth: 0,
            below: 1,
            first: 0,
            count: 0,
        },
        Node {
            event,
            depth: 1,
            below: 0,
            first: 0,
            count: 1,
        },
    ]?;
    let slots = vec![in alloc;
        Slot {
            number,
            hook: Hook::Snd,
        },
    ]?;
    Ok(Tree::new(nodes, slots))
}

// Whether a tree has this event and this registration.
fn is_leaf(tree: &Tree, event: u16, number: u8) -> bool {
    match (tree.nodes().last(), tree.slots().first()) {
        (Some(node), Some(slot)) => node.event == event && slot.number == number,
        _ => false,
    }
}

// Whether a tree gets this row, and stands there.
fn gets_row<F: Forests>(alloc: Global, forests: &mut F, event: u16, number: u8, row: u16) -> bool {
    let Ok(tree) = leaf(alloc, event, number) else {
        return false;
    };
    match forests.intern(alloc, tree) {
        Ok(shared) => {
            shared.row() == usize::from(row) && is_leaf(forests.tree_of(&shared), event, number)
        }
        Err(_) => false,
    }
}

// Whether the tree of this number gets the row of this number.
fn has_row<F: Forests>(alloc: Global, forests: &mut F, by_number: bool, row: u16) -> bool {
    if by_number {
        gets_row(alloc, forests, 257, (row % 256) as u8, row)
    } else {
        gets_row(alloc, forests, row, 1, row)
    }
}

// Whether so many trees get their rows, from the first to the last.
fn have_rows<F: Forests>(alloc: Global, forests: &mut F, by_number: bool, count: u16) -> bool {
    for row in 0..count {
        if !has_row(alloc, forests, by_number, row) {
            return false;
        }
    }
    true
}

// The same, from the last to the first.
fn have_rows_again<F: Forests>(
    alloc: Global,
    forests: &mut F,
    by_number: bool,
    count: u16,
) -> bool {
    for row in (0..count).rev() {
        if !has_row(alloc, forests, by_number, row) {
            return false;
        }
    }
    true
}

// Whether a second Shared of a tree that is put in has its row.
fn again_is_same<F: Forests>(alloc: Global, forests: &mut F, event: u16, number: u8) -> bool {
    let Ok(tree) = leaf(alloc, event, number) else {
        return false;
    };
    let Ok(first) = forests.intern(alloc, tree) else {
        return false;
    };
    match forests.again(alloc, &first) {
        Ok(second) => forests.same(&first, &second),
        Err(_) => false,
    }
}

// Whether the store of one owner gives so many trees so many rows, and counts each of them twice.
fn table_has_rows(alloc: Global, by_number: bool, count: u16) -> bool {
    let mut table = Table::new(alloc);
    have_rows(alloc, &mut table, by_number, count)
        && have_rows_again(alloc, &mut table, by_number, count)
        && table.interns() == 2 * u64::from(count)
        && again_is_same(alloc, &mut table, 257, 1)
        && table.interns() == 2 * u64::from(count) + 1
        && table.rows() == usize::from(count)
}

#[test]
fn each_tree_has_a_row_of_its_own(rt: HostRuntime) {
    for &(name, by_number, count) in TREES {
        assert!(rt; table_has_rows(rt.alloc(), by_number, count), "{name}");
    }
}

// Whether one user finds the trees of another.
fn users_share_rows<R: Wait>(
    alloc: Global,
    one: &mut StoreUser<R>,
    two: &mut StoreUser<R>,
    by_number: bool,
    count: u16,
) -> bool {
    have_rows(alloc, one, by_number, count)
        && have_rows_again(alloc, two, by_number, count)
        && one.interns() == u64::from(count)
        && two.interns() == u64::from(count)
        && again_is_same(alloc, two, 257, 1)
        && two.interns() == u64::from(count) + 1
}

// Whether two users of one store share their rows.
fn store_has_rows<R: Wait + Copy + Drop>(
    rt: R,
    alloc: Global,
    by_number: bool,
    count: u16,
) -> Result<bool, AllocError> {
    let store = Arc::new(alloc, ForestStore::new(alloc)?)?;
    let mut one = StoreUser::new(Arc::try_clone(&store)?, rt);
    let mut two = StoreUser::new(store, rt);
    Ok(users_share_rows(alloc, &mut one, &mut two, by_number, count))
}

#[test]
fn users_find_the_trees_of_others(rt: HostRuntime) {
    for &(name, by_number, count) in TREES {
        assert!(rt;
            store_has_rows(rt, rt.alloc(), by_number, count) == Ok(true),
            "{name}"
        );
    }
}

// The row of a tree that a user puts in.
fn row_of<R: Wait>(
    alloc: Global,
    user: &mut StoreUser<R>,
    number: u8,
) -> Result<usize, AllocError> {
    let shared = user.intern(alloc, leaf(alloc, 257, number)?)?;
    Ok(shared.row())
}

// The rows of two trees, one put in after the other.
fn both_rows<R: Wait>(
    alloc: Global,
    user: &mut StoreUser<R>,
    numbers: (u8, u8),
) -> Result<(usize, usize), AllocError> {
    let first = row_of(alloc, user, numbers.0)?;
    let second = row_of(alloc, user, numbers.1)?;
    Ok((first, second))
}

// The same by a new user.
fn rows_of<R: Wait + Drop>(
    rt: R,
    alloc: Global,
    store: Arc<ForestStore, Global>,
    numbers: (u8, u8),
) -> Result<(usize, usize), AllocError> {
    both_rows(alloc, &mut StoreUser::new(store, rt), numbers)
}

// Whether two pairs of rows are one, in opposite orders.
fn are_opposite(forth: (usize, usize), back: (usize, usize)) -> bool {
    forth.0 == back.1 && forth.1 == back.0 && forth.0 != forth.1
}

// Whether two threads that put in two trees in opposite orders get one pair of rows.
fn threads_agree<R: Threads + Wait + Sync + Send + Copy + Drop>(
    rt: R,
    alloc: Global,
) -> Result<bool, AllocError> {
    let store = Arc::new(alloc, ForestStore::new(alloc)?)?;
    let other = Arc::try_clone(&store)?;
    let (forth, back) = thread::join(
        &rt,
        move || rows_of(rt, alloc, store, (1, 2)),
        move || rows_of(rt, alloc, other, (2, 1)),
    );
    Ok(are_opposite(forth?, back?))
}

#[test]
fn threads_get_one_row_for_one_tree(rt: HostRuntime) {
    for round in 0..100u8 {
        assert!(rt; threads_agree(rt, rt.alloc()) == Ok(true), "round {round}");
    }
}
