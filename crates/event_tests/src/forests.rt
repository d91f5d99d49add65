//! A tree in a table beside the private list that it stands for.

ghost use Rattle.std.specs.Prelude.{◌≡◌, ◌≤◌, ◌≢◌, IsTrue, IfOk, IfSome, Contains};
ghost use Rattle.std.specs.List.{All};
ghost use Rattle.app_api.specs.declared.registration.Reg.{Reg as RegOf};
ghost use Rattle.shared_forest.specs.Listing.{listing};
ghost use Rattle.shared_forest.specs.Rows.{HasRow, tree_at};
ghost use Rattle.shared_forest.specs.Store.{Keeps};
ghost use Rattle.event_trees.specs.Edit.{IsForestOf, IsSwitchable};

use app_api::{ActiveList, Reg};
use event_trees::{Defs, build, edit, is_private, switch};
use shared_forest::{ForestView, Shared, Table};
use std::alloc::{AllocError, Global};

/// A tree of a table, and its private list.
#[derive(Drop)]
pub struct Forest {
    pub shared: Shared,
    pub list: ActiveList,
}

/// A list of these registrations.
pub fn list_of(alloc: Global, regs: &[Reg]) -> Result<ActiveList, AllocError>
    ensures { IfOk result (λ list. list ≡ regs.now) }
{
    let items = regs.to_vec(alloc)?;
    Ok(ActiveList { items })
}

/// The tree of a private list, by `build`.
pub fn built(alloc: Global, table: &mut Table, defs: &Defs, regs: &[Reg]) -> Option<Forest>
    ensures answered { IfSome result (λ f. HasRow table.new f.shared) }
    ensures forest { IfSome result (λ f. IsForestOf defs.now f.list (listing (tree_at table.new f.shared))) }
    ensures kept { Keeps HasRow tree_at table.old table.new }
{
    let Ok(list) = list_of(alloc, regs) else {
        return None;
    };
    if !is_private(defs, &list) {
        return None;
    }
    match build(alloc, table, defs, &list) {
        Ok(shared) => Some(Forest { shared, list }),
        Err(_) => None,
    }
}

// The registration of a list with this number.
fn find(list: &[Reg], number: u8) -> Option<Reg>
    ensures { IfSome result (Contains list.now) }
{
    for reg in list {
        if reg.number == number {
            return Some(*reg);
        }
    }
    None
}

// Whether no registration of a list has this number.
fn is_absent(list: &[Reg], number: u8) -> bool
    ensures { IsTrue result → All (λ r. r.number ≢ number) list.now }
{
    for reg in list {
        if reg.number == number {
            return false;
        }
    }
    true
}

// The registration that is switched: one whose number is absent, or the one that is there.
fn switched_one(list: &[Reg], reg: &Reg, on: bool) -> Option<Reg>
    ensures { IfSome result (λ r. IsSwitchable list.now r on) }
{
    if !on {
        return find(list, reg.number);
    }
    if is_absent(list, reg.number) {
        Some(*reg)
    } else {
        None
    }
}

/// The tree with one registration switched, by `edit`, and its list, by `switch`.
pub fn edited(
    alloc: Global,
    table: &mut Table,
    defs: &Defs,
    forest: &Forest,
    reg: &Reg,
    on: bool,
) -> Option<Forest>
    requires answered { HasRow table.old forest.now.shared }
    requires forest { IsForestOf defs.now forest.now.list (listing (tree_at table.old forest.now.shared)) }
    ensures answered { IfSome result (λ f. HasRow table.new f.shared) }
    ensures forest { IfSome result (λ f. IsForestOf defs.now f.list (listing (tree_at table.new f.shared))) }
    ensures kept { Keeps HasRow tree_at table.old table.new }
{
    let reg = switched_one(forest.list.as_slice(), reg, on)?;
    if reg.number == 0 || defs.root_of(reg.event).is_none() {
        return None;
    }
    let Ok(mut list) = list_of(alloc, forest.list.as_slice()) else {
        return None;
    };
    if switch(defs, &mut list, &reg, on).is_err() {
        return None;
    }
    match edit(alloc, table, &forest.shared, defs, &reg, on) {
        Ok(shared) => Some(Forest { shared, list }),
        Err(_) => None,
    }
}

// Whether a tree is the one that is built of its list.
fn is_built(alloc: Global, table: &mut Table, defs: &Defs, forest: &Forest) -> bool {
    match built(alloc, table, defs, forest.list.as_slice()) {
        Some(anew) => anew.shared.row() == forest.shared.row(),
        None => false,
    }
}

/// Whether each tree is the one that is built of its list.
pub fn are_built(alloc: Global, table: &mut Table, defs: &Defs, forests: &[Forest]) -> bool {
    for forest in forests {
        if !is_built(alloc, table, defs, forest) {
            return false;
        }
    }
    true
}

/// The tree with these registrations switched one after the other. Those before it are added to `made`, so that they can
/// be looked at again after all later ones were made.
pub fn switched(
    alloc: Global,
    table: &mut Table,
    defs: &Defs,
    forest: Forest,
    regs: &[Reg],
    on: bool,
    made: &mut Vec<Forest>,
) -> Option<Forest>
    requires answered { HasRow table.old forest.shared }
    requires forest { IsForestOf defs.now forest.list (listing (tree_at table.old forest.shared)) }
    ensures answered { IfSome result (λ f. HasRow table.new f.shared) }
    ensures forest { IfSome result (λ f. IsForestOf defs.now f.list (listing (tree_at table.new f.shared))) }
{
    let Some((reg, rest)) = regs.split_first() else {
        return Some(forest);
    };
    let changed = edited(alloc, table, defs, &forest, reg, on)?;
    if made.push(forest).is_err() {
        return None;
    }
    switched(alloc, table, defs, changed, rest, on, made)
}
