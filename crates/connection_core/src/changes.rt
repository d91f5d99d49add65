//! The changes of a connection's registrations.

ghost use Rattle.std.specs.Prelude.{◌≡◌, ◌==◌, OnOk, OnErr};
ghost use Rattle.std.specs.List.{list_any};
ghost use Rattle.connection_core.specs.PacketUnderWay.{is_so, changed, changed_all};
ghost use Rattle.connection_core.specs.Calls.{IsHeld, StaysHeld, AltersTree, CostsTree};

use crate::in_force::InForce;
use app_api::Change1;
use event_trees::{edit, later_events_change_nothing, slots_in_order};
use shared_forest::{Forests, Shared, Tree};
use std::alloc::{AllocError, Global};

// Whether a tree has a registration of this number.
fn is_on(tree: &Tree, number: u8) -> bool
    ensures { result ≡ list_any (λ slot. slot.number == number) tree.now.slots }
{
    tree.slots().iter().any(|slot| slot.number == number)
}

// Whether a registration of a tree is already as a change asks.
fn is_so(tree: &Tree, change: Change1) -> bool
    ensures { result ≡ is_so (list_any (λ slot. slot.number == change.reg) tree.now.slots) change.on }
{
    if change.on {
        is_on(tree, change.reg)
    } else {
        !is_on(tree, change.reg)
    }
}

// Makes one change, where its number is registered and isn't so already. An error changes nothing.
fn change<F: Forests>(
    alloc: Global,
    in_force: &InForce,
    forests: &mut F,
    forest: &mut Shared,
    change: Change1,
) -> Result<(), AllocError>
    requires held { IsHeld F.ForestView in_force.now forests.old forest.old }
    ensures stays { StaysHeld F.ForestView in_force.now forests.old forests.new forest.new }
    ensures made { OnOk result (AltersTree F.ForestView in_force.now forests.old forest.old
        forests.new forest.new (λ s. changed s change)) }
    ensures err { OnErr result (forests.new ≡ forests.old) }
{
    let Some(reg) = in_force.reg_at(change.reg) else {
        return Ok(());
    };
    let tree = forests.tree_of(forest);
    slots_in_order(tree);
    if is_so(tree, change) {
        return Ok(());
    }
    let defs = in_force.defs();
    later_events_change_nothing(defs);
    let edited = edit(alloc, forests, forest, defs, reg, change.on)?;
    slots_in_order(forests.tree_of(&edited));
    *forest = edited;
    Ok(())
}

/// Makes changes in the order in which they were asked. At an error some of them are made.
pub(crate) fn change_all<F: Forests>(
    alloc: Global,
    in_force: &InForce,
    forests: &mut F,
    forest: &mut Shared,
    changes: &[Change1],
) -> Result<(), AllocError>
    requires held { IsHeld F.ForestView in_force.now forests.old forest.old }
    ensures stays { StaysHeld F.ForestView in_force.now forests.old forests.new forest.new }
    ensures made { OnOk result (AltersTree F.ForestView in_force.now forests.old forest.old
        forests.new forest.new (λ s. changed_all s changes.now)) }
    ensures failed { OnErr result (CostsTree F.ForestView in_force.now forests.old forest.old
        forests.new (λ s. changed_all s changes.now)) }
{
    for asked in changes {
        change(alloc, in_force, forests, forest, *asked)?;
    }
    Ok(())
}
