//! Trees in a store: the tree of a private list, and the tree of an edited one.

ghost use Rattle.std.specs.Prelude.{◌≡◌, ◌≤◌, List, IsTrue, IfOk};
ghost use Rattle.shared_forest.specs.Listing.{listing};
ghost use Rattle.event_trees.specs.Private.{IsPrivate, edited};
ghost use Rattle.app_api.specs.declared.registration.Reg.{Reg as RegOf};
ghost use Rattle.event_trees.specs.Defs.{is_event};
ghost use Rattle.event_trees.specs.Edit.{IsTreeOf, IsSwitchable};
ghost use Rattle.event_trees.specs.Canon.{canon};
ghost use Rattle.event_trees.specs.Stored.{Stores};

use crate::defs::Defs;
use crate::edits::tree_switched;
use crate::nodes::tree_of;
use crate::placed::{place, place_all};
use app_api::{ActiveList, Reg};
use shared_forest::{Forests, Shared};
use std::alloc::{AllocError, Global};

/// The tree of a private list, in a store. An error is want of memory, and changes nothing.
pub fn build<F: Forests>(
    alloc: Global,
    f: &mut F,
    defs: &Defs,
    active: &ActiveList,
) -> Result<Shared, AllocError>
    requires { IsPrivate defs.now active.now }
    ensures answered { IfOk result (λ s. F.answered f.new s) }
    ensures listing { IfOk result (λ s. listing (F.content f.new s) ≡ canon defs.now active.now) }
    ensures stored { Stores F.ForestView f.old f.new result }
{
    let regs = place_all(alloc, defs, active.as_slice())?;
    let tree = tree_of(alloc, &regs)?;
    f.intern(alloc, tree)
}

/// The tree of the private list of another tree after one registration is switched on or off: its number is absent
/// before it is switched on, and it is there before it is switched off. The old tree stays as it was. An error is
/// want of memory, and changes nothing.
pub fn edit<F: Forests>(
    alloc: Global,
    f: &mut F,
    tree: &Shared,
    defs: &Defs,
    reg: &Reg,
    on: bool,
) -> Result<Shared, AllocError>
    requires answered { F.answered f.old tree.now }
    requires low { 1 ≤ reg.now.number }
    requires high { reg.now.number ≤ 255 }
    requires event { IsTrue (is_event defs.now reg.now.event) }
    requires forest { (list : List RegOf) × IsTreeOf defs.now list (F.content f.old tree.now)
        × IsSwitchable list reg.now on }

    ensures answered { IfOk result (λ s. F.answered f.new s) }
    ensures listing { (list : List RegOf) → IsTreeOf defs.now list (F.content f.old tree.now)
        → IsSwitchable list reg.now on
        → IfOk result (λ s. IsTreeOf defs.now (edited defs.now list reg.now on) (F.content f.new s)) }

    ensures stored { Stores F.ForestView f.old f.new result }
{
    let placed = place(defs, reg);
    let new = tree_switched(alloc, f.tree_of(tree), &placed, on)?;
    f.intern(alloc, new)
}
