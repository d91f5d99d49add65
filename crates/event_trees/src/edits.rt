//! A copy of a tree with one registration more or one less.

ghost use Rattle.std.specs.Prelude.{◌≡◌, ◌≤◌, false, length, IsTrue, IfOk};
ghost use Rattle.std.specs.List.Sorted.{IsStrictlySortedBy};
ghost use Rattle.std.specs.Ordering.{is_lt};
ghost use Rattle.event_trees.specs.Canon.{IsCanonOf};
ghost use Rattle.event_trees.specs.Build.{seen};
ghost use Rattle.event_trees.specs.ReadOff.{placed_in, IsListed};
ghost use Rattle.event_trees.specs.Edit.{placed_cmp, has_placed, switched};

use crate::insert::tree_with;
use crate::placed::PlacedReg;
use crate::remove::tree_without;
use shared_forest::Tree;
use std::alloc::{AllocError, Global};
use std::cmp::Ordering;

/// Whether a registration comes before another: by path, and then by number.
pub(crate) fn is_before(a: &PlacedReg, b: &PlacedReg) -> bool
    ensures { result ≡ is_lt (placed_cmp (seen a.now) (seen b.now)) }
{
    match a.path.events().cmp(b.path.events()) {
        Ordering::Less => true,
        Ordering::Equal => a.slot.number < b.slot.number,
        Ordering::Greater => false,
    }
}

/// A copy of a tree with one registration more or one less.
pub(crate) fn tree_switched(
    alloc: Global,
    tree: &Tree,
    reg: &PlacedReg,
    on: bool,
) -> Result<Tree, AllocError>
    requires listed { IsListed tree.now }
    requires there { on ≡ false → IsTrue (has_placed reg.now.slot.number (placed_in tree.now)) }
    requires new_order { IsStrictlySortedBy placed_cmp (switched (seen reg.now) on (placed_in tree.now)) }
    requires new_few { length (switched (seen reg.now) on (placed_in tree.now)) ≤ 255 }
    ensures { IfOk result (IsCanonOf (switched (seen reg.now) on (placed_in tree.now))) }
{
    if on {
        return tree_with(alloc, tree, reg);
    }
    tree_without(alloc, tree, reg.slot.number)
}
